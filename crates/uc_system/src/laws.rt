//! Laws over the definitions, each the contract of a function that does nothing.

ghost use Rattle.std.specs.Prelude.{◌≡◌, List, ℕ, Result, Err};
ghost use Rattle.uc_term.specs.Table.{Table, Grows, IsDistinct};
ghost use Rattle.uc_system.specs.declared.fault.SystemFault.{SystemFault};
ghost use Rattle.uc_system.specs.declared.system.SystemText.{SystemText};
ghost use Rattle.uc_system.specs.Reading.{ReadsSystem};
ghost use Rattle.uc_system.specs.Interning.{InternsSystem};

/// In a table whose entries are all different a text reads as at most one system, or is refused for one reason at one place. So
/// each contract that names this says exactly where each answer comes.
pub fn one_system()
    ensures { (table : Table) (text : List ℕ) (a b : Result SystemText SystemFault) → IsDistinct table → ReadsSystem table text a → ReadsSystem table text b → a ≡ b }
{}

/// What reading a system makes of the table of symbols is one table.
pub fn one_table()
    ensures { (text : List ℕ) (old new other : Table) → InternsSystem text old new → InternsSystem text old other → new ≡ other }
{}

/// What a text reads as in a table it reads as in each table that begins with it. So a printed system is read again also where
/// the table has grown.
pub fn system_stays()
    ensures { (old new : Table) (text : List ℕ) (answer : Result SystemText SystemFault) → Grows old new → ReadsSystem old text answer → ReadsSystem new text answer }
{}

/// Why a text isn't read doesn't depend on the table, where the entries of a table are all different: a text that is refused in one
/// is refused in each for the same reason and at the same place.
pub fn one_refusal()
    ensures { (table other : Table) (text : List ℕ) (fault : SystemFault) (answer : Result SystemText SystemFault) → IsDistinct table → IsDistinct other → ReadsSystem table text (Err fault) → ReadsSystem other text answer → answer ≡ Err fault }
{}
