//! Laws over the definitions, each the contract of a function that does nothing.

ghost use Rattle.std.specs.Prelude.{◌≡◌, ℕ, List, Result};
ghost use Rattle.uc_term.specs.Tree.{Tree};
ghost use Rattle.uc_term.specs.Table.{Table, IsDistinct};
ghost use Rattle.uc_clause.specs.declared.clause.Item.{Item};
ghost use Rattle.uc_clause.specs.declared.fault.ClauseFault.{ClauseFault};
ghost use Rattle.uc_clause.specs.Reading.{ReadsOrRefusesFile, ReadsOrRefusesTerm, ReadsOrRefusesEquation};
ghost use Rattle.uc_clause.specs.Interning.{InternsFile, InternsTerm, InternsEquation};

/// States that a text has one reading. In a table whose entries are all different a file is one list of items or is refused
/// for one reason at one place, and so is a term and an equation.
pub fn one_reading()
    ensures file { (table : Table) (bytes : List ℕ) (a b : Result (List Item) ClauseFault) → IsDistinct table → ReadsOrRefusesFile bytes table a → ReadsOrRefusesFile bytes table b → a ≡ b }
    ensures term { (table : Table) (bytes : List ℕ) (a b : Result Tree ClauseFault) → IsDistinct table → ReadsOrRefusesTerm bytes table a → ReadsOrRefusesTerm bytes table b → a ≡ b }
    ensures equation { (table : Table) (bytes : List ℕ) (a b : Result (Tree × Tree) ClauseFault) → IsDistinct table → ReadsOrRefusesEquation bytes table a → ReadsOrRefusesEquation bytes table b → a ≡ b }
{}

/// States that reading a text makes one table of symbols of the table before.
pub fn one_table()
    ensures file { (bytes : List ℕ) (old new other : Table) → InternsFile bytes old new → InternsFile bytes old other → new ≡ other }
    ensures term { (bytes : List ℕ) (old new other : Table) → InternsTerm bytes old new → InternsTerm bytes old other → new ≡ other }
    ensures equation { (bytes : List ℕ) (old new other : Table) → InternsEquation bytes old new → InternsEquation bytes old other → new ≡ other }
{}
