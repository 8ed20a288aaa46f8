//! Laws over the definitions, each the contract of a function that does nothing.

ghost use Rattle.std.specs.Prelude.{◌≡◌, ℕ, List, Result};
ghost use Rattle.uc_term.specs.Table.{Table, Grows, IsDistinct};
ghost use Rattle.uc_check.specs.declared.proof.Proof.{Proof};
ghost use Rattle.uc_tstp.specs.declared.fault.ProofFault.{ProofFault};
ghost use Rattle.uc_tstp.specs.declared.framing.Frame.{Frame};
ghost use Rattle.uc_tstp.specs.Framing.{Framed};
ghost use Rattle.uc_tstp.specs.Reading.{ReadsProof, ReadsLines};
ghost use Rattle.uc_tstp.specs.Interning.{InternsProof};

/// A text comes to at most one frame or one reason why it has none. In a table whose entries are all different it reads as at
/// most one proof, or is refused for one reason at one place, and so do lines alone. So each contract that names these says
/// exactly where each answer comes.
pub fn one_reading()
    ensures frame { (text : List ℕ) (a b : Result Frame ProofFault) → Framed text a → Framed text b → a ≡ b }
    ensures reading { (table : Table) (text : List ℕ) (a b : Result Proof ProofFault) → IsDistinct table → ReadsProof table text a → ReadsProof table text b → a ≡ b }
    ensures lines { (table : Table) (text : List ℕ) (a b : Result Proof ProofFault) → IsDistinct table → ReadsLines table text a → ReadsLines table text b → a ≡ b }
{}

/// What reading a proof makes of the table of symbols is one table.
pub fn one_table()
    ensures { (text : List ℕ) (old new other : Table) → InternsProof text old new → InternsProof text old other → new ≡ other }
{}

/// What a text reads as in a table it reads as in each table that begins with it, and so do lines alone. So a printed proof is
/// read again also where the table has grown.
pub fn reading_stays()
    ensures proof { (old new : Table) (text : List ℕ) (answer : Result Proof ProofFault) → Grows old new → ReadsProof old text answer → ReadsProof new text answer }
    ensures lines { (old new : Table) (text : List ℕ) (answer : Result Proof ProofFault) → Grows old new → ReadsLines old text answer → ReadsLines new text answer }
{}
