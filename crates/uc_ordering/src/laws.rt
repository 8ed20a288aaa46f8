//! Laws over the definitions, the contract of a function that does nothing.

ghost use Rattle.std.specs.Prelude.{◌≡◌, ◌↔◌, ◌≤◌, List, Option, Some, None};
ghost use Rattle.uc_term.specs.Table.{Table};
ghost use Rattle.uc_term.specs.Tree.{Tree};
ghost use Rattle.uc_term.specs.declared.node.Sym.{Sym};
ghost use Rattle.uc_term.specs.declared.fresh.Fresh.{Fresh};
ghost use Rattle.uc_term.specs.declared.signature.Signature.{Signature};
ghost use Rattle.uc_order.specs.Members.{In};
ghost use Rattle.uc_order.specs.Laws.{IsGroundOf};
ghost use Rattle.uc_order.specs.declared.spec.OrderSpec.{OrderSpec};
ghost use Rattle.uc_words.specs.declared.command.OrderWords.{OrderWords};
ghost use Rattle.uc_ordering.specs.declared.fault.ChoiceFault.{ChoiceFault};
ghost use Rattle.uc_ordering.specs.declared.fault.ChoiceFault.TheVariants.{NoMemory};
ghost use Rattle.uc_ordering.specs.Choice.{IsChosen, IsChoiceFault};
ghost use Rattle.uc_ordering.specs.Meaning.{meaning_of};
ghost use Rattle.uc_ordering.specs.Premises.{IsSignature, AreMarks};
ghost use Rattle.uc_ordering.specs.Restricting.{restricted};

/// Options name at most one order of a signature, or are refused for one reason, and never both. So where `choose` tells
/// what they name it says exactly where each answer comes.
pub fn one_choice()
    ensures order { (table : Table) (signature : Signature) (words : OrderWords) (fresh : Option Fresh) (a b : OrderSpec) → IsChosen table signature words fresh a → IsChosen table signature words fresh b → a ≡ b }
    ensures refusal { (table : Table) (signature : Signature) (words : OrderWords) (a b : ChoiceFault) → (a ≡ NoMemory → ⊥) → (b ≡ NoMemory → ⊥) → IsChoiceFault table signature words a → IsChoiceFault table signature words b → a ≡ b }
    ensures never_both { (table : Table) (signature : Signature) (words : OrderWords) (fresh : Option Fresh) (spec : OrderSpec) (fault : ChoiceFault) → (fault ≡ NoMemory → ⊥) → IsChosen table signature words fresh spec → IsChoiceFault table signature words fault → ⊥ }
{}

/// An order that is restricted to some of its symbols says of ground terms over these what the whole order says.
pub fn restriction_agrees()
    ensures { (table : Table) (own : List Sym) (spec : OrderSpec) (s t : Tree) → IsGroundOf (meaning_of table (restricted own spec)) s → IsGroundOf (meaning_of table (restricted own spec)) t → (meaning_of table spec).greater s t ↔ (meaning_of table (restricted own spec)).greater s t }
{}

/// The order that options name for an encoded problem is, restricted to the problem's own symbols, the one that they name for the problem
/// without an encoding. And its least constant is one of these symbols.
pub fn encoding_extends_order()
    ensures restriction { (table : Table) (signature : Signature) (words : OrderWords) (marks : Fresh) (whole own : OrderSpec) → 1 ≤ words.w0 → words.w0 ≤ 1000000 → IsSignature table signature → AreMarks table signature (Some marks) → IsChosen table signature words (Some marks) whole → IsChosen table signature words None own → restricted signature.symbols whole ≡ own }
    ensures least { (table : Table) (signature : Signature) (words : OrderWords) (marks : Fresh) (whole own : OrderSpec) → 1 ≤ words.w0 → words.w0 ≤ 1000000 → IsSignature table signature → AreMarks table signature (Some marks) → IsChosen table signature words (Some marks) whole → IsChosen table signature words None own → In signature.symbols (meaning_of table whole).least }
{}
