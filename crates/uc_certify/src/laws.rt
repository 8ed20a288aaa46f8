//! Laws over the definitions, each the contract of a function that does nothing.

ghost use Rattle.std.specs.Prelude.{◌≡◌, List, Ok};
ghost use Rattle.std.specs.List.{AllByRecursion};
ghost use Rattle.uc_term.specs.declared.equation.Equation.{Equation};
ghost use Rattle.uc_clause.specs.declared.clause.Sourced.{Sourced};
ghost use Rattle.uc_order.specs.Laws.{HasSym, IsGroundOf};
ghost use Rattle.uc_fact.specs.declared.fact.System.{System};
ghost use Rattle.uc_fact.specs.Ground.{AreOfSignature, IsJoinable};
ghost use Rattle.uc_fact.specs.Live.{equations_of};
ghost use Rattle.uc_shelf.specs.Entries.{live};
ghost use Rattle.uc_machine.specs.declared.task.Outcome.TheVariants.{Convergent};
ghost use Rattle.uc_machine.specs.State.{State};
ghost use Rattle.uc_machine.specs.Finals.{IsFinal};
ghost use Rattle.uc_check.specs.Clauses.{axioms_of};
ghost use Rattle.uc_decide.specs.declared.reply.Reply.{Reply};
ghost use Rattle.uc_decide.specs.NormalForms.{HasNormalForm};
ghost use Rattle.uc_decide.specs.Deciding.{Decides};
ghost use Rattle.uc_decide.specs.Asking.{IsRight};
ghost use Rattle.uc_problem.specs.declared.problem.Problem.{Problem};
ghost use Rattle.uc_problem.specs.Encodes.{Encodes};
ghost use Rattle.uc_problem.specs.declared.problem.Encoded.{Encoded};
ghost use Rattle.uc_system.specs.Reading.{precedence_of};
ghost use Rattle.uc_term.specs.Tree.{Tree};
ghost use Rattle.uc_term.specs.Table.{Table, Has};
ghost use Rattle.uc_clause.specs.Printable.{IsPrintableSymbol};
ghost use Rattle.uc_runs.specs.Written.{AreNumbered, AreSmall};
ghost use Rattle.uc_certificate.specs.declared.certificate.Certificate.{Certificate};
ghost use Rattle.uc_certificate.specs.declared.certificate.Join.{Join};
ghost use Rattle.uc_certificate.specs.Printing.{IsJoinOf};
ghost use Rattle.uc_certificate.specs.Printable.{IsPrintableJoin};
ghost use Rattle.uc_certify.specs.declared.certified.Certified.{Certified};
ghost use Rattle.uc_certify.specs.declared.certified.Certified.TheVariants.{Yes};
ghost use Rattle.uc_certify.specs.declared.expected.Member.{Member};
ghost use Rattle.uc_certify.specs.Joining.{Joins};
ghost use Rattle.uc_certify.specs.Expecting.{AreExpected};
ghost use Rattle.uc_certify.specs.Certifying.{AreSameSymbols, IsCertified};
ghost use Rattle.uc_certify.specs.Making.{AllAreFoundJoined, AreAllMade};
ghost use Rattle.uc_certify.specs.Settings.{IsEncodingOf};
ghost use Rattle.uc_certify.specs.Extending.{Extends, IsOwnOrder};
ghost use Rattle.uc_certify.specs.Naming.{AreSymbolsIn, HaveFewVariables};

use uc_order::Order;

/// What is expected to be joined is one list, and the check of a certificate has one answer. So the contract that names it says
/// exactly where each answer comes.
pub fn one_certified<O: Order>(order: &O)
    ensures expected { (facts axioms : List Equation) (a b : List Member) → AreExpected (O.meaning order.now).greater facts axioms a → AreExpected (O.meaning order.now).greater facts axioms b → a ≡ b }
    ensures answer { (clauses : List Sourced) (encoded : Encoded) (certificate : Certificate) (a b : Certified) → IsCertified (O.meaning order.now) clauses encoded certificate a → IsCertified (O.meaning order.now) clauses encoded certificate b → a ≡ b }
{}

/// Each ground instance of two terms is joined by ground steps of the facts, where a join of them is right.
pub fn joins_are_joinable<O: Order>(order: &O)
    ensures { (facts : List Equation) (l r : Tree) (join : Join) → Joins (O.meaning order.now) facts l r join → IsJoinable (O.meaning order.now).greater (HasSym (O.meaning order.now)) (O.meaning order.now).arity facts l r }
{}

/// A certificate that passes all tests shows that its facts decide what follows from the axioms of the encoded problem, where the
/// order is the certificate's and the facts are over its signature.
pub fn certified_decides<O: Order>(order: &O)
    ensures { (clauses : List Sourced) (encoded : Encoded) (certificate : Certificate) → IsCertified (O.meaning order.now) clauses encoded certificate Yes → AreSameSymbols (O.meaning order.now).symbols (precedence_of certificate.text.spec) → AreOfSignature (HasSym (O.meaning order.now)) (O.meaning order.now).arity certificate.text.system.facts → IsEncodingOf (O.meaning order.now) clauses encoded → Decides (O.meaning order.now) certificate.text.system.facts encoded.axioms }
{}

/// Where the final pass finds that the facts that live converge, it finds every axiom and every overlap of two of them to be joined,
/// the facts being numbered by their places. So a certificate of them can be made.
pub fn convergent_is_joined<O: Order>(order: &O)
    ensures { (axioms : List Equation) (s : State) (system : System) → IsFinal (O.meaning order.now) axioms s (Convergent system) → AllAreFoundJoined (O.meaning order.now) (equations_of (live s.entries)) axioms }
{}

/// One list of joins is made for a system and its axioms.
pub fn one_making<O: Order>(order: &O)
    ensures { (facts axioms : List Equation) (a b : List Join) → AreAllMade (O.meaning order.now) facts axioms a → AreAllMade (O.meaning order.now) facts axioms b → a ≡ b }
{}

/// Joins that are made can be printed in each table that has the order's symbols with their arities, where the facts and the axioms
/// are over its signature. They can be read back where the table's tokens spell these symbols and join lines name the variables of
/// the axioms. They name those of equations with at most 4,096 nodes a side that are numbered by first occurrence.
pub fn made_joins_are_printable<O: Order>(order: &O)
    ensures of_table { (table : Table) (facts axioms : List Equation) (joins : List Join) → AreAllMade (O.meaning order.now) facts axioms joins → AreOfSignature (HasSym (O.meaning order.now)) (O.meaning order.now).arity facts → AreOfSignature (HasSym (O.meaning order.now)) (O.meaning order.now).arity axioms → AreSymbolsIn table (Has table) (O.meaning order.now) → AllByRecursion (IsJoinOf table) joins }
    ensures printable { (table : Table) (facts axioms : List Equation) (joins : List Join) → AreAllMade (O.meaning order.now) facts axioms joins → AreOfSignature (HasSym (O.meaning order.now)) (O.meaning order.now).arity facts → AreOfSignature (HasSym (O.meaning order.now)) (O.meaning order.now).arity axioms → AreSymbolsIn table (IsPrintableSymbol table) (O.meaning order.now) → HaveFewVariables axioms → AllByRecursion (IsPrintableJoin table) joins }
    ensures few { (equations : List Equation) → AreNumbered equations → AreSmall equations → HaveFewVariables equations }
{}

/// An order that extends one of the problem's own symbols gives terms over these the normal forms that the own order gives them, where
/// the facts of the one decide what follows from the encoded axioms, and those of the other what follows from the problem's own: the
/// encoding's symbols change nothing. So a reply to a question of such terms that is right of the encoded axioms is right of the
/// problem's own axioms, by the own order.
pub fn own_forms_agree<O: Order, P: Order>(order: &O, own: &P)
    ensures forms { (table : Table) (problem : Problem) (encoded : Encoded) (facts own_facts : List Equation) (u n k : Tree) → Extends (O.meaning order.now) (P.meaning own.now) → IsOwnOrder problem (P.meaning own.now) → Encodes table problem (Ok encoded) → Decides (O.meaning order.now) facts encoded.axioms → Decides (P.meaning own.now) own_facts (axioms_of problem.clauses) → IsGroundOf (P.meaning own.now) u → HasNormalForm (O.meaning order.now) facts u n → HasNormalForm (P.meaning own.now) own_facts u k → n ≡ k }
    ensures replies { (table : Table) (problem : Problem) (encoded : Encoded) (s t : Tree) (reply : Reply) → Extends (O.meaning order.now) (P.meaning own.now) → IsOwnOrder problem (P.meaning own.now) → Encodes table problem (Ok encoded) → IsGroundOf (P.meaning own.now) s → IsGroundOf (P.meaning own.now) t → IsRight (O.meaning order.now) encoded.axioms s t reply → IsRight (P.meaning own.now) (axioms_of problem.clauses) s t reply }
{}
