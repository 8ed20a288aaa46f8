//! Laws over the definitions, the contract of a function that does nothing.

ghost use Rattle.std.specs.Prelude.{◌≡◌, ◌↔◌, ℕ, List, Option, Some, Ok, Err, slice_get};
ghost use Rattle.uc_term.specs.Table.{Table, IsDistinct};
ghost use Rattle.uc_term.specs.Gathering.{HasAll};
ghost use Rattle.uc_term.specs.Tree.{Tree};
ghost use Rattle.uc_term.specs.Conversion.{Conv, SomeFollows};
ghost use Rattle.uc_term.specs.Encoding.{Lacks, yes_term, no_term};
ghost use Rattle.uc_term.specs.declared.fresh.Fresh.{Fresh};
ghost use Rattle.uc_edge.specs.Files.{Files};
ghost use Rattle.uc_clause.specs.declared.clause.Sourced.{Sourced};
ghost use Rattle.uc_problem.specs.declared.flat.FlatClause.{FlatClause};
ghost use Rattle.uc_problem.specs.declared.fault.EncodeFault.TheVariants.{GoalTooLarge};
ghost use Rattle.uc_problem.specs.declared.fault.LoadFault.{LoadFault};
ghost use Rattle.uc_problem.specs.declared.problem.Problem.{Problem};
ghost use Rattle.uc_check.specs.Clauses.{axioms_of};
ghost use Rattle.uc_problem.specs.declared.problem.Encoded.{Encoded};
ghost use Rattle.uc_problem.specs.Holds.{Holds, Refuses, Agrees};
ghost use Rattle.uc_problem.specs.Marks.{Marks, is_open_goal};
ghost use Rattle.uc_problem.specs.Filling.{IsFilled, AddsMarks};
ghost use Rattle.uc_problem.specs.Refusing.{IsRefused};
ghost use Rattle.uc_problem.specs.Encodes.{Encodes, equations_where};

/// In a table whose entries are all different, the files of a library hold at most one problem under a name, or refuse it for
/// one reason, and never both. So where `load` names what the library holds it says exactly where each answer comes. A problem
/// is encoded by one choice of symbols and in one way, or one goal is the first that is too large, and never both. What the
/// files, a conjecture's constants and the least constant make of a table of symbols is one such table, with one problem, or
/// the files are refused for one reason, and never both; and what the encoding's symbols make of that table is one.
pub fn one_problem()
    ensures problem { (table : Table) (files : Files) (root : Option (List ℕ)) (name : List ℕ) (a b : Problem) → IsDistinct table → Holds table files root name a → Holds table files root name b → a ≡ b }
    ensures refusal { (table : Table) (files : Files) (root : Option (List ℕ)) (name : List ℕ) (a b : LoadFault) → IsDistinct table → Refuses table files root name a → Refuses table files root name b → a ≡ b }
    ensures never_both { (table : Table) (files : Files) (root : Option (List ℕ)) (name : List ℕ) (held : Problem) (why : LoadFault) → IsDistinct table → Holds table files root name held → Refuses table files root name why → ⊥ }
    ensures marks { (table : Table) (problem : Problem) (a b : Option Fresh) → IsDistinct table → Marks table problem (Ok a) → Marks table problem (Ok b) → a ≡ b }
    ensures too_large { (table : Table) (problem : Problem) (a b : ℕ) → Marks table problem (Err (GoalTooLarge a)) → Marks table problem (Err (GoalTooLarge b)) → a ≡ b }
    ensures marked_or_not { (table : Table) (problem : Problem) (marks : Option Fresh) (number : ℕ) → Marks table problem (Ok marks) → Marks table problem (Err (GoalTooLarge number)) → ⊥ }
    ensures encoding { (table : Table) (problem : Problem) (a b : Encoded) → IsDistinct table → Encodes table problem (Ok a) → Encodes table problem (Ok b) → a ≡ b }
    ensures filled { (files : Files) (root : Option (List ℕ)) (name : List ℕ) (old new other : Table) (a b : Problem) → IsDistinct new → IsDistinct other → IsFilled files root name old new a → IsFilled files root name old other b → (new ≡ other) × (a ≡ b) }
    ensures refused { (files : Files) (root : Option (List ℕ)) (name : List ℕ) (old : Table) (a b : LoadFault) → IsRefused files root name old a → IsRefused files root name old b → a ≡ b }
    ensures filled_or_refused { (files : Files) (root : Option (List ℕ)) (name : List ℕ) (old new : Table) (a : Problem) (why : LoadFault) → IsFilled files root name old new a → IsRefused files root name old why → ⊥ }
    ensures marked_table { (problem : Problem) (old new other : Table) (fresh again : Option Fresh) → IsDistinct new → IsDistinct other → HasAll old problem.signature.symbols → AddsMarks old new fresh → AddsMarks old other again → Marks new problem (Ok fresh) → Marks other problem (Ok again) → new ≡ other }
{}

/// The encoded axioms make `true` and `false` equal exactly if one of the problem's goals with a variable follows from its axioms,
/// and make no terms equal that have none of the encoding's symbols and weren't equal by the problem's axioms.
pub fn encoding_is_sound()
    ensures decides { (table : Table) (problem : Problem) (encoded : Encoded) (marks : Fresh) → Agrees table problem → Encodes table problem (Ok encoded) → encoded.fresh ≡ Some marks → Conv encoded.axioms (yes_term marks) (no_term marks) ↔ SomeFollows (axioms_of problem.clauses) (equations_where is_open_goal problem.clauses) }
    ensures adds_nothing { (table : Table) (problem : Problem) (encoded : Encoded) (marks : Fresh) → Agrees table problem → Encodes table problem (Ok encoded) → encoded.fresh ≡ Some marks → (u v : Tree) → Lacks marks u → Lacks marks v → Conv encoded.axioms u v ↔ Conv (axioms_of problem.clauses) u v }
{}

/// Of a problem with a conjecture: the goal that denies it follows from the axioms exactly where the conjecture does, since fresh
/// constants stand for variables.
pub fn goal_stands_for_conjecture()
    ensures { (table : Table) (files : Files) (root : Option (List ℕ)) (name : List ℕ) (problem : Problem) (holds : Holds table files root name problem) (number : ℕ) (flat : FlatClause) (goal : Sourced) → problem.conjecture ≡ Some number → slice_get holds.gives.flats number ≡ Some flat → slice_get problem.clauses number ≡ Some goal → Conv (axioms_of problem.clauses) flat.clause.left flat.clause.right ↔ Conv (axioms_of problem.clauses) goal.clause.left goal.clause.right }
{}
