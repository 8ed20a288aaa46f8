//! Laws over the definitions, each the contract of a function that does nothing.

ghost use Rattle.std.specs.Prelude.{List, ◌↔◌};
ghost use Rattle.uc_term.specs.Tree.{Tree};
ghost use Rattle.uc_term.specs.declared.equation.Equation.{Equation};
ghost use Rattle.uc_term.specs.declared.fresh.Fresh.{Fresh};
ghost use Rattle.uc_term.specs.Conversion.{Conv, SomeFollows};
ghost use Rattle.uc_term.specs.Encoding.{AreDistinct, LackAll, Lacks, HasGoal, encoded, yes_term, no_term};

/// The encoding makes `true` and `false` equal exactly if one of the goals follows. There has to be a goal, since the axiom
/// that all terms are equal makes them equal too.
pub fn encoding_decides_goals()
    ensures { (fresh : Fresh) (axioms goals : List Equation) → AreDistinct fresh → LackAll fresh axioms → LackAll fresh goals → HasGoal goals → Conv (encoded fresh axioms goals) (yes_term fresh) (no_term fresh) ↔ SomeFollows axioms goals }
{}

/// The encoding makes no terms equal that have none of its symbols and weren't equal before.
pub fn encoding_adds_nothing()
    ensures { (fresh : Fresh) (axioms goals : List Equation) → AreDistinct fresh → LackAll fresh axioms → LackAll fresh goals → (u v : Tree) → Lacks fresh u → Lacks fresh v → Conv (encoded fresh axioms goals) u v ↔ Conv axioms u v }
{}
