//! Laws over the definitions, each the contract of a function that does nothing.

ghost use Rattle.std.specs.Prelude.{◌≡◌, ◌<◌, ℕ, List, Option, Some, None, length, slice_get, true};
ghost use Rattle.uc_term.specs.declared.fresh.Fresh.{Fresh};
ghost use Rattle.uc_term.specs.Conversion.{Conv, SomeFollows};
ghost use Rattle.uc_clause.specs.declared.clause.Sourced.{Sourced};
ghost use Rattle.uc_check.specs.declared.proof.Line.{Line};
ghost use Rattle.uc_check.specs.declared.proof.LineSource.{LineSource};
ghost use Rattle.uc_check.specs.declared.checker.Cause.{Cause};
ghost use Rattle.uc_check.specs.declared.checker.Checked.{Checked};
ghost use Rattle.uc_check.specs.Clauses.{axioms_of, goals_of, premises_of, AreFresh, HasGoalIfEncoded};
ghost use Rattle.uc_check.specs.Replacements.{IsRefutation};
ghost use Rattle.uc_check.specs.Lines.{Tested};
ghost use Rattle.uc_check.specs.Checks.{AreRightBefore, FirstFailure, EndsInRefutation, IsChecked};

/// The tests of a line have one outcome, a proof has one first failure, and the checker one answer. So each contract that
/// names them says exactly where each answer comes.
pub fn one_answer()
    ensures outcome { (clauses : List Sourced) (fresh : Option Fresh) (lines : List Line) (k : ℕ) (line : Line) (source : LineSource) (a b : Option Cause) → Tested clauses fresh lines k line source a → Tested clauses fresh lines k line source b → a ≡ b }
    ensures failure { (clauses : List Sourced) (fresh : Option Fresh) (lines : List Line) (a b : Option (ℕ × Cause)) → FirstFailure clauses fresh lines a → FirstFailure clauses fresh lines b → a ≡ b }
    ensures answer { (clauses : List Sourced) (fresh : Option Fresh) (lines : List Line) (a b : Checked) → IsChecked clauses fresh lines a → IsChecked clauses fresh lines b → a ≡ b }
{}

/// Where all lines before line `n` are right, the equation of each of them that is positive and no refutation is a conversion
/// by the premises.
pub fn lines_follow()
    ensures { (clauses : List Sourced) (fresh : Option Fresh) (lines : List Line) (n : ℕ) → AreRightBefore clauses fresh lines n → (k : ℕ) (line : Line) → k < n → slice_get lines k ≡ Some line → line.positive ≡ true → (IsRefutation line.source → ⊥) → Conv (premises_of fresh clauses) line.left line.right }
{}

/// Where all lines are right and the last one is a refutation, one of the goals follows from the axioms. Under an encoding
/// there has to be a goal, since the axiom that all terms are equal makes `true` and `false` equal too.
pub fn refutation_follows()
    ensures { (clauses : List Sourced) (fresh : Option Fresh) (lines : List Line) → AreFresh fresh clauses → HasGoalIfEncoded fresh clauses → AreRightBefore clauses fresh lines (length lines) → EndsInRefutation lines → SomeFollows (axioms_of clauses) (goals_of clauses) }
{}
