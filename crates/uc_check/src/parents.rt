//! What the tests ask of the parents of a line.

ghost use Rattle.std.specs.Prelude.{◌≡◌, ◌↔◌, ◌∷◌, [], ℕ, IsTrue, MatchOption, slice_get};
ghost use Rattle.uc_term.specs.Tree.{app, none};
ghost use Rattle.uc_check.specs.declared.proof.Line.{Line};
ghost use Rattle.uc_check.specs.Lines.{AreEarlier, IsDenial, IsDerived, is_open};

use crate::{Line, LineSource};
use uc_term::{Node, Sym, Term, same_nodes};

/// Whether each parent is earlier than the line of this number.
pub(crate) fn are_earlier(number: usize, parents: &[u32]) -> bool
    ensures { IsTrue result ↔ AreEarlier number parents.now }
{
    for parent in parents {
        if *parent as usize >= number {
            return false;
        }
    }
    true
}

/// The line that is the one parent.
pub(crate) fn only_parent<'a>(lines: &'a [Line], parents: &[u32]) -> Option<&'a Line>
    ensures { MatchOption result ((p : ℕ) (line : Line) → parents.now ≡ p ∷ [] → slice_get lines.now p ≡ Some line → ⊥) (λ line. (p : ℕ) × (parents.now ≡ p ∷ []) × (slice_get lines.now p ≡ Some line.now)) }
{
    if parents.len() == 1 {
        lines.get(parents[0] as usize)
    } else {
        None
    }
}

/// Whether the line is a file line that denies its equation.
pub(crate) fn is_denial(line: &Line) -> bool
    ensures { IsTrue result ↔ IsDenial line.now }
{
    match line.source {
        LineSource::File(_) => !line.positive,
        LineSource::Chain { .. } => false,
        LineSource::Reflexive { .. } => false,
        LineSource::EncodeGoal { .. } => false,
        LineSource::Refute { .. } => false,
    }
}

/// Whether the line is a chain line, of an equation.
pub(crate) fn is_derived(line: &Line) -> bool
    ensures { IsTrue result ↔ IsDerived line.now }
{
    match line.source {
        LineSource::File(_) => false,
        LineSource::Chain { .. } => line.positive,
        LineSource::Reflexive { .. } => false,
        LineSource::EncodeGoal { .. } => false,
        LineSource::Refute { .. } => false,
    }
}

/// Whether some variable occurs in the line's sides.
pub(crate) fn is_open(line: &Line) -> bool
    ensures { result ≡ is_open line.now }
{
    !line.left.is_ground() || !line.right.is_ground()
}

/// Whether the term is this constant.
pub(crate) fn is_constant(term: &Term, sym: Sym) -> bool
    ensures { IsTrue result ↔ (term.now ≡ app sym none) }
{
    same_nodes(term.as_nodes(), &[Node::App(sym, 0)])
}
