//! Steps of a chain: replacements of equals by equals.

ghost use Rattle.std.specs.Prelude.{◌≡◌, ◌<◌, ◌↔◌, IsTrue, IfOk, length, true};
ghost use Rattle.uc_check.specs.Replacements.{IsRefutation, IsReplacement};

use crate::{Line, LineSource, LineStep};
use std::alloc::{AllocError, Global};
use uc_term::Term;
use uc_unify::replaces_at;

/// Whether the step replaces a subterm of the term before by the equation of the line that it names: the named way, at the
/// named position, and nothing else.
pub(crate) fn is_replacement(
    alloc: Global,
    lines: &[Line],
    before: &Term,
    step: &LineStep,
) -> Result<bool, AllocError>
    requires { step.now.by < length lines.now }
    ensures { IfOk result (λ fits. IsTrue fits ↔ IsReplacement lines.now before.now step.now) }
{
    let line = &lines[step.by as usize];
    if !is_equation(line) {
        return Ok(false);
    }
    match before.pos_of(step.path.as_slice()) {
        None => Ok(false),
        Some(pos) => {
            if step.left_to_right {
                replaces_at(alloc, &line.left, &line.right, before, pos, &step.to)
            } else {
                replaces_at(alloc, &line.right, &line.left, before, pos, &step.to)
            }
        }
    }
}

/// Whether the line says an equation: it is positive and no refutation.
fn is_equation(line: &Line) -> bool
    ensures { IsTrue result ↔ ((line.now.positive ≡ true) × (IsRefutation line.now.source → ⊥)) }
{
    line.positive && !is_refutation(&line.source)
}

/// Whether the source is a refutation.
pub(crate) fn is_refutation(source: &LineSource) -> bool
    ensures { IsTrue result ↔ IsRefutation source.now }
{
    match source {
        LineSource::File(_) => false,
        LineSource::Chain { .. } => false,
        LineSource::Reflexive { .. } => false,
        LineSource::EncodeGoal { .. } => false,
        LineSource::Refute { .. } => true,
    }
}
