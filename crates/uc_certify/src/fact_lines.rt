//! The lines that derive the facts.

ghost use Rattle.std.specs.Prelude.{◌≡◌, ◌<◌, ◌^◌, ◌↔◌, IsTrue, MatchOption, length};
ghost use Rattle.uc_check.specs.Lines.{IsDerived};
ghost use Rattle.uc_certify.specs.Certifying.{IsDerivedFact, AreDerivedBefore, IsFirstUnderived};

use uc_check::{Line, LineSource};
use uc_fact::Equation;

/// The first fact whose line isn't a chain line of the fact's equation, sides in order. None where there is none such.
pub(crate) fn first_underived(numbers: &[u32], lines: &[Line], facts: &[Equation]) -> Option<u32>
    requires { length facts.now < 2 ^ 32 }
    ensures { MatchOption result (AreDerivedBefore numbers.now lines.now facts.now (length facts.now)) (λ k. IsFirstUnderived numbers.now lines.now facts.now k) }
{
    for (k, fact) in facts.iter().enumerate() {
        if !is_derived_fact(numbers, lines, k, fact) {
            return Some(k as u32);
        }
    }
    None
}

/// Whether the line that is named for a fact is a chain line of its equation.
fn is_derived_fact(numbers: &[u32], lines: &[Line], k: usize, fact: &Equation) -> bool
    ensures { IsTrue result ↔ IsDerivedFact numbers.now lines.now k fact.now }
{
    let Some(number) = numbers.get(k) else {
        return false;
    };
    let Some(line) = lines.get(*number as usize) else {
        return false;
    };
    is_derived(line) && line.left.same(&fact.left) && line.right.same(&fact.right)
}

/// Whether the line is a chain line, of an equation.
fn is_derived(line: &Line) -> bool
    ensures { IsTrue result ↔ IsDerived line.now }
{
    match line.source {
        LineSource::File(_) => false,
        LineSource::Chain { .. } => line.positive,
        LineSource::Reflexive { .. } => false,
        LineSource::EncodeGoal { .. } => false,
        LineSource::Refute { .. } => false,
    }
}
