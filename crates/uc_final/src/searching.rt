//! The first overlap that is too large, and the first goal that is stuck.

ghost use Rattle.std.specs.Prelude.{◌≡◌, ◌<◌, ◌^◌, length};
ghost use Rattle.uc_machine.specs.Finals.{first_large, large_or, is_stuck};
ghost use Rattle.uc_final.specs.Stages.{first_stuck_stage};

use uc_fact::Overlap;
use uc_machine::Stage;
use uc_pair::{Formed, Size};

/// The first overlap that is too large.
pub fn first_large(overlaps: &[Formed]) -> Option<Overlap>
    ensures { result ≡ first_large overlaps.now }
{
    for formed in overlaps {
        if let Some(overlap) = if_large(*formed) {
            return Some(overlap);
        }
    }
    None
}

/// The overlap, where it is too large.
#[inline]
fn if_large(formed: Formed) -> Option<Overlap>
    ensures { result ≡ large_or formed.size formed.overlap None }
{
    match formed.size {
        Size::Large => Some(formed.overlap),
        Size::Weight(_) | Size::Same => None,
    }
}

/// The number of the first state that is `Stuck`.
pub fn first_stuck(stages: &[Stage]) -> Option<u32>
    requires { length stages.now < 2 ^ 31 }
    ensures { result ≡ first_stuck_stage stages.now }
{
    for k in 0..stages.len() {
        if is_stuck(stages[k]) {
            return Some(k as u32);
        }
    }
    None
}

#[inline]
fn is_stuck(stage: Stage) -> bool
    ensures { result ≡ is_stuck stage }
{
    matches!(stage, Stage::Stuck)
}
