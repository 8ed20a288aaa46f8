//! The numbers of the workers.

ghost use Rattle.std.specs.Prelude.{◌≡◌, replicate, IfOk};
ghost use Rattle.uc_machine.specs.Lists.{change};
ghost use Rattle.uc_machine.specs.Effects.{one_drawn, one_commit, one_reclaim};
ghost use Rattle.uc_rows.specs.Bounds.{AreSmall};

use std::alloc::{AllocError, Global};
use uc_machine::Numbers;

/// The workers' numbers are below this one.
pub const WORKERS: u32 = 65;

/// The numbers of all workers at the start.
pub fn no_numbers(alloc: Global) -> Result<Vec<Numbers>, AllocError>
    ensures { IfOk result (λ v. v.items ≡ replicate 65 (record { drawn = 0; commits = 0; reclaims = 0 })) }
{
    vec![in alloc; Numbers {
        drawn: 0,
        commits: 0,
        reclaims: 0
    }; WORKERS as usize]
}

/// The worker drew one task more.
pub fn count_draw(numbers: &mut Vec<Numbers>, worker: u32)
    requires { AreSmall numbers.old.items }
    ensures { numbers.new.items ≡ change one_drawn numbers.old.items worker }
{
    if (worker as usize) < numbers.len() {
        numbers[worker as usize].drawn += 1;
    }
}

/// The worker made one commit more.
pub fn count_commit(numbers: &mut Vec<Numbers>, worker: u32)
    requires { AreSmall numbers.old.items }
    ensures { numbers.new.items ≡ change one_commit numbers.old.items worker }
{
    if (worker as usize) < numbers.len() {
        numbers[worker as usize].commits += 1;
    }
}

/// One more of the worker's tasks was put back.
pub fn count_reclaim(numbers: &mut Vec<Numbers>, worker: u32)
    requires { AreSmall numbers.old.items }
    ensures { numbers.new.items ≡ change one_reclaim numbers.old.items worker }
{
    if (worker as usize) < numbers.len() {
        numbers[worker as usize].reclaims += 1;
    }
}
