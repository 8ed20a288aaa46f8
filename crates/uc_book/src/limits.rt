//! The exact limits past which a book answers want of memory. Each is a bound of a number's type, and so many things need more
//! memory than a book may have.

ghost use Rattle.std.specs.Prelude.{◌≡◌, ◌-◌, ◌<◌, ◌≤◌, ◌^◌, length, IfOk, OnOk, OnErr};

use std::alloc::AllocError;
use uc_shelf::Front;

/// The most axioms, and the most goals, that a book may have.
const MAX_COUNT: usize = i32::MAX as usize;

/// The most entries that a front may have.
const MAX_ENTRIES: u32 = 0x8000_0000;

/// The most tasks that may be out.
const MAX_TASKS: usize = u32::MAX as usize - 1;

/// Refuses exactly more axioms or goals than a book may have.
pub(crate) fn check_count(count: usize) -> Result<(), AllocError>
    ensures few { OnOk result (count < 2 ^ 31) }
    ensures refused { OnErr result (2 ^ 31 ≤ count) }
{
    if count > MAX_COUNT {
        return Err(AllocError);
    }
    Ok(())
}

/// Refuses an entry more exactly where a front has the most.
pub(crate) fn check_entries(front: &Front) -> Result<(), AllocError>
    ensures few { OnOk result (length front.now.entries < 2 ^ 31) }
    ensures refused { OnErr result (2 ^ 31 ≤ length front.now.entries) }
{
    if front.len() >= MAX_ENTRIES {
        return Err(AllocError);
    }
    Ok(())
}

/// Refuses a task more exactly where the most are out.
pub(crate) fn check_tasks(out: usize) -> Result<(), AllocError>
    ensures few { OnOk result (out < 2 ^ 32 - 2) }
    ensures refused { OnErr result (2 ^ 32 - 2 ≤ out) }
{
    if out >= MAX_TASKS {
        return Err(AllocError);
    }
    Ok(())
}

/// Returns a count as a number of 32 bits, and refuses exactly what is none.
pub(crate) fn count_of(count: usize) -> Result<u32, AllocError>
    ensures value { IfOk result (λ n. n ≡ count) }
    ensures refused { OnErr result (2 ^ 32 ≤ count) }
{
    match u32::try_from(count) {
        Ok(count) => Ok(count),
        Err(_) => Err(AllocError),
    }
}
