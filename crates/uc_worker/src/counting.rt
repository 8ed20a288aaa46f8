//! The shares of the workers.

ghost use Rattle.std.specs.Prelude.{◌≡◌, ◌<◌, ◌^◌, sum, length, IfOk, IsTrue};
ghost use Rattle.uc_machine.specs.Events.{commits_by, is_commit_what};
ghost use Rattle.uc_worker.specs.Commits.{commits_of, shares_of, AreOfFirst};

use std::alloc::{AllocError, Global};
use uc_machine::{Event, Happening};

/// Returns how many commits each of the first so many workers has in a history, from worker 0 on. Where no other worker has one,
/// these sum to all of its commits.
pub fn shares(alloc: Global, history: &[Event], workers: u32) -> Result<Vec<u64>, AllocError>
    ensures shares { IfOk result (λ v. v.items ≡ shares_of workers history.now) }
    ensures sum { IfOk result (λ v. AreOfFirst workers history.now → sum v.items ≡ commits_of history.now) }
{
    let mut all = Vec::new(alloc);
    for worker in 0..workers {
        all.push(share(history, worker))?;
    }
    Ok(all)
}

/// How many commits a worker has in a history.
fn share(history: &[Event], worker: u32) -> u64
    ensures { result ≡ commits_by worker history.now }
{
    history
        .iter()
        .filter(|event| is_commit(&event.what) && event.worker == worker)
        .count() as u64
}

/// Whether a task's result was taken.
fn is_commit(what: &Happening) -> bool
    ensures { result ≡ is_commit_what what.now }
{
    match what {
        Happening::CommitGoal { .. } => true,
        Happening::CommitMore { .. } => true,
        Happening::CommitMeet { .. } => true,
        Happening::CommitJoined { .. } => true,
        Happening::CommitKept { .. } => true,
        Happening::CommitLate { .. } => true,
        _ => false,
    }
}
