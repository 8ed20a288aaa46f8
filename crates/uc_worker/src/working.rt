//! What each worker does.

ghost use Rattle.std.specs.Prelude.{◌≡◌, ◌≤◌, Some};
ghost use Rattle.uc_book.specs.Openings.{opening_of};
ghost use Rattle.uc_search.specs.Working.{IsToCompute};
ghost use Rattle.uc_worker.specs.Works.{EndsWork};

use crate::held::{Hand, Held};
use crate::naming::NamesOrder;
use std::alloc::{AllocError, Global};
use std::sync::ledger::Ledger;
use std::sync::{Condvar, Mutex, Wait};
use uc_bank::Bank;
use uc_book::{CommitFault, Drawn, Task};
use uc_edge::Gate;
use uc_order::Order;
use uc_problem::Encoded;
use uc_search::{Ended, compute_in};
use uc_shelf::Shelf;

/// Draws task after task under the lock, computes each with no lock and commits its result under the lock. Where a task is out
/// and none may be drawn, it waits. It ends where a draw is answered so, or for want of memory, in which case its task waits again
/// and it wakes the others.
pub fn work<'a, O: Order, K: NamesOrder<O>, C: Ledger, G: Gate, R: Wait>(
    rt: &R,
    alloc: Global,
    held: &Mutex<Held<'a, O, K, C>>,
    ready: &Condvar,
    shelf: &Shelf,
    problem: &Encoded,
    order: &O,
    hand: &mut Hand<K>,
    gate: &G,
) -> Ended
    requires problem { problem.now ≡ K.opening.problem }
    requires shelf { shelf.now ≡ K.opening.shelf }
    requires order { Some order.now ≡ K.order }
    ensures ended { EndsWork (O.meaning order.now) (opening_of K.opening) hand.old.worker result }
    ensures worker { hand.new.worker ≡ hand.old.worker }
    ensures commits { hand.old.commits ≤ hand.new.commits }
{
    let mut bank = Bank::new(alloc, shelf, order);
    for _ in rt.forever() {
        let mut guard = held.lock(rt);
        match guard.draw(alloc, hand) {
            Ok(Drawn::Task(task)) => {
                drop(guard);
                gate.pass(hand.worker(), task.ticket);
                let ended = finish(rt, alloc, held, &mut bank, problem, hand, &task);
                if ended.is_err() {
                    let _ = held.lock(rt).reclaim(hand, task.ticket);
                    ready.notify_all();
                    return Ended::NoMemory;
                }
                ready.notify_all();
            }
            Ok(Drawn::Idle(_)) => drop(ready.wait(rt, guard)),
            Ok(Drawn::Drained) => {
                drop(guard);
                ready.notify_all();
                return Ended::Drained;
            }
            Ok(Drawn::Closed(_)) => {
                drop(guard);
                ready.notify_all();
                return Ended::Closed;
            }
            Err(_) => {
                drop(guard);
                ready.notify_all();
                return Ended::NoMemory;
            }
        }
    }
    unreachable!()
}

/// Computes a task with no lock, and commits its result under the lock. Where the task is no longer out, the result is dropped.
fn finish<'a, O: Order, K: NamesOrder<O>, C: Ledger, R: Wait>(
    rt: &R,
    alloc: Global,
    held: &Mutex<Held<'a, O, K, C>>,
    bank: &mut Bank<O>,
    problem: &Encoded,
    hand: &mut Hand<K>,
    task: &Task,
) -> Result<(), AllocError>
    requires problem { problem.now ≡ K.opening.problem }
    requires shelf { bank.old.shelf ≡ K.opening.shelf }
    requires order { Some bank.old.order ≡ K.order }
    requires task { IsToCompute (O.meaning bank.old.order) K.opening task.now }
    ensures bank { bank.new ≡ bank.old }
    ensures worker { hand.new.worker ≡ hand.old.worker }
    ensures commits { hand.old.commits ≤ hand.new.commits }
{
    let done = compute_in(alloc, bank, task, problem)?;
    match held.lock(rt).commit(rt, alloc, hand, done) {
        Ok(_) => Ok(()),
        Err((_, CommitFault::NotOut(_))) => Ok(()),
        Err((_, CommitFault::NoMemory)) => Err(AllocError),
    }
}
