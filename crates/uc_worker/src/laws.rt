//! What holds of every search, each the contract of a function that does nothing.

ghost use Rattle.std.specs.Prelude.{◌<◌, ℕ};
ghost use Rattle.uc_machine.specs.declared.event.Verdict.{Verdict as AnyVerdict};
ghost use Rattle.uc_machine.specs.State.{Opening, State};
ghost use Rattle.uc_search.specs.Searching.{IsSearched};
ghost use Rattle.uc_worker.specs.Ends.{HasEnded};

use uc_order::Order;

/// A search by one worker ends as one by several does: what is known of these is known of it.
pub fn one_worker_ends<O: Order>(order: &O)
    ensures { (o : Opening) (w : ℕ) (v : AnyVerdict) (s : State) → w < 65 → IsSearched (O.meaning order.now) o w v s → HasEnded (O.meaning order.now) o s }
{}
