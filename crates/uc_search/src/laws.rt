//! What holds of every search by one worker, each the contract of a function that does nothing.

ghost use Rattle.std.specs.Prelude.{◌≡◌, ◌<◌, ◌≤◌, ◌+◌, ℕ, [], Some};
ghost use Rattle.uc_machine.specs.declared.event.Verdict.{Verdict as AnyVerdict};
ghost use Rattle.uc_machine.specs.State.{Opening, State};
ghost use Rattle.uc_machine.specs.Runs.{Reaches};
ghost use Rattle.uc_runs.specs.Causes.{CausesIfLimit};
ghost use Rattle.uc_search.specs.Searching.{IsSearched};
ghost use Rattle.uc_search.specs.Bounds.{rounds_in, passes_in, IsBounded};

use uc_order::Order;

/// A search is a run of the machine, with its verdict at the end and no task out.
pub fn search_is_a_run<O: Order>(order: &O)
    ensures run { (o : Opening) (w : ℕ) (v : AnyVerdict) (s : State) → w < 65 → IsSearched (O.meaning order.now) o w v s → Reaches (O.meaning order.now) o s }
    ensures verdict { (o : Opening) (w : ℕ) (v : AnyVerdict) (s : State) → IsSearched (O.meaning order.now) o w v s → s.verdict ≡ Some v }
    ensures none_out { (o : Opening) (w : ℕ) (v : AnyVerdict) (s : State) → IsSearched (O.meaning order.now) o w v s → s.out ≡ [] }
{}

/// With one opening, one order and one worker there is one search: one verdict, and one state with one history.
pub fn one_search<O: Order>(order: &O)
    ensures { (o : Opening) (w : ℕ) (a b : AnyVerdict) (s t : State) → IsSearched (O.meaning order.now) o w a s → IsSearched (O.meaning order.now) o w b t → (a ≡ b) × (s ≡ t) }
{}

/// A search that ends at a limit has its cause.
pub fn limits_have_causes<O: Order>(order: &O)
    ensures { (o : Opening) (w : ℕ) (v : AnyVerdict) (s : State) → w < 65 → IsSearched (O.meaning order.now) o w v s → CausesIfLimit (O.meaning order.now) o s v }
{}

/// A search draws few tasks and keeps few audits for its budget, and makes at most one round more than it keeps audits: so at
/// most one final pass more than its budget has units.
pub fn searches_are_bounded<O: Order>(order: &O)
    ensures bounded { (o : Opening) (w : ℕ) (v : AnyVerdict) (s : State) → w < 65 → IsSearched (O.meaning order.now) o w v s → IsBounded o s }
    ensures rounds { (o : Opening) (w : ℕ) (v : AnyVerdict) (s : State) → w < 65 → (search : IsSearched (O.meaning order.now) o w v s) → rounds_in search.searches ≤ o.budget + 1 }
    ensures passes { (o : Opening) (w : ℕ) (v : AnyVerdict) (s : State) → w < 65 → (search : IsSearched (O.meaning order.now) o w v s) → passes_in search.searches ≤ o.budget + 1 }
{}
