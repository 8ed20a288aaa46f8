//! What every run of the machine keeps, each the contract of a function that does nothing.

ghost use Rattle.std.specs.Prelude.{ℕ, ◌≡◌};
ghost use Rattle.uc_fact.specs.declared.fact.Fact.{Fact as AnyFact};
ghost use Rattle.uc_machine.specs.declared.event.Verdict.{Verdict as AnyVerdict};
ghost use Rattle.uc_machine.specs.declared.task.Finding.{Finding as AnyFinding};
ghost use Rattle.uc_machine.specs.declared.task.Outcome.{Outcome as AnyOutcome};
ghost use Rattle.uc_machine.specs.State.{Opening, State, Out};
ghost use Rattle.uc_machine.specs.Effects.{reclaims, recalls};
ghost use Rattle.uc_machine.specs.Draws.{Reply, Draws};
ghost use Rattle.uc_machine.specs.Commits.{Commits};
ghost use Rattle.uc_machine.specs.Runs.{Reaches, Starts, AuditReply, Audits, Closes};
ghost use Rattle.uc_machine.specs.Promises.{Grew, FrontsArePrefixes, TicketsDiffer, OneState, EndsPairsOnce, CountsUnits, CountsWorkers, DiesOnce};

use uc_order::Order;

/// Entries only grow, whatever call is made.
pub fn entries_grow()
    ensures draw { (o : Opening) (w : ℕ) (s : State) (r : Reply) (u : State) → Draws o w s r u → Grew s.entries u.entries }
    ensures commit { (o : Opening) (t : Out) (f : AnyFinding) (s u : State) → Commits o t f s u → Grew s.entries u.entries }
    ensures reclaim { (t : Out) (s : State) → Grew s.entries ((reclaims t s).entries) }
    ensures recall { (s : State) → Grew s.entries ((recalls s).entries) }
    ensures audit { (o : Opening) (f : AnyFact) (s u : State) (answer : AuditReply) → Audits o f s answer u → Grew s.entries u.entries }
    ensures close { (s u : State) (outcome : AnyOutcome) (v : AnyVerdict) → Closes s outcome v u → Grew s.entries u.entries }
{}

/// The front of each task out names a prefix of the entries.
pub fn fronts_are_prefixes<O: Order>(order: &O)
    ensures { (o : Opening) (s : State) → Reaches (O.meaning order.now) o s → FrontsArePrefixes s }
{}

/// Tickets differ, and each ticket out belongs to the one worker that drew it.
pub fn tickets_differ<O: Order>(order: &O)
    ensures { (o : Opening) (s : State) → Reaches (O.meaning order.now) o s → TicketsDiffer s }
{}

/// Each overlap of two facts is in exactly one state, and the queue holds exactly the pairs that wait.
pub fn one_state<O: Order>(order: &O)
    ensures { (o : Opening) (s : State) → Reaches (O.meaning order.now) o s → OneState s }
{}

/// Each pair is ended by at most one commit, late ones too, and so is in at most one counted unit.
pub fn ends_pairs_once<O: Order>(order: &O)
    ensures { (o : Opening) (s : State) → Reaches (O.meaning order.now) o s → EndsPairsOnce s }
{}

/// `counted` is the number of counted units in the history, `reserved` the number of Joins and Mores out, and their sum is at
/// most the budget.
pub fn counts_units<O: Order>(order: &O)
    ensures { (o : Opening) (s : State) → Reaches (O.meaning order.now) o s → CountsUnits o s }
{}

/// The numbers of each worker are those of its events, and its tasks out are those drawn less those committed or put back.
pub fn counts_workers<O: Order>(order: &O)
    ensures { (o : Opening) (s : State) → Reaches (O.meaning order.now) o s → CountsWorkers s }
{}

/// A fact is dead exactly if a Dies entry names it, at most one does, and that one stands behind its birth.
pub fn dies_once<O: Order>(order: &O)
    ensures { (o : Opening) (s : State) → Reaches (O.meaning order.now) o s → DiesOnce s }
{}

/// From one state a draw by a worker has one answer, and leaves one state.
pub fn one_draw()
    ensures { (o : Opening) (w : ℕ) (s : State) (a b : Reply) (u v : State) → Draws o w s a u → Draws o w s b v → (a ≡ b) × (u ≡ v) }
{}

/// From one state the commit of a result leaves one state.
pub fn one_commit()
    ensures { (o : Opening) (t : Out) (f : AnyFinding) (s u v : State) → Commits o t f s u → Commits o t f s v → u ≡ v }
{}

/// From one state an audit and a close have one answer, and leave one state; and a book starts in one state.
pub fn one_end()
    ensures audit { (o : Opening) (f : AnyFact) (s : State) (a b : AuditReply) (u v : State) → Audits o f s a u → Audits o f s b v → (a ≡ b) × (u ≡ v) }
    ensures close { (s : State) (outcome : AnyOutcome) (a b : AnyVerdict) (u v : State) → Closes s outcome a u → Closes s outcome b v → (a ≡ b) × (u ≡ v) }
    ensures start { (o : Opening) (u v : State) → Starts o u → Starts o v → u ≡ v }
{}
