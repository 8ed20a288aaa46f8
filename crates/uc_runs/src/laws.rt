//! What every run of the machine keeps, each the contract of a function that does nothing.

ghost use Rattle.std.specs.Prelude.{◌≡◌, ◌<◌, ◌≤◌, ℕ, List, Some, length};
ghost use Rattle.uc_term.specs.declared.equation.Equation.{Equation as AnyEquation};
ghost use Rattle.uc_order.specs.Laws.{HasSym};
ghost use Rattle.uc_fact.specs.declared.fact.Overlap.{Overlap as AnyOverlap};
ghost use Rattle.uc_fact.specs.Ground.{AreOfSignature};
ghost use Rattle.uc_fact.specs.Live.{equations_of};
ghost use Rattle.uc_shelf.specs.declared.entry.Entry.{Entry as AnyEntry};
ghost use Rattle.uc_shelf.specs.Entries.{born, live};
ghost use Rattle.uc_machine.specs.declared.event.Verdict.{Verdict as AnyVerdict};
ghost use Rattle.uc_machine.specs.declared.event.Verdict.TheVariants.{Proved, Saturated};
ghost use Rattle.uc_machine.specs.declared.task.Finding.{Finding as AnyFinding};
ghost use Rattle.uc_machine.specs.declared.task.Job.{Job as AnyJob};
ghost use Rattle.uc_machine.specs.declared.task.Outcome.{Outcome as AnyOutcome};
ghost use Rattle.uc_machine.specs.declared.task.Outcome.TheVariants.{Large};
ghost use Rattle.uc_machine.specs.State.{Opening, State};
ghost use Rattle.uc_machine.specs.Results.{IsResult};
ghost use Rattle.uc_machine.specs.Finals.{IsFinal};
ghost use Rattle.uc_machine.specs.Runs.{Reaches};
ghost use Rattle.uc_machine.specs.Promises.{FrontsAreEarlier, GoalsAtRest, ChainsReplay, MeetingsAreWhole, MoresGoOn};
ghost use Rattle.uc_machine.specs.Origins.{OriginsAreKnown};
ghost use Rattle.uc_decide.specs.Deciding.{AreAllApart};
ghost use Rattle.uc_runs.specs.Signatures.{OpensOver, IsOver, AreGroundEquations, EndsAreGround};
ghost use Rattle.uc_runs.specs.Saturated.{IsSaturated};
ghost use Rattle.uc_runs.specs.Written.{AreNumbered, AreSmall};
ghost use Rattle.uc_runs.specs.Proved.{IsProved};
ghost use Rattle.uc_runs.specs.Large.{IsLargeOverlap};
ghost use Rattle.uc_runs.specs.Further.{ContinuedGoFurther};
ghost use Rattle.uc_runs.specs.Later.{Continues, Later, IsRecorded};
ghost use Rattle.uc_runs.specs.Causes.{VerdictCame};

use uc_order::Order;

/// Each fact's chain replays from its left to its right side over the axioms and earlier facts, and each goal's chains replay
/// from its sides to its present ends.
pub fn chains_replay<O: Order>(order: &O)
    ensures { (o : Opening) (s : State) → Reaches (O.meaning order.now) o s → ChainsReplay o s }
{}

/// While no verdict stands, no meeting has lost an overlap: of two facts that live, the meeting of the later one being over, each
/// overlap has its pair.
pub fn meetings_are_whole<O: Order>(order: &O)
    ensures { (o : Opening) (s : State) → Reaches (O.meaning order.now) o s → MeetingsAreWhole (O.meaning order.now) s }
{}

/// A More is drawn only for a goal whose last commit made exactly 4,096 steps and stopped for them ([`continued_go_further`]).
pub fn mores_go_on<O: Order>(order: &O)
    ensures { (o : Opening) (s : State) → Reaches (O.meaning order.now) o s → MoresGoOn s }
{}

/// Each goal that is Continued, and each More that is out, has its ends by the commit of a task about it. That task was drawn over
/// its front, as its event says, and from one of the ends an ordered step is possible by the facts that live there.
pub fn continued_go_further<O: Order>(order: &O)
    ensures { (o : Opening) (s : State) → Reaches (O.meaning order.now) o s → ContinuedGoFurther (O.meaning order.now) o s }
{}

/// Each pair that isn't too large comes from an axiom of the problem, a fact that is born, or an overlap that is in the list of
/// its two facts and isn't too large.
pub fn origins_known<O: Order>(order: &O)
    ensures { (o : Opening) (s : State) → Reaches (O.meaning order.now) o s → OriginsAreKnown (O.meaning order.now) o s }
{}

/// Each kept fact's front names a prefix of the entries before its birth, and each side stands by its stop in that front: after
/// `Full` it has no ordered step by the facts that live there, else a step is possible, after `Size` one to a term that is too
/// large.
pub fn fronts_are_earlier<O: Order>(order: &O)
    ensures { (o : Opening) (s : State) → Reaches (O.meaning order.now) o s → FrontsAreEarlier (O.meaning order.now) s }
{}

/// A Settled goal's ends have no ordered step by the facts that live now, and a Stuck goal has an end whose next ordered step
/// by these facts leads to a term that is too large.
pub fn goals_at_rest<O: Order>(order: &O)
    ensures { (o : Opening) (s : State) → Reaches (O.meaning order.now) o s → GoalsAtRest (O.meaning order.now) s }
{}

/// The result of a task is a function of the task, the entries of its front, the axioms and the order.
pub fn one_result<O: Order>(order: &O)
    ensures { (axioms : List AnyEquation) (entries : List AnyEntry) (job : AnyJob) (a b : AnyFinding) → IsResult (O.meaning order.now) axioms entries job a → IsResult (O.meaning order.now) axioms entries job b → a ≡ b }
{}

/// What the final pass answers is a function of the axioms, the book's state and the order.
pub fn one_final<O: Order>(order: &O)
    ensures { (axioms : List AnyEquation) (s : State) (a b : AnyOutcome) → IsFinal (O.meaning order.now) axioms s a → IsFinal (O.meaning order.now) axioms s b → a ≡ b }
{}

/// The facts and the chains of every run are over the order's signature, where the axioms and the goals are.
pub fn stays_over_signature<O: Order>(order: &O)
    ensures { (o : Opening) (s : State) → OpensOver (O.meaning order.now) o → Reaches (O.meaning order.now) o s → IsOver (O.meaning order.now) s }
{}

/// So are the facts that live.
pub fn live_over_signature<O: Order>(order: &O)
    ensures { (o : Opening) (s : State) → OpensOver (O.meaning order.now) o → Reaches (O.meaning order.now) o s → AreOfSignature (HasSym (O.meaning order.now)) (O.meaning order.now).arity (equations_of (live s.entries)) }
{}

/// The present ends of the goals are ground, over the order's signature, where the goals are.
pub fn ends_stay_ground<O: Order>(order: &O)
    ensures { (o : Opening) (s : State) → OpensOver (O.meaning order.now) o → AreGroundEquations (O.meaning order.now) o.goals → Reaches (O.meaning order.now) o s → EndsAreGround (O.meaning order.now) s }
{}

/// A run whose verdict is `Saturated` was closed over a drained state, where the final pass answers `Convergent` and each goal is
/// `Settled`, with two different ends from which no ordered step by the facts that live leads on; since then nothing came.
pub fn saturated_by_final_pass<O: Order>(order: &O)
    ensures { (o : Opening) (s : State) → Reaches (O.meaning order.now) o s → s.verdict ≡ Some Saturated → IsSaturated (O.meaning order.now) o s }
{}

/// There the axioms make the two sides of each goal equal to two different ground terms, from which no ordered step by the facts
/// that live leads on, where the goals are ground.
pub fn goals_are_apart<O: Order>(order: &O)
    ensures { (o : Opening) (s : State) → OpensOver (O.meaning order.now) o → AreGroundEquations (O.meaning order.now) o.goals → Reaches (O.meaning order.now) o s → s.verdict ≡ Some Saturated → AreAllApart (O.meaning order.now) (equations_of (live s.entries)) o.axioms o.goals }
{}

/// The variables of each fact that lives are numbered by first occurrence, left side first.
pub fn facts_are_numbered<O: Order>(order: &O)
    ensures { (o : Opening) (s : State) → Reaches (O.meaning order.now) o s → AreNumbered (equations_of (live s.entries)) }
{}

/// No side of a fact that lives has more than 4,096 nodes, where no axiom's has.
pub fn facts_are_small<O: Order>(order: &O)
    ensures { (o : Opening) (s : State) → AreSmall o.axioms → Reaches (O.meaning order.now) o s → AreSmall (equations_of (live s.entries)) }
{}

/// No more facts are born than the budget has units.
pub fn facts_within_budget<O: Order>(order: &O)
    ensures { (o : Opening) (s : State) → Reaches (O.meaning order.now) o s → length (born s.entries) ≤ o.budget }
{}

/// A run whose verdict is that a goal is proved has this goal, whose two chains lead from its sides to one term.
pub fn proved_goal_meets<O: Order>(order: &O)
    ensures { (o : Opening) (s : State) (goal : ℕ) → Reaches (O.meaning order.now) o s → s.verdict ≡ Some (Proved goal) → IsProved o s goal }
{}

/// The overlap that the final pass names as too large is one of two facts that live.
pub fn large_overlap_of_live<O: Order>(order: &O)
    ensures { (axioms : List AnyEquation) (s : State) (x : AnyOverlap) → IsFinal (O.meaning order.now) axioms s (Large x) → IsLargeOverlap s.entries x }
{}

/// Each event of a run was recorded by the start or by one call, from a state that a run reaches, and calls lead on from there:
/// so what each call promises is known of each event.
pub fn events_are_recorded<O: Order>(order: &O)
    ensures recorded { (o : Opening) (s : State) (k : ℕ) → Reaches (O.meaning order.now) o s → k < length s.history → IsRecorded (O.meaning order.now) o s k }
    ensures reaches { (o : Opening) (s u : State) → Reaches (O.meaning order.now) o s → Later (O.meaning order.now) o s u → Reaches (O.meaning order.now) o u }
    ensures history { (o : Opening) (s u : State) → Later (O.meaning order.now) o s u → Continues s.history u.history }
{}

/// The verdict of a run came in one of its states, and one that a limit brings has its cause there.
pub fn verdicts_have_causes<O: Order>(order: &O)
    ensures { (o : Opening) (s : State) (v : AnyVerdict) → Reaches (O.meaning order.now) o s → s.verdict ≡ Some v → VerdictCame (O.meaning order.now) o s v }
{}
