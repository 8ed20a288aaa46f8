//! Commits: what the result of a task changes.

ghost use Rattle.std.specs.Prelude.{◌≡◌, ⊤, ◌+◌, ◌<◌, ◌≤◌, ◌^◌, ◌++◌, ◌∷◌, [], true, false, IsTrue, ◌↔◌, nat_lt, length, remove, IfOk, IfErr, OnOk, OnErr, IfSome, MatchOption, Some, None, vec_len, vec_capacity};
ghost use Rattle.uc_fact.specs.declared.fact.Fact.{Fact as AnyFact};
ghost use Rattle.uc_ledger.specs.declared.ledger.State.TheVariants.{Done as IsDone};
ghost use Rattle.uc_shelf.specs.Fronts.{IsOf};
ghost use Rattle.uc_shelf.specs.declared.entry.Entry.TheVariants.{Born};
ghost use Rattle.uc_machine.specs.declared.event.Verdict.TheVariants.{Proved};
ghost use Rattle.uc_machine.specs.declared.event.GoalEnd.TheVariants.{Met as EndsMet};
ghost use Rattle.uc_machine.specs.declared.task.Finding.TheVariants.{Kept};
ghost use Rattle.uc_machine.specs.declared.task.Job.TheVariants.{Meet};
ghost use Rattle.uc_machine.specs.State.{Opening, Out};
ghost use Rattle.uc_machine.specs.Effects.{accepts, closes, stages, turns, publishes};
ghost use Rattle.uc_machine.specs.Commits.{Commits, IsOutTo, end_word};
ghost use Rattle.uc_book.specs.Openings.{opening_of};
ghost use Rattle.uc_book.specs.Answers.{IsCommitted, IsNotOut, IsRefused};
ghost use Rattle.uc_rows.specs.FactRows.{HasOneMore};
ghost use Rattle.uc_rows.specs.TaskRows.{StandsAt};
ghost use Rattle.uc_book.specs.Parts.{state_of, closings, Fit, HasRoom, IsSubjectOut, IsSteady, SameSubjects, SameCounts};
ghost use Rattle.uc_book.specs.Ending.{CanEnd, AnyAt, CanAccept, HasEnded};
ghost use Rattle.uc_book.specs.Committing.{stage_by, commit_word, HasGoal, IsGoalJob, IsPairJob, IsFor, IsForPair, HasEnds, HasNoEnds};

use crate::answer::{CommitFault, Receipt};
use crate::limits::check_entries;
use crate::opened::Opened;
use crate::parts::Parts;
use crate::token::Done;
use std::alloc::{AllocError, Global};
use std::sync::Wait;
use uc_fact::{Fact, Stop};
use uc_machine::{Finding, GoalEnd, Happening, Job, Stage, Verdict};
use uc_rows::{TaskRow, end_of, place_of, same_job};
use uc_shelf::{Entry, Front, Shelf};

/// How the normalising of a goal ended, where its ends differ.
fn end_word(stop: Stop) -> GoalEnd
    ensures { result ≡ end_word stop }
{
    match stop {
        Stop::Full => GoalEnd::Full,
        Stop::Steps => GoalEnd::Steps,
        Stop::Size => GoalEnd::Size,
    }
}

/// The state of a goal whose ends differ, by why they stopped and whether there are entries behind its task's front.
fn stage_after(stop: Stop, has_grown: bool) -> Stage
    ensures { result ≡ stage_by stop has_grown }
{
    match stop {
        Stop::Steps => Stage::Continued,
        Stop::Full => {
            if has_grown {
                Stage::Due
            } else {
                Stage::Settled
            }
        }
        Stop::Size => { if has_grown { Stage::Due } else { Stage::Stuck } }
    }
}

/// The goal that a job is about.
fn goal_of(job: &Job) -> u32
    requires { HasGoal job.now }
    ensures { IsGoalJob job.now result }
{
    match job {
        Job::Goal { goal, .. } => *goal,
        Job::More { goal, .. } => *goal,
        Job::Meet(_) | Job::Join { .. } => unreachable!(),
    }
}

/// The event of the commit of a goal.
fn goal_event(job: &Job, goal: u32, steps: u32, end: GoalEnd) -> Happening
    requires { IsGoalJob job.now goal }
    ensures { result ≡ commit_word job.now goal steps end }
{
    match job {
        Job::More { .. } => Happening::CommitMore { goal, steps, end },
        _ => Happening::CommitGoal { goal, steps, end },
    }
}

/// Whether the task of a row, but for its ticket, is that of a result and is out to this worker.
fn is_task_of(shelf: &Shelf, row: &TaskRow, worker: u32, done: &Done) -> bool
    requires row { IsOf shelf.now row.now.front }
    requires done { IsOf shelf.now done.now.front }
    ensures { IsTrue result ↔ ((row.now.worker ≡ worker) × (row.now.job ≡ done.now.job) × (row.now.front.entries ≡ done.now.front.entries)) }
{
    row.worker == worker && same_job(&row.job, &done.job) && shelf.same(&row.front, &done.front)
}

impl Parts {
    /// Takes the result of a task in, where it is out to the worker. It grows first and changes last.
    pub(crate) fn commit<R: Wait>(
        &mut self,
        rt: &R,
        alloc: Global,
        shelf: &Shelf,
        opening: &Opened,
        worker: u32,
        done: Done,
    ) -> Result<Receipt, (Done, CommitFault)>
        requires shelf { shelf.now ≡ opening.now.shelf }
        requires can { CanEnd opening.now.shelf (opening_of opening.now) self.old }
        requires of { IsOf opening.now.shelf done.front }
        requires found { IsFor done.job done.found }
        ensures committed { IfOk result (λ receipt. IsCommitted (opening_of opening.now) (state_of self.old) worker done receipt (state_of self.new)) }
        ensures refused { IfErr result (λ e. (e.0 ≡ done) × IsRefused (state_of self.old) worker done e.1) }
        ensures err { OnErr result ((state_of self.new ≡ state_of self.old) × (self.new.facts.front ≡ self.old.facts.front)) }
        ensures fit { Fit opening.now.shelf self.new }
        ensures room { HasRoom self.new }
    {
        let ticket = done.ticket;
        let Some(at) = self.place_of_task(shelf, worker, &done) else {
            return Err((done, CommitFault::NotOut(ticket)));
        };
        let event = self.history.len() as u64 + 1;
        if self.verdict.is_some() {
            self.accept(at, Happening::CommitLate { ticket });
            return Ok(Receipt { event });
        }
        match self.take_in(rt, alloc, shelf, opening, at, done) {
            Ok(()) => Ok(Receipt { event }),
            Err(done) => Err((done, CommitFault::NoMemory)),
        }
    }

    /// Where the task of a result stands, if it is out to the worker.
    fn place_of_task(&self, shelf: &Shelf, worker: u32, done: &Done) -> Option<usize>
        requires fit { Fit shelf.now self.now }
        requires of { IsOf shelf.now done.now.front }
        ensures none { MatchOption result (IsNotOut (state_of self.now) worker done.now) (λ _. ⊤) }
        ensures some { IfSome result (λ at. (t : Out) × StandsAt self.now.tasks.items at t × IsOutTo (state_of self.now) worker done.now.ticket done.now.job done.now.front.entries t) }
    {
        let at = place_of(&self.tasks, done.ticket)?;
        if is_task_of(shelf, &self.tasks[at], worker, done) {
            Some(at)
        } else {
            None
        }
    }

    /// Takes in what was found, where no verdict stands.
    fn take_in<R: Wait>(
        &mut self,
        rt: &R,
        alloc: Global,
        shelf: &Shelf,
        opening: &Opened,
        at: usize,
        done: Done,
    ) -> Result<(), Done>
        requires shelf { shelf.now ≡ opening.now.shelf }
        requires can { CanEnd opening.now.shelf (opening_of opening.now) self.old }
        requires open { self.old.verdict ≡ None }
        requires found { IsFor done.job done.found }
        requires at { AnyAt self.old at }
        requires job { (t : Out) → StandsAt self.old.tasks.items at t → t.job ≡ done.job }
        ensures ok { OnOk result ((t : Out) → StandsAt self.old.tasks.items at t → Commits (opening_of opening.now) t done.found (state_of self.old) (state_of self.new)) }
        ensures back { IfErr result (λ e. e ≡ done) }
        ensures err { OnErr result ((state_of self.new ≡ state_of self.old) × (self.new.facts.front ≡ self.old.facts.front)) }
        ensures fit { Fit opening.now.shelf self.new }
        ensures room { HasRoom self.new }
    {
        if let Finding::Ends { .. } = &done.found {
            return self.take_ends(alloc, opening, at, done);
        }
        match self.take_found(rt, alloc, shelf, opening, at, &done.job, &done.found) {
            Ok(()) => Ok(()),
            Err(_) => Err(done),
        }
    }

    /// Takes in what was found for a pair or a fact, where no verdict stands.
    fn take_found<R: Wait>(
        &mut self,
        rt: &R,
        alloc: Global,
        shelf: &Shelf,
        opening: &Opened,
        at: usize,
        job: &Job,
        found: &Finding,
    ) -> Result<(), AllocError>
        requires shelf { shelf.now ≡ opening.now.shelf }
        requires can { CanEnd opening.now.shelf (opening_of opening.now) self.old }
        requires open { self.old.verdict ≡ None }
        requires found { IsFor job.now found.now }
        requires other { HasNoEnds found.now }
        requires at { AnyAt self.old at }
        requires job { (t : Out) → StandsAt self.old.tasks.items at t → t.job ≡ job.now }
        ensures ok { OnOk result ((t : Out) → StandsAt self.old.tasks.items at t → Commits (opening_of opening.now) t found.now (state_of self.old) (state_of self.new)) }
        ensures err { OnErr result ((state_of self.new ≡ state_of self.old) × (self.new.facts.front ≡ self.old.facts.front)) }
        ensures fit { Fit opening.now.shelf self.new }
        ensures room { HasRoom self.new }
    {
        match job {
            Job::Join { pair, .. } => self.take_pair(rt, alloc, shelf, at, *pair, found),
            Job::Meet(fact) => self.take_meeting(rt, alloc, shelf, opening, at, *fact, found),
            Job::Goal { .. } | Job::More { .. } => unreachable!(),
        }
    }

    /// Takes in what was found for a pair, where no verdict stands.
    fn take_pair<R: Wait>(
        &mut self,
        rt: &R,
        alloc: Global,
        shelf: &Shelf,
        at: usize,
        pair: u64,
        found: &Finding,
    ) -> Result<(), AllocError>
        requires can { (o : Opening) × CanEnd shelf.now o self.old }
        requires open { self.old.verdict ≡ None }
        requires found { IsForPair found.now }
        requires at { AnyAt self.old at }
        requires job { (t : Out) → StandsAt self.old.tasks.items at t → IsPairJob t.job pair }
        ensures ok { OnOk result ((o : Opening) (t : Out) → StandsAt self.old.tasks.items at t → Commits o t found.now (state_of self.old) (state_of self.new)) }
        ensures err { OnErr result ((state_of self.new ≡ state_of self.old) × (self.new.facts.front ≡ self.old.facts.front)) }
        ensures fit { Fit shelf.now self.new }
        ensures room { HasRoom self.new }
    {
        match found {
            Finding::Joined(_) => {
                self.end_pair(at, pair, Happening::CommitJoined { pair });
                Ok(())
            }
            Finding::Kept(fact) => self.keep(rt, alloc, shelf, at, pair, fact),
            Finding::Ends { .. } | Finding::Stale(_) | Finding::Met { .. } => unreachable!(),
        }
    }

    /// Takes in what was found for a fact that was to meet the others, where no verdict stands.
    fn take_meeting<R: Wait>(
        &mut self,
        rt: &R,
        alloc: Global,
        shelf: &Shelf,
        opening: &Opened,
        at: usize,
        fact: u32,
        found: &Finding,
    ) -> Result<(), AllocError>
        requires shelf { shelf.now ≡ opening.now.shelf }
        requires can { CanEnd opening.now.shelf (opening_of opening.now) self.old }
        requires open { self.old.verdict ≡ None }
        requires found { IsFor (Meet fact) found.now }
        requires at { AnyAt self.old at }
        requires job { (t : Out) → StandsAt self.old.tasks.items at t → t.job ≡ Meet fact }
        ensures ok { OnOk result ((t : Out) → StandsAt self.old.tasks.items at t → Commits (opening_of opening.now) t found.now (state_of self.old) (state_of self.new)) }
        ensures err { OnErr result ((state_of self.new ≡ state_of self.old) × (self.new.facts.front ≡ self.old.facts.front)) }
        ensures fit { Fit opening.now.shelf self.new }
        ensures room { HasRoom self.new }
    {
        match found {
            Finding::Stale(killer) => self.bury(rt, alloc, shelf, opening, at, fact, *killer),
            Finding::Met { kills, overlaps } => self.meet(
                rt,
                alloc,
                shelf,
                opening,
                at,
                fact,
                kills.as_slice(),
                overlaps.as_slice(),
            ),
            Finding::Ends { .. } | Finding::Joined(_) | Finding::Kept(_) => unreachable!(),
        }
    }

    /// The pair of a Join is Done, by a commit with this event.
    fn end_pair(&mut self, at: usize, pair: u64, what: Happening)
        requires at { AnyAt self.old at }
        requires job { (t : Out) → StandsAt self.old.tasks.items at t → IsPairJob t.job pair }
        requires out { (t : Out) → StandsAt self.old.tasks.items at t → IsSubjectOut self.old t.worker t.job }
        requires can { (t : Out) → StandsAt self.old.tasks.items at t → CanAccept self.old t }
        ensures state { (t : Out) → StandsAt self.old.tasks.items at t → state_of self.new ≡ turns IsDone pair (accepts t what (state_of self.old)) }
        ensures rest { HasEnded self.old at self.new }
        ensures front { self.new.facts ≡ self.old.facts }
        ensures spare { self.new.pairs.spare ≡ self.old.pairs.spare }
    {
        let worker = self.tasks[at].worker;
        self.accept(at, what);
        self.pairs.finish(pair, worker);
    }

    /// A fact is kept: it is published at the end of a copy of the front. It grows first and changes last.
    fn keep<R: Wait>(
        &mut self,
        rt: &R,
        alloc: Global,
        shelf: &Shelf,
        at: usize,
        pair: u64,
        fact: &Fact,
    ) -> Result<(), AllocError>
        requires at { AnyAt self.old at }
        requires can { (o : Opening) × CanEnd shelf.now o self.old }
        requires open { self.old.verdict ≡ None }
        requires job { (t : Out) → StandsAt self.old.tasks.items at t → IsPairJob t.job pair }
        ensures ok { OnOk result ((o : Opening) (t : Out) → StandsAt self.old.tasks.items at t → Commits o t (Kept fact.now) (state_of self.old) (state_of self.new)) }
        ensures err { OnErr result ((state_of self.new ≡ state_of self.old) × (self.new.facts.front ≡ self.old.facts.front)) }
        ensures fit { Fit shelf.now self.new }
        ensures room { HasRoom self.new }
    {
        let weight = fact.left.nodes() + fact.right.nodes();
        let copy = fact.copy(alloc)?;
        let front = self.with_birth(rt, alloc, shelf, copy)?;
        let number = self.facts.count() as u32;
        self.end_pair(at, pair, Happening::CommitKept { pair, fact: number });
        self.publish(front, weight);
        Ok(())
    }

    /// A copy of the front with the birth of a fact behind it, for which there is room among the facts.
    pub(crate) fn with_birth<R: Wait>(
        &mut self,
        rt: &R,
        alloc: Global,
        shelf: &Shelf,
        fact: Fact,
    ) -> Result<Front, AllocError>
        requires { IsOf shelf.now self.old.facts.front }
        ensures steady { IsSteady self.old self.new }
        ensures of { IfOk result (λ f. IsOf shelf.now f) }
        ensures entries { IfOk result (λ f. f.entries ≡ self.old.facts.front.entries ++ Born fact ∷ []) }
        ensures few { IfOk result (λ f. length f.entries ≤ 2 ^ 31) }
        ensures room { OnOk result (1 ≤ self.new.facts.room) }
    {
        check_entries(self.facts.front())?;
        self.facts.reserve(1)?;
        let mut front = self.facts.front().copy(alloc)?;
        shelf.publish(rt, alloc, &mut front, Entry::Born(fact))?;
        Ok(front)
    }

    /// Takes over a front with one fact more, which is Unmet; goals that rest become Due.
    pub(crate) fn publish(&mut self, front: Front, weight: u32)
        requires grew { HasOneMore self.old.facts.front.entries front.entries weight }
        requires few { length front.entries ≤ 2 ^ 31 }
        requires room { 1 ≤ self.old.facts.room }
        ensures state { (f : AnyFact) → front.entries ≡ self.old.facts.front.entries ++ Born f ∷ [] → state_of self.new ≡ publishes f (state_of self.old) }
        ensures front { self.new.facts.front ≡ front }
        ensures rest { SameCounts self.old self.new }
    {
        self.facts.adopt(front, weight);
        self.goals.wake();
    }

    /// The two ends of a goal go on, where no verdict stands.
    fn take_ends(
        &mut self,
        alloc: Global,
        opening: &Opened,
        at: usize,
        done: Done,
    ) -> Result<(), Done>
        requires can { CanEnd opening.now.shelf (opening_of opening.now) self.old }
        requires open { self.old.verdict ≡ None }
        requires found { IsFor done.job done.found }
        requires ends { HasEnds done.found }
        requires at { AnyAt self.old at }
        requires job { (t : Out) → StandsAt self.old.tasks.items at t → t.job ≡ done.job }
        ensures ok { OnOk result ((t : Out) → StandsAt self.old.tasks.items at t → Commits (opening_of opening.now) t done.found (state_of self.old) (state_of self.new)) }
        ensures back { IfErr result (λ e. e ≡ done) }
        ensures err { OnErr result ((state_of self.new ≡ state_of self.old) × (self.new.facts.front ≡ self.old.facts.front)) }
        ensures fit { Fit opening.now.shelf self.new }
        ensures room { HasRoom self.new }
    {
        let Done {
            ticket,
            job,
            front,
            found,
            opening: of,
        } = done;
        let Finding::Ends { left, right, stop } = found else {
            unreachable!()
        };
        let goal = goal_of(&job);
        let met = end_of(&left).same(end_of(&right));
        let steps = (left.steps.len() + right.steps.len()) as u32;
        match self.goals.go_on(alloc, goal, left, right) {
            Ok(()) => {
                self.end_goal(at, &job, goal, steps, met, stop);
                Ok(())
            }
            Err((left, right)) => Err(Done {
                ticket,
                job,
                front,
                found: Finding::Ends { left, right, stop },
                opening: of,
            }),
        }
    }

    /// A goal whose ends went on has met, or gets its state.
    fn end_goal(&mut self, at: usize, job: &Job, goal: u32, steps: u32, met: bool, stop: Stop)
        requires at { AnyAt self.old at }
        requires can { (t : Out) → StandsAt self.old.tasks.items at t → CanAccept self.old t }
        requires room { vec_len self.old.history + 1 < vec_capacity self.old.history }
        requires open { self.old.verdict ≡ None }
        requires job { IsGoalJob job.now goal }
        ensures met { (t : Out) → StandsAt self.old.tasks.items at t → met ≡ true → state_of self.new ≡ closes t.worker (Proved goal) (accepts t (commit_word job.now goal steps EndsMet) (state_of self.old)) }
        ensures apart { (t : Out) → StandsAt self.old.tasks.items at t → met ≡ false → state_of self.new ≡ stages (stage_by stop (nat_lt t.front (length self.old.facts.front.entries))) goal (accepts t (commit_word job.now goal steps (end_word stop)) (state_of self.old)) }
        ensures facts { self.new.facts ≡ self.old.facts }
        ensures pairs { self.new.pairs ≡ self.old.pairs }
        ensures tasks { self.new.tasks.items ≡ remove self.old.tasks.items at }
        ensures next { self.new.next ≡ self.old.next }
        ensures history { vec_len self.new.history + closings self.new.verdict ≡ vec_len self.old.history + (1 + closings self.old.verdict) }
        ensures capacity { vec_capacity self.new.history ≡ vec_capacity self.old.history }
    {
        if met {
            self.prove(at, job, goal, steps);
        } else {
            self.rest(at, job, goal, steps, stop);
        }
    }

    /// The ends of a goal are equal, so it is proved.
    fn prove(&mut self, at: usize, job: &Job, goal: u32, steps: u32)
        requires at { AnyAt self.old at }
        requires can { (t : Out) → StandsAt self.old.tasks.items at t → CanAccept self.old t }
        requires room { vec_len self.old.history + 1 < vec_capacity self.old.history }
        requires job { IsGoalJob job.now goal }
        ensures state { (t : Out) → StandsAt self.old.tasks.items at t → state_of self.new ≡ closes t.worker (Proved goal) (accepts t (commit_word job.now goal steps EndsMet) (state_of self.old)) }
        ensures subjects { SameSubjects self.old self.new }
        ensures tasks { self.new.tasks.items ≡ remove self.old.tasks.items at }
        ensures next { self.new.next ≡ self.old.next }
        ensures verdict { self.new.verdict ≡ Some (Proved goal) }
        ensures history { vec_len self.new.history ≡ vec_len self.old.history + 2 }
        ensures capacity { vec_capacity self.new.history ≡ vec_capacity self.old.history }
    {
        let worker = self.tasks[at].worker;
        self.accept(at, goal_event(job, goal, steps, GoalEnd::Met));
        self.close(worker, Verdict::Proved(goal));
    }

    /// The ends of a goal differ, so it gets its state.
    fn rest(&mut self, at: usize, job: &Job, goal: u32, steps: u32, stop: Stop)
        requires at { AnyAt self.old at }
        requires can { (t : Out) → StandsAt self.old.tasks.items at t → CanAccept self.old t }
        requires job { IsGoalJob job.now goal }
        ensures state { (t : Out) → StandsAt self.old.tasks.items at t → state_of self.new ≡ stages (stage_by stop (nat_lt t.front (length self.old.facts.front.entries))) goal (accepts t (commit_word job.now goal steps (end_word stop)) (state_of self.old)) }
        ensures facts { self.new.facts ≡ self.old.facts }
        ensures pairs { self.new.pairs ≡ self.old.pairs }
        ensures ended { HasEnded self.old at self.new }
    {
        let has_grown = self.tasks[at].front.len() < self.facts.front().len();
        self.accept(at, goal_event(job, goal, steps, end_word(stop)));
        self.goals.turn(goal, stage_after(stop, has_grown));
    }
}
