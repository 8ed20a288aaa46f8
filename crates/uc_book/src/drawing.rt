//! Draws: the first of the rules that holds gives the answer.

ghost use Rattle.std.specs.Prelude.{◌≡◌, ◌≢◌, ℕ, ◌+◌, ◌<◌, ◌≤◌, ◌^◌, [], false, IsTrue, length, IfOk, OnOk, OnErr, MatchOption, None, vec_len, vec_capacity};
ghost use Rattle.uc_machine.specs.declared.task.Job.TheVariants.{More};
ghost use Rattle.uc_machine.specs.State.{Opening, State, first_continued, queue};
ghost use Rattle.uc_machine.specs.Effects.{hands_out, next_ticket};
ghost use Rattle.uc_machine.specs.Draws.{Reply, Draws, NoneDue, NoneUnmet, IsLate, HasBudget, IsSpent, Waits, NothingWaits};
ghost use Rattle.uc_book.specs.Openings.{opening_of};
ghost use Rattle.uc_book.specs.Answers.{reply_of, IfTask};
ghost use Rattle.uc_book.specs.Parts.{state_of, Fit, HasRoom, IsAtHead, IsSteady, SameSubjects};
ghost use Rattle.uc_book.specs.Drawing.{IsSound, HasRoomToGive, CanGive};
ghost use Rattle.uc_rows.specs.Jobs.{AreJobs};

use crate::answer::Drawn;
use crate::limits::check_tasks;
use crate::opened::Opened;
use crate::parts::Parts;
use crate::token::Task;
use std::alloc::{AllocError, Global};
use uc_machine::{Job, Verdict};
use uc_rows::TaskRow;
use uc_shelf::Front;

impl Parts {
    /// What comes next for a worker. It takes its memory first: refused, it changes nothing.
    pub(crate) fn draw(
        &mut self,
        alloc: Global,
        opening: Opened,
        worker: u32,
    ) -> Result<Drawn, AllocError>
        requires sound { IsSound (opening_of opening) self.old }
        requires fit { Fit opening.shelf self.old }
        requires room { HasRoom self.old }
        ensures drawn { IfOk result (λ d. Draws (opening_of opening) worker (state_of self.old) (reply_of worker d) (state_of self.new)) }
        ensures task { IfOk result (λ d. IfTask d (λ t. (t.opening ≡ opening) × (t.front ≡ self.old.facts.front))) }
        ensures err { OnErr result (state_of self.new ≡ state_of self.old) }
        ensures front { self.new.facts.front ≡ self.old.facts.front }
        ensures fit { Fit opening.shelf self.new }
        ensures room { HasRoom self.new }
    {
        match self.verdict {
            Some(verdict) => Ok(Drawn::Closed(verdict)),
            None => self.draw_open(alloc, opening, worker),
        }
    }

    /// What comes next where no verdict stands: a goal that is Due, else what the other rules give.
    fn draw_open(
        &mut self,
        alloc: Global,
        opening: Opened,
        worker: u32,
    ) -> Result<Drawn, AllocError>
        requires open { self.old.verdict ≡ None }
        requires sound { IsSound (opening_of opening) self.old }
        requires fit { Fit opening.shelf self.old }
        requires room { HasRoom self.old }
        ensures drawn { IfOk result (λ d. Draws (opening_of opening) worker (state_of self.old) (reply_of worker d) (state_of self.new)) }
        ensures task { IfOk result (λ d. IfTask d (λ t. (t.opening ≡ opening) × (t.front ≡ self.old.facts.front))) }
        ensures err { OnErr result (state_of self.new ≡ state_of self.old) }
        ensures front { self.new.facts.front ≡ self.old.facts.front }
        ensures fit { Fit opening.shelf self.new }
        ensures room { HasRoom self.new }
    {
        self.make_room()?;
        match self.goals.due_jobs(alloc)? {
            Some(jobs) => {
                let fronts = self.copy_fronts(alloc)?;
                Ok(Drawn::Task(self.give(worker, opening, fronts, jobs)))
            }
            None => self.draw_fact(alloc, opening, worker),
        }
    }

    /// Where no goal is Due: a fact that is Unmet, else what the other rules give.
    fn draw_fact(
        &mut self,
        alloc: Global,
        opening: Opened,
        worker: u32,
    ) -> Result<Drawn, AllocError>
        requires due { NoneDue (state_of self.old) }
        requires can { CanGive opening.shelf (opening_of opening) self.old }
        requires events { HasRoomToGive self.old }
        ensures drawn { IfOk result (λ d. Draws (opening_of opening) worker (state_of self.old) (reply_of worker d) (state_of self.new)) }
        ensures task { IfOk result (λ d. IfTask d (λ t. (t.opening ≡ opening) × (t.front ≡ self.old.facts.front))) }
        ensures err { OnErr result (state_of self.new ≡ state_of self.old) }
        ensures front { self.new.facts.front ≡ self.old.facts.front }
        ensures fit { Fit opening.shelf self.new }
        ensures room { HasRoom self.new }
    {
        match self.facts.first_unmet() {
            Some(fact) => {
                let fronts = self.copy_fronts(alloc)?;
                let jobs = (Job::Meet(fact), Job::Meet(fact));
                Ok(Drawn::Task(self.give(worker, opening, fronts, jobs)))
            }
            None => self.draw_behind(alloc, opening, worker),
        }
    }

    /// Where no fact is Unmet either: what the last rules give, where a unit may be drawn and where none may.
    fn draw_behind(
        &mut self,
        alloc: Global,
        opening: Opened,
        worker: u32,
    ) -> Result<Drawn, AllocError>
        requires met { NoneUnmet (state_of self.old) }
        requires can { CanGive opening.shelf (opening_of opening) self.old }
        requires events { HasRoomToGive self.old }
        ensures drawn { IfOk result (λ d. Draws (opening_of opening) worker (state_of self.old) (reply_of worker d) (state_of self.new)) }
        ensures task { IfOk result (λ d. IfTask d (λ t. (t.opening ≡ opening) × (t.front ≡ self.old.facts.front))) }
        ensures err { OnErr result (state_of self.new ≡ state_of self.old) }
        ensures front { self.new.facts.front ≡ self.old.facts.front }
        ensures fit { Fit opening.shelf self.new }
        ensures room { HasRoom self.new }
    {
        if self.counted + self.reserved < opening.budget() {
            return self.draw_within(alloc, opening, worker);
        }
        self.drop_orphans(worker)?;
        Ok(self.draw_without(worker, opening))
    }

    /// What comes next where a unit may be drawn: a goal that is Continued, else what the queue gives.
    fn draw_within(
        &mut self,
        alloc: Global,
        opening: Opened,
        worker: u32,
    ) -> Result<Drawn, AllocError>
        requires met { NoneUnmet (state_of self.old) }
        requires can { CanGive opening.shelf (opening_of opening) self.old }
        requires events { HasRoomToGive self.old }
        requires budget { HasBudget (opening_of opening) (state_of self.old) }
        ensures drawn { IfOk result (λ d. Draws (opening_of opening) worker (state_of self.old) (reply_of worker d) (state_of self.new)) }
        ensures task { IfOk result (λ d. IfTask d (λ t. (t.opening ≡ opening) × (t.front ≡ self.old.facts.front))) }
        ensures err { OnErr result (state_of self.new ≡ state_of self.old) }
        ensures front { self.new.facts.front ≡ self.old.facts.front }
        ensures fit { Fit opening.shelf self.new }
        ensures room { HasRoom self.new }
    {
        match self.goals.continued_jobs(alloc)? {
            Some(jobs) => self.draw_more(alloc, opening, worker, jobs),
            None => self.draw_queue(alloc, opening, worker),
        }
    }

    /// The least goal that is Continued, once the orphans at the queue's head have left it.
    fn draw_more(
        &mut self,
        alloc: Global,
        opening: Opened,
        worker: u32,
        jobs: (Job, Job),
    ) -> Result<Drawn, AllocError>
        requires met { NoneUnmet (state_of self.old) }
        requires can { CanGive opening.shelf (opening_of opening) self.old }
        requires events { HasRoomToGive self.old }
        requires budget { HasBudget (opening_of opening) (state_of self.old) }
        requires jobs { AreJobs More (first_continued (state_of self.old)) jobs }
        ensures drawn { IfOk result (λ d. Draws (opening_of opening) worker (state_of self.old) (reply_of worker d) (state_of self.new)) }
        ensures task { IfOk result (λ d. IfTask d (λ t. (t.opening ≡ opening) × (t.front ≡ self.old.facts.front))) }
        ensures err { OnErr result (state_of self.new ≡ state_of self.old) }
        ensures front { self.new.facts.front ≡ self.old.facts.front }
        ensures fit { Fit opening.shelf self.new }
        ensures room { HasRoom self.new }
    {
        let fronts = self.copy_fronts(alloc)?;
        self.drop_orphans(worker)?;
        Ok(Drawn::Task(self.give(worker, opening, fronts, jobs)))
    }

    /// The pair at the queue's head, once the orphans there have left it; an empty queue has none.
    fn draw_queue(
        &mut self,
        alloc: Global,
        opening: Opened,
        worker: u32,
    ) -> Result<Drawn, AllocError>
        requires met { NoneUnmet (state_of self.old) }
        requires can { CanGive opening.shelf (opening_of opening) self.old }
        requires events { HasRoomToGive self.old }
        requires budget { HasBudget (opening_of opening) (state_of self.old) }
        requires goal { first_continued (state_of self.old) ≡ None }
        ensures drawn { IfOk result (λ d. Draws (opening_of opening) worker (state_of self.old) (reply_of worker d) (state_of self.new)) }
        ensures task { IfOk result (λ d. IfTask d (λ t. (t.opening ≡ opening) × (t.front ≡ self.old.facts.front))) }
        ensures err { OnErr result (state_of self.new ≡ state_of self.old) }
        ensures front { self.new.facts.front ≡ self.old.facts.front }
        ensures fit { Fit opening.shelf self.new }
        ensures room { HasRoom self.new }
    {
        if self.pairs.head().is_none() {
            return Ok(self.draw_nothing());
        }
        let fronts = self.copy_fronts(alloc)?;
        self.drop_orphans(worker)?;
        Ok(self.draw_pair(worker, opening, fronts))
    }

    /// Makes room for a task, and for the events of its draw, of its end and of a close, whatever waits.
    fn make_room(&mut self) -> Result<(), AllocError>
        ensures steady { IsSteady self.old self.new }
        ensures room { OnOk result (HasRoomToGive self.new) }
        ensures refused { OnErr result (HasRoomToGive self.old → ⊥) }
    {
        check_tasks(self.tasks.len())?;
        self.tasks.reserve(1)?;
        self.history.reserve(self.tasks.len() + 3)
    }

    /// The front of all entries, for a task and for the book.
    fn copy_fronts(&self, alloc: Global) -> Result<(Front, Front), AllocError>
        ensures { IfOk result (λ f. (f.0 ≡ self.now.facts.front) × (f.1 ≡ self.now.facts.front)) }
    {
        let front = self.facts.front();
        Ok((front.copy(alloc)?, front.copy(alloc)?))
    }

    /// A task with the next ticket goes out to a worker.
    fn give(
        &mut self,
        worker: u32,
        opening: Opened,
        fronts: (Front, Front),
        jobs: (Job, Job),
    ) -> Task
        requires can { CanGive opening.shelf (opening_of opening) self.old }
        requires front { fronts.0 ≡ self.old.facts.front }
        requires kept { fronts.1 ≡ self.old.facts.front }
        requires jobs { jobs.1 ≡ jobs.0 }
        requires head { IsAtHead self.old jobs.0 }
        ensures state { state_of self.new ≡ hands_out worker jobs.0 (state_of self.old) }
        ensures task { result ≡ record { ticket = self.old.next; job = jobs.0; front = self.old.facts.front; opening = opening } }
        ensures front { self.new.facts.front ≡ self.old.facts.front }
        ensures fit { Fit opening.shelf self.new }
        ensures room { HasRoom self.new }
    {
        let (front, kept) = fronts;
        let (job, kept_job) = jobs;
        let ticket = self.next;
        self.hand_out(TaskRow {
            ticket,
            worker,
            job: kept_job,
            front: kept,
        });
        Task {
            ticket,
            job,
            front,
            opening,
        }
    }

    /// The last rules where no unit may be drawn: it is waited, a close, or nothing is left.
    fn draw_without(&mut self, worker: u32, opening: Opened) -> Drawn
        requires late { IsLate (state_of self.old) }
        requires fit { Fit opening.shelf self.old }
        requires room { HasRoom self.old }
        requires spent { IsSpent (opening_of opening) (state_of self.old) }
        ensures drawn { Draws (opening_of opening) worker (state_of self.old) (reply_of worker result) (state_of self.new) }
        ensures task { IfTask result (λ _. ⊥) }
        ensures front { self.new.facts.front ≡ self.old.facts.front }
        ensures fit { Fit opening.shelf self.new }
        ensures room { HasRoom self.new }
    {
        if self.has_waiting() {
            return self.draw_spent(worker);
        }
        self.draw_nothing()
    }

    /// Whether a goal is Continued or the queue isn't empty.
    fn has_waiting(&mut self) -> bool
        ensures waits { IsTrue result → Waits (state_of self.old) }
        ensures none { result ≡ false → NothingWaits (state_of self.old) }
        ensures same { self.new ≡ self.old }
    {
        if self.goals.first_continued().is_some() {
            return true;
        }
        self.pairs.head().is_some()
    }

    /// The pair at the queue's head, where one waits.
    fn draw_pair(&mut self, worker: u32, opening: Opened, fronts: (Front, Front)) -> Drawn
        requires late { IsLate (state_of self.old) }
        requires can { CanGive opening.shelf (opening_of opening) self.old }
        requires front { fronts.0 ≡ self.old.facts.front }
        requires kept { fronts.1 ≡ self.old.facts.front }
        requires goal { first_continued (state_of self.old) ≡ None }
        requires budget { HasBudget (opening_of opening) (state_of self.old) }
        ensures drawn { Draws (opening_of opening) worker (state_of self.old) (reply_of worker result) (state_of self.new) }
        ensures task { IfTask result (λ t. (t.opening ≡ opening) × (t.front ≡ self.old.facts.front)) }
        ensures front { self.new.facts.front ≡ self.old.facts.front }
        ensures fit { Fit opening.shelf self.new }
        ensures room { HasRoom self.new }
    {
        match self.pairs.head() {
            Some((pair, origin)) => {
                let jobs = (Job::Join { pair, origin }, Job::Join { pair, origin });
                Drawn::Task(self.give(worker, opening, fronts, jobs))
            }
            None => self.draw_nothing(),
        }
    }

    /// Something waits, and the budget is spent: it is waited for the tasks out, or, where none is, the book is closed.
    fn draw_spent(&mut self, worker: u32) -> Drawn
        requires late { IsLate (state_of self.old) }
        requires waits { Waits (state_of self.old) }
        requires few { length self.old.tasks.items < 2 ^ 32 }
        requires room { HasRoom self.old }
        ensures drawn { (o : Opening) → IsSpent o (state_of self.old) → Draws o worker (state_of self.old) (reply_of worker result) (state_of self.new) }
        ensures task { IfTask result (λ _. ⊥) }
        ensures subjects { SameSubjects self.old self.new }
        ensures tasks { (self.new.tasks ≡ self.old.tasks) × (self.new.next ≡ self.old.next) }
        ensures ticket { next_ticket (state_of self.new) ≡ next_ticket (state_of self.old) }
        ensures numbers { self.new.numbers.items ≡ self.old.numbers.items }
        ensures room { HasRoom self.new }
    {
        if !self.tasks.is_empty() {
            return Drawn::Idle(self.tasks.len() as u32);
        }
        let verdict = Verdict::BudgetOut {
            counted: self.counted,
        };
        self.close(worker, verdict);
        Drawn::Closed(verdict)
    }

    /// Nothing waits.
    fn draw_nothing(&self) -> Drawn
        requires late { IsLate (state_of self.now) }
        requires waits { NothingWaits (state_of self.now) }
        requires few { length self.now.tasks.items < 2 ^ 32 }
        ensures drawn { (o : Opening) (w : ℕ) → Draws o w (state_of self.now) (reply_of w result) (state_of self.now) }
        ensures task { IfTask result (λ _. ⊥) }
    {
        if self.tasks.is_empty() {
            Drawn::Drained
        } else {
            Drawn::Idle(self.tasks.len() as u32)
        }
    }
}
