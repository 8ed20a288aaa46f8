//! The parts of a book, and what changes them: one small method for each effect.

ghost use Rattle.std.specs.Prelude.{◌≡◌, ⊤, ◌+◌, ◌<◌, ◌≤◌, ◌^◌, ◌++◌, ◌∷◌, [], true, false, Some, IfSome, MatchOption, vec_len, vec_capacity, option_map};
ghost use Rattle.uc_queue.specs.declared.entry.Entry.{Entry as Place};
ghost use Rattle.uc_machine.specs.State.{Out, peek, is_orphan, head_is_orphan, has_dead_parent};
ghost use Rattle.uc_machine.specs.Effects.{takes, hands_out, drops, closes, ending_of, accepts, restores, reclaims, next_ticket};
ghost use Rattle.uc_rows.specs.Bounds.{AreSmall};
ghost use Rattle.uc_rows.specs.TaskRows.{unit_if_join, StandsAt};
ghost use Rattle.uc_book.specs.Ending.{AnyAt, CanAccept, CanReturn, HasEnded};
ghost use Rattle.uc_book.specs.Parts.{state_of, IsAtHead, IsSubjectOut, SameRest, SameSubjects};

use uc_fact::Origin;
use uc_machine::{Ending, Event, Happening, Job, Meeting, Numbers, Stage, Verdict};
use uc_rows::{
    Facts, Goals, Pairs, TaskRow, count_commit, count_draw, count_reclaim, draw_event,
    reclaim_event, units,
};

/// The parts that hold a book's state; `next` is the next ticket.
#[derive(Drop)]
pub(crate) struct Parts {
    pub(crate) facts: Facts,
    pub(crate) pairs: Pairs,
    pub(crate) goals: Goals,
    pub(crate) tasks: Vec<TaskRow>,
    pub(crate) next: u64,
    pub(crate) counted: u32,
    pub(crate) reserved: u32,
    pub(crate) verdict: Option<Verdict>,
    pub(crate) numbers: Vec<Numbers>,
    pub(crate) history: Vec<Event>,
}

/// The kind of a verdict.
fn ending_of(verdict: Verdict) -> Ending
    ensures { result ≡ ending_of verdict }
{
    match verdict {
        Verdict::Proved(_) => Ending::Proved,
        Verdict::Saturated => Ending::Saturated,
        Verdict::BudgetOut { .. } => Ending::Budget,
        Verdict::PairsOut { .. } => Ending::Pairs,
        Verdict::LargeOverlap(_) | Verdict::LargeGoal(_) => Ending::Size,
    }
}

impl Parts {
    /// A verdict, recorded in the same step as an event.
    pub(crate) fn close(&mut self, worker: u32, verdict: Verdict)
        requires room { vec_len self.old.history < vec_capacity self.old.history }
        ensures state { state_of self.new ≡ closes worker verdict (state_of self.old) }
        ensures subjects { SameSubjects self.old self.new }
        ensures tasks { (self.new.tasks ≡ self.old.tasks) × (self.new.next ≡ self.old.next) }
        ensures history { vec_len self.new.history ≡ vec_len self.old.history + 1 }
        ensures capacity { vec_capacity self.new.history ≡ vec_capacity self.old.history }
    {
        self.verdict = Some(verdict);
        self.history.push_reserved(Event {
            worker,
            what: Happening::Close(ending_of(verdict)),
        });
    }

    /// What a job is about goes out to a worker.
    fn take(&mut self, worker: u32, job: &Job)
        requires { IsAtHead self.old job.now }
        ensures state { state_of self.new ≡ takes worker job.now (state_of self.old) }
        ensures rest { SameRest self.old self.new }
        ensures spare { self.old.pairs.spare + unit_if_join job.now ≤ self.new.pairs.spare }
    {
        match job {
            Job::Goal { goal, .. } => self.goals.turn(*goal, Stage::Busy),
            Job::More { goal, .. } => self.goals.turn(*goal, Stage::Busy),
            Job::Meet(fact) => self.facts.settle(*fact, Meeting::Visiting),
            Job::Join { pair, .. } => self.pairs.hand_out(*pair, worker),
        }
    }

    /// A task is drawn, with the next ticket and the front of all entries.
    pub(crate) fn hand_out(&mut self, row: TaskRow)
        requires ticket { row.ticket ≡ self.old.next }
        requires next { self.old.next ≡ next_ticket (state_of self.old) }
        requires front { row.front ≡ self.old.facts.front }
        requires head { IsAtHead self.old row.job }
        requires small { AreSmall self.old.numbers.items }
        requires few { self.old.next < 2 ^ 63 }
        requires reserved { self.old.reserved < 2 ^ 31 }
        requires room_tasks { vec_len self.old.tasks < vec_capacity self.old.tasks }
        requires room { vec_len self.old.history < vec_capacity self.old.history }
        ensures state { state_of self.new ≡ hands_out row.worker row.job (state_of self.old) }
        ensures front { self.new.facts.front ≡ self.old.facts.front }
        ensures next { self.new.next ≡ self.old.next + 1 }
        ensures tasks { self.new.tasks.items ≡ self.old.tasks.items ++ row ∷ [] }
        ensures spare { self.old.pairs.spare + unit_if_join row.job ≤ self.new.pairs.spare }
        ensures verdict { self.new.verdict ≡ self.old.verdict }
        ensures history { vec_len self.new.history ≡ vec_len self.old.history + 1 }
        ensures capacity { vec_capacity self.new.history ≡ vec_capacity self.old.history }
    {
        let worker = row.worker;
        let what = draw_event(&row.job, row.front.len());
        self.take(worker, &row.job);
        self.reserved += units(&row.job);
        self.next += 1;
        self.tasks.push_reserved(row);
        count_draw(&mut self.numbers, worker);
        self.history.push_reserved(Event { worker, what });
    }

    /// Whether one of the facts that a pair comes from is dead.
    pub(crate) fn is_orphan(&self, origin: Origin) -> bool
        ensures { result ≡ has_dead_parent (state_of self.now).entries origin }
    {
        match origin {
            Origin::Overlap(overlap) => {
                self.facts.is_dead(overlap.outer) || self.facts.is_dead(overlap.inner)
            }
            Origin::Axiom(_) | Origin::Revived(_) => false,
        }
    }

    /// The pair at the queue's head, where it has a dead parent.
    pub(crate) fn orphan_at_head(&self) -> Option<u64>
        ensures none { MatchOption result (head_is_orphan (state_of self.now) ≡ false) (λ _. ⊤) }
        ensures some { IfSome result (λ n. (option_map (λ (p : Place). p.number) (peek (state_of self.now)) ≡ Some n) × (is_orphan (state_of self.now) n ≡ true)) }
    {
        let (number, origin) = self.pairs.head()?;
        if self.is_orphan(origin) {
            Some(number)
        } else {
            None
        }
    }

    /// The pair at the queue's head leaves it, and is an Orphan.
    pub(crate) fn drop_head(&mut self, worker: u32, number: u64)
        requires head { option_map (λ (p : Place). p.number) (peek (state_of self.old)) ≡ Some number }
        requires room { vec_len self.old.history < vec_capacity self.old.history }
        ensures state { state_of self.new ≡ drops worker number (state_of self.old) }
        ensures subjects { (self.new.facts ≡ self.old.facts) × (self.new.goals ≡ self.old.goals) }
        ensures tasks { (self.new.tasks ≡ self.old.tasks) × (self.new.next ≡ self.old.next) }
        ensures counts { (self.new.numbers ≡ self.old.numbers) × (self.new.counted ≡ self.old.counted) × (self.new.reserved ≡ self.old.reserved) × (self.new.verdict ≡ self.old.verdict) }
        ensures spare { self.new.pairs.spare ≡ self.old.pairs.spare + 1 }
        ensures modulo { self.old.pairs.draws < 5 }
        ensures history { vec_len self.new.history ≡ vec_len self.old.history + 1 }
        ensures capacity { vec_capacity self.new.history ≡ vec_capacity self.old.history }
    {
        self.pairs.drop_head(number);
        self.history.push_reserved(Event {
            worker,
            what: Happening::Dropped { pair: number },
        });
    }

    /// What a job was about waits again.
    fn restore(&mut self, worker: u32, job: &Job)
        requires out { IsSubjectOut self.old worker job.now }
        requires spare { unit_if_join job.now ≤ self.old.pairs.spare }
        ensures state { state_of self.new ≡ restores job.now (state_of self.old) }
        ensures rest { SameRest self.old self.new }
        ensures spare { self.old.pairs.spare ≤ self.new.pairs.spare + unit_if_join job.now }
    {
        match job {
            Job::Goal { goal, .. } => self.goals.turn(*goal, Stage::Due),
            Job::More { goal, .. } => self.goals.turn(*goal, Stage::Continued),
            Job::Meet(fact) => self.facts.restore(*fact),
            Job::Join { pair, .. } => self.pairs.give_back(*pair, worker),
        }
    }

    /// The task at a place is put back.
    pub(crate) fn put_back(&mut self, at: usize)
        requires at { AnyAt self.old at }
        requires can { (t : Out) → StandsAt self.old.tasks.items at t → CanReturn self.old t }
        ensures state { (t : Out) → StandsAt self.old.tasks.items at t → state_of self.new ≡ reclaims t (state_of self.old) }
        ensures rest { HasEnded self.old at self.new }
        ensures front { self.new.facts.front ≡ self.old.facts.front }
        ensures spare { (t : Out) → StandsAt self.old.tasks.items at t → self.old.pairs.spare ≤ self.new.pairs.spare + unit_if_join t.job }
    {
        let row = self.tasks.remove(at);
        self.reserved -= units(&row.job);
        self.restore(row.worker, &row.job);
        count_reclaim(&mut self.numbers, row.worker);
        self.history.push_reserved(Event {
            worker: row.worker,
            what: reclaim_event(&row.job),
        });
    }

    /// The task at a place ends by a commit, whose event is recorded.
    pub(crate) fn accept(&mut self, at: usize, what: Happening)
        requires at { AnyAt self.old at }
        requires can { (t : Out) → StandsAt self.old.tasks.items at t → CanAccept self.old t }
        ensures state { (t : Out) → StandsAt self.old.tasks.items at t → state_of self.new ≡ accepts t what (state_of self.old) }
        ensures rest { HasEnded self.old at self.new }
        ensures subjects { SameSubjects self.old self.new }
    {
        let row = self.tasks.remove(at);
        let unit = units(&row.job);
        self.reserved -= unit;
        self.counted += unit;
        count_commit(&mut self.numbers, row.worker);
        self.history.push_reserved(Event {
            worker: row.worker,
            what,
        });
    }
}
