//! The machine as a plain slow program over flat lists: each rule by itself, and each number counted anew where it is asked
//! for.

use std::alloc::{AllocError, Global};
use uc_fact::{Origin, Stop};
use uc_ledger::State;
use uc_machine::{Ending, Event, Happening, Meeting, Stage, Verdict};
use uc_pair::Formed;

/// A fact: how many nodes its sides have together, and a mark by which it is told from others.
#[derive(Clone, Copy, PartialEq, Eq, Debug)]
pub struct Sides {
    pub weight: u32,
    pub mark: u64,
}

/// An entry: a fact is born, or the fact of a number dies.
#[derive(Clone, Copy, PartialEq, Eq, Debug)]
pub enum Line {
    Born(Sides),
    Dies { fact: u32, killer: u32 },
}

#[derive(Clone, Copy, PartialEq, Eq, Debug)]
pub struct Pair {
    pub origin: Origin,
    pub weight: u32,
    pub state: State,
}

/// A step of a chain: its mark, and the mark of the term behind it.
#[derive(Clone, Copy, PartialEq, Eq, Debug)]
pub struct Leg {
    pub mark: u64,
    pub to: u64,
}

/// The way from a side of a goal to its present end, which has this mark.
#[derive(Drop)]
pub struct Way {
    pub marks: Vec<u64>,
    pub end: u64,
}

#[derive(Drop)]
pub struct Goal {
    pub stage: Stage,
    pub left: Way,
    pub right: Way,
}

/// What a task is about. Of a goal's ends it has the marks.
#[derive(Clone, Copy, PartialEq, Eq, Debug)]
pub enum Work {
    Goal { goal: u32, left: u64, right: u64 },
    More { goal: u32, left: u64, right: u64 },
    Meet(u32),
    Join { pair: u64, origin: Origin },
}

/// A task out, with the number of entries of its front.
#[derive(Clone, Copy, PartialEq, Eq, Debug)]
pub struct Out {
    pub ticket: u64,
    pub worker: u32,
    pub work: Work,
    pub front: usize,
}

/// What comes of a task.
#[derive(Drop)]
pub enum Found {
    Ends {
        left: Vec<Leg>,
        right: Vec<Leg>,
        stop: Stop,
    },
    Joined,
    Kept(Sides),
    Stale(u32),
    Met {
        kills: Vec<u32>,
        overlaps: Vec<Formed>,
    },
}

/// What a draw answers.
#[derive(Clone, Copy, PartialEq, Eq, Debug)]
pub enum Answer {
    Task(Out),
    Idle(usize),
    Drained,
    Closed(Verdict),
}

#[derive(Drop)]
pub struct Machine {
    pub lines: Vec<Line>,
    pub meetings: Vec<Meeting>,
    pub pairs: Vec<Pair>,
    pub goals: Vec<Goal>,
    pub out: Vec<Out>,
    pub budget: u32,
    pub limit: u32,
    pub verdict: Option<Verdict>,
    pub history: Vec<Event>,
    /// How many results and tickets weren't out.
    pub refused: u64,
}

fn is_draw(what: Happening) -> bool {
    match what {
        Happening::DrawGoal { .. } | Happening::DrawMore { .. } => true,
        Happening::DrawMeet { .. } | Happening::DrawJoin { .. } => true,
        _ => false,
    }
}

fn is_commit(what: Happening) -> bool {
    match what {
        Happening::CommitGoal { .. } | Happening::CommitMore { .. } => true,
        Happening::CommitMeet { .. } | Happening::CommitJoined { .. } => true,
        Happening::CommitKept { .. } | Happening::CommitLate { .. } => true,
        _ => false,
    }
}

/// A number as one of 32 bits; those of the tests are small.
pub fn small(n: usize) -> u32 {
    if n < 1_000_000_000 {
        n as u32
    } else {
        1_000_000_000
    }
}

pub fn more(n: u32) -> u32 {
    n.saturating_add(1)
}

pub fn is_unit(work: Work) -> bool {
    match work {
        Work::More { .. } | Work::Join { .. } => true,
        Work::Goal { .. } | Work::Meet(_) => false,
    }
}

fn ending(verdict: Verdict) -> Ending {
    match verdict {
        Verdict::Proved(_) => Ending::Proved,
        Verdict::Saturated => Ending::Saturated,
        Verdict::BudgetOut { .. } => Ending::Budget,
        Verdict::PairsOut { .. } => Ending::Pairs,
        Verdict::LargeOverlap(_) | Verdict::LargeGoal(_) => Ending::Size,
    }
}

fn draw_event(work: Work, front: u32) -> Happening {
    match work {
        Work::Goal { goal, .. } => Happening::DrawGoal { goal, front },
        Work::More { goal, .. } => Happening::DrawMore { goal, front },
        Work::Meet(fact) => Happening::DrawMeet { fact, front },
        Work::Join { pair, .. } => Happening::DrawJoin { pair, front },
    }
}

fn reclaim_event(work: Work) -> Happening {
    match work {
        Work::Goal { goal, .. } => Happening::ReclaimGoal { goal },
        Work::More { goal, .. } => Happening::ReclaimMore { goal },
        Work::Meet(fact) => Happening::ReclaimMeet { fact },
        Work::Join { pair, .. } => Happening::ReclaimJoin { pair },
    }
}

fn way_at(alloc: Global, end: u64) -> Way {
    Way {
        marks: Vec::new(alloc),
        end,
    }
}

/// A book of axioms with so many nodes, and of goals whose sides have these marks. Axiom `k` is pair `k`, and every goal is due.
/// More axioms than the limit close it at once.
pub fn start(
    alloc: Global,
    axioms: &[u32],
    goals: &[(u64, u64)],
    budget: u32,
    limit: u32,
) -> Result<Machine, AllocError> {
    let mut machine = Machine {
        lines: Vec::new(alloc),
        meetings: Vec::new(alloc),
        pairs: Vec::new(alloc),
        goals: Vec::new(alloc),
        out: Vec::new(alloc),
        budget,
        limit,
        verdict: None,
        history: Vec::new(alloc),
        refused: 0,
    };
    machine.adds_goals(alloc, goals)?;
    if axioms.len() > limit as usize {
        let new = axioms.len() as u64;
        machine.closes(0, Verdict::PairsOut { waiting: 0, new })?;
        return Ok(machine);
    }
    machine.adds_axioms(axioms)?;
    Ok(machine)
}

// What is read off the lists.
impl Machine {
    // how many facts are born
    pub fn births(&self) -> u32 {
        let mut count = 0;
        for k in 0..self.lines.len() {
            if let Line::Born(_) = self.lines[k] {
                count = more(count);
            }
        }
        count
    }

    // the nodes of a fact's sides
    pub fn weight_of(&self, fact: u32) -> u32 {
        let mut number = 0;
        for k in 0..self.lines.len() {
            if let Line::Born(sides) = self.lines[k] {
                if number == fact {
                    return sides.weight;
                }
                number = more(number);
            }
        }
        0
    }

    pub fn is_dead(&self, number: u32) -> bool {
        for k in 0..self.lines.len() {
            if let Line::Dies { fact, .. } = self.lines[k] {
                if fact == number {
                    return true;
                }
            }
        }
        false
    }

    pub fn is_orphan(&self, origin: Origin) -> bool {
        match origin {
            Origin::Overlap(overlap) => self.is_dead(overlap.outer) || self.is_dead(overlap.inner),
            Origin::Axiom(_) | Origin::Revived(_) => false,
        }
    }

    pub fn waiting(&self) -> usize {
        let mut count: usize = 0;
        for k in 0..self.pairs.len() {
            if self.pairs[k].state == State::Waiting {
                count = count.saturating_add(1);
            }
        }
        count
    }

    // how many Joins and Mores are out
    pub fn reserved(&self) -> u32 {
        let mut count = 0;
        for k in 0..self.out.len() {
            if is_unit(self.out[k].work) {
                count = more(count);
            }
        }
        count
    }

    // how many tasks were drawn
    pub fn draws(&self) -> u64 {
        let mut count: u64 = 0;
        for k in 0..self.history.len() {
            if is_draw(self.history[k].what) {
                count = count.saturating_add(1);
            }
        }
        count
    }

    // whether a Join or a More was drawn under this ticket
    fn drew_unit(&self, ticket: u64) -> bool {
        let mut count: u64 = 0;
        for k in 0..self.history.len() {
            let what = self.history[k].what;
            if is_draw(what) {
                if count == ticket {
                    return match what {
                        Happening::DrawMore { .. } | Happening::DrawJoin { .. } => true,
                        _ => false,
                    };
                }
                count = count.saturating_add(1);
            }
        }
        false
    }

    fn is_counted(&self, what: Happening) -> bool {
        match what {
            Happening::CommitMore { .. } | Happening::CommitJoined { .. } => true,
            Happening::CommitKept { .. } | Happening::AuditKept { .. } => true,
            Happening::CommitLate { ticket } => self.drew_unit(ticket),
            _ => false,
        }
    }

    // how many units the history counts
    pub fn counted(&self) -> u32 {
        let mut count = 0;
        for k in 0..self.history.len() {
            if self.is_counted(self.history[k].what) {
                count = more(count);
            }
        }
        count
    }

    // how many draws of the queue gave a pair
    pub fn taken(&self) -> u64 {
        let mut count: u64 = 0;
        for k in 0..self.history.len() {
            match self.history[k].what {
                Happening::DrawJoin { .. } | Happening::Dropped { .. } => {
                    count = count.saturating_add(1)
                }
                _ => (),
            }
        }
        count
    }

    // how many commits a worker made
    pub fn commits_of(&self, worker: u32) -> u64 {
        let mut count: u64 = 0;
        for k in 0..self.history.len() {
            let event = self.history[k];
            if event.worker == worker && is_commit(event.what) {
                count = count.saturating_add(1);
            }
        }
        count
    }

    // the least pair that waits
    fn oldest(&self) -> Option<usize> {
        for k in 0..self.pairs.len() {
            if self.pairs[k].state == State::Waiting {
                return Some(k);
            }
        }
        None
    }

    // the least pair that waits, by weight and then number
    fn lightest(&self) -> Option<usize> {
        let mut best: Option<usize> = None;
        for k in 0..self.pairs.len() {
            if self.pairs[k].state == State::Waiting && self.is_lighter(k, best) {
                best = Some(k);
            }
        }
        best
    }

    fn is_lighter(&self, pair: usize, best: Option<usize>) -> bool {
        match best {
            Some(other) => {
                pair < self.pairs.len()
                    && other < self.pairs.len()
                    && self.pairs[pair].weight < self.pairs[other].weight
            }
            None => true,
        }
    }

    // what the queue's next draw takes: each fifth takes the oldest
    pub fn head(&self) -> Option<usize> {
        if self.taken() % 5 == 4 {
            self.oldest()
        } else {
            self.lightest()
        }
    }

    pub fn origin_of(&self, pair: usize) -> Origin {
        if pair < self.pairs.len() {
            self.pairs[pair].origin
        } else {
            Origin::Axiom(0)
        }
    }

    // the head, where it has a dead parent
    fn orphan_at_head(&self) -> Option<usize> {
        match self.head() {
            Some(head) if self.is_orphan(self.origin_of(head)) => Some(head),
            _ => None,
        }
    }

    fn first_goal(&self, stage: Stage) -> Option<usize> {
        for k in 0..self.goals.len() {
            if self.goals[k].stage == stage {
                return Some(k);
            }
        }
        None
    }

    fn first_unmet(&self) -> Option<u32> {
        for k in 0..self.meetings.len() {
            if self.meetings[k] == Meeting::Unmet {
                return Some(small(k));
            }
        }
        None
    }

    // the marks of a goal's ends
    fn ends_of(&self, goal: usize) -> (u64, u64) {
        if goal < self.goals.len() {
            (self.goals[goal].left.end, self.goals[goal].right.end)
        } else {
            (0, 0)
        }
    }
}

// What changes one thing.
impl Machine {
    fn adds_axioms(&mut self, axioms: &[u32]) -> Result<(), AllocError> {
        for k in 0..axioms.len() {
            self.pairs.push(Pair {
                origin: Origin::Axiom(small(k)),
                weight: axioms[k],
                state: State::Waiting,
            })?;
        }
        Ok(())
    }

    fn adds_goals(&mut self, alloc: Global, goals: &[(u64, u64)]) -> Result<(), AllocError> {
        for k in 0..goals.len() {
            self.goals.push(Goal {
                stage: Stage::Due,
                left: way_at(alloc, goals[k].0),
                right: way_at(alloc, goals[k].1),
            })?;
        }
        Ok(())
    }

    pub fn records(&mut self, worker: u32, what: Happening) -> Result<(), AllocError> {
        self.history.push(Event { worker, what })?;
        Ok(())
    }

    pub fn closes(&mut self, worker: u32, verdict: Verdict) -> Result<(), AllocError> {
        self.verdict = Some(verdict);
        self.records(worker, Happening::Close(ending(verdict)))
    }

    pub fn turns(&mut self, pair: usize, state: State) {
        if pair < self.pairs.len() {
            self.pairs[pair].state = state;
        }
    }

    pub fn stages(&mut self, goal: u32, stage: Stage) {
        if (goal as usize) < self.goals.len() {
            self.goals[goal as usize].stage = stage;
        }
    }

    pub fn settles(&mut self, fact: u32, meeting: Meeting) {
        if (fact as usize) < self.meetings.len() {
            self.meetings[fact as usize] = meeting;
        }
    }

    // every goal that is settled or stuck is due again
    pub fn enters(&mut self, line: Line) -> Result<(), AllocError> {
        self.lines.push(line)?;
        for k in 0..self.goals.len() {
            let stage = self.goals[k].stage;
            if stage == Stage::Settled || stage == Stage::Stuck {
                self.goals[k].stage = Stage::Due;
            }
        }
        Ok(())
    }

    pub fn refuses(&mut self) {
        self.refused = self.refused.saturating_add(1);
    }

    pub fn publishes(&mut self, sides: Sides) -> Result<(), AllocError> {
        self.enters(Line::Born(sides))?;
        self.meetings.push(Meeting::Unmet)?;
        Ok(())
    }
}

// Draws.
impl Machine {
    fn gives(&mut self, worker: u32, work: Work) -> Result<Answer, AllocError> {
        let out = Out {
            ticket: self.draws(),
            worker,
            work,
            front: self.lines.len(),
        };
        self.records(worker, draw_event(work, small(out.front)))?;
        self.out.push(out)?;
        self.leaves(worker, work);
        Ok(Answer::Task(out))
    }

    // what the task is about is out
    fn leaves(&mut self, worker: u32, work: Work) {
        match work {
            Work::Goal { goal, .. } => self.stages(goal, Stage::Busy),
            Work::More { goal, .. } => self.stages(goal, Stage::Busy),
            Work::Meet(fact) => self.settles(fact, Meeting::Visiting),
            Work::Join { pair, .. } => self.turns(pair as usize, State::Out(worker)),
        }
    }

    fn drops(&mut self, worker: u32) -> Result<(), AllocError> {
        for _ in 0..self.pairs.len() {
            let Some(pair) = self.orphan_at_head() else {
                return Ok(());
            };
            self.turns(pair, State::Orphan);
            self.records(worker, Happening::Dropped { pair: pair as u64 })?;
        }
        Ok(())
    }

    pub fn draw(&mut self, worker: u32) -> Result<Answer, AllocError> {
        if let Some(verdict) = self.verdict {
            return Ok(Answer::Closed(verdict));
        }
        if let Some(k) = self.first_goal(Stage::Due) {
            let (left, right) = self.ends_of(k);
            let goal = small(k);
            return self.gives(worker, Work::Goal { goal, left, right });
        }
        if let Some(fact) = self.first_unmet() {
            return self.gives(worker, Work::Meet(fact));
        }
        self.drops(worker)?;
        if let Some(k) = self.first_goal(Stage::Continued) {
            let (left, right) = self.ends_of(k);
            let goal = small(k);
            return self.gives_unit(worker, Work::More { goal, left, right });
        }
        if let Some(head) = self.head() {
            let origin = self.origin_of(head);
            let pair = head as u64;
            return self.gives_unit(worker, Work::Join { pair, origin });
        }
        if self.out.is_empty() {
            return Ok(Answer::Drained);
        }
        Ok(Answer::Idle(self.out.len()))
    }

    // as far as the budget allows it
    fn gives_unit(&mut self, worker: u32, work: Work) -> Result<Answer, AllocError> {
        let counted = self.counted();
        if counted.saturating_add(self.reserved()) < self.budget {
            return self.gives(worker, work);
        }
        if !self.out.is_empty() {
            return Ok(Answer::Idle(self.out.len()));
        }
        let verdict = Verdict::BudgetOut { counted };
        self.closes(worker, verdict)?;
        Ok(Answer::Closed(verdict))
    }
}

// The calls that are neither draws nor commits.
impl Machine {
    // what the task was about waits again
    fn returns(&mut self, out: Out) {
        match out.work {
            Work::Goal { goal, .. } => self.stages(goal, Stage::Due),
            Work::More { goal, .. } => self.stages(goal, Stage::Continued),
            Work::Meet(fact) => {
                let meeting = if self.is_dead(fact) {
                    Meeting::Met
                } else {
                    Meeting::Unmet
                };
                self.settles(fact, meeting)
            }
            Work::Join { pair, .. } => self.turns(pair as usize, State::Waiting),
        }
    }

    /// False where the ticket isn't out to the worker.
    pub fn reclaim(&mut self, worker: u32, ticket: u64) -> Result<bool, AllocError> {
        for at in 0..self.out.len() {
            let out = self.out[at];
            if out.ticket == ticket && out.worker == worker {
                self.out.remove(at);
                self.returns(out);
                self.records(worker, reclaim_event(out.work))?;
                return Ok(true);
            }
        }
        self.refuses();
        Ok(false)
    }

    /// Tasks stand in the order in which they were drawn, so the first one has the least ticket.
    pub fn recall(&mut self) -> Result<(), AllocError> {
        for _ in 0..self.out.len() {
            if !self.out.is_empty() {
                let out = self.out[0];
                self.reclaim(out.worker, out.ticket)?;
            }
        }
        Ok(())
    }

    /// The number of the fact; none where a verdict stands then.
    pub fn audit(&mut self, sides: Sides) -> Result<Option<u32>, AllocError> {
        if self.verdict.is_some() {
            return Ok(None);
        }
        let counted = self.counted();
        if counted == self.budget {
            self.closes(0, Verdict::BudgetOut { counted })?;
            return Ok(None);
        }
        let fact = self.births();
        self.publishes(sides)?;
        self.records(0, Happening::AuditKept { fact })?;
        Ok(Some(fact))
    }

    pub fn close(&mut self, verdict: Verdict) -> Result<(), AllocError> {
        self.closes(0, verdict)
    }
}
