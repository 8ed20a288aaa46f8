//! The machine's commits.

use crate::machine::{Found, Leg, Line, Machine, Out, Pair, Sides, Way, Work, small};
use std::alloc::{AllocError, Global};
use uc_fact::{Origin, Stop};
use uc_ledger::State;
use uc_machine::{GoalEnd, Happening, Meeting, Stage, Verdict};
use uc_pair::{Formed, Size};

fn goal_end(met: bool, stop: Stop) -> GoalEnd {
    if met {
        return GoalEnd::Met;
    }
    match stop {
        Stop::Full => GoalEnd::Full,
        Stop::Steps => GoalEnd::Steps,
        Stop::Size => GoalEnd::Size,
    }
}

fn has(list: &[u32], number: u32) -> bool {
    for k in 0..list.len() {
        if list[k] == number {
            return true;
        }
    }
    false
}

fn goes_on(way: &mut Way, legs: &[Leg]) -> Result<(), AllocError> {
    for k in 0..legs.len() {
        way.marks.push(legs[k].mark)?;
        way.end = legs[k].to;
    }
    Ok(())
}

impl Machine {
    fn has_front(&self, front: usize, lines: &[Line]) -> bool {
        if lines.len() != front {
            return false;
        }
        for k in 0..lines.len() {
            if k >= self.lines.len() || self.lines[k] != lines[k] {
                return false;
            }
        }
        true
    }

    // the task of this ticket, work and list of entries that is out to the worker ends
    fn ends(&mut self, worker: u32, ticket: u64, work: Work, lines: &[Line]) -> Option<Out> {
        for at in 0..self.out.len() {
            let out = self.out[at];
            if out.ticket == ticket
                && out.worker == worker
                && out.work == work
                && self.has_front(out.front, lines)
            {
                self.out.remove(at);
                return Some(out);
            }
        }
        None
    }

    /// The number of the commit's event; none where no such task is out to the worker.
    pub fn commit(
        &mut self,
        alloc: Global,
        worker: u32,
        ticket: u64,
        work: Work,
        lines: &[Line],
        found: &Found,
    ) -> Result<Option<usize>, AllocError> {
        let Some(out) = self.ends(worker, ticket, work, lines) else {
            self.refuses();
            return Ok(None);
        };
        let event = self.history.len().saturating_add(1);
        if self.verdict.is_some() {
            self.records(worker, Happening::CommitLate { ticket })?;
        } else {
            self.takes(alloc, out, found)?;
        }
        Ok(Some(event))
    }

    fn takes(&mut self, alloc: Global, out: Out, found: &Found) -> Result<(), AllocError> {
        match (out.work, found) {
            (Work::Goal { goal, .. }, Found::Ends { left, right, stop }) => {
                self.moves(out, goal, left, right, *stop)
            }
            (Work::More { goal, .. }, Found::Ends { left, right, stop }) => {
                self.moves(out, goal, left, right, *stop)
            }
            (Work::Join { pair, .. }, Found::Joined) => {
                self.turns(pair as usize, State::Done);
                self.records(out.worker, Happening::CommitJoined { pair })
            }
            (Work::Join { pair, .. }, Found::Kept(sides)) => self.keeps(out, pair, *sides),
            (Work::Meet(fact), Found::Stale(killer)) => {
                let kills = [fact];
                self.meets(alloc, out, *killer, &kills, &[])
            }
            (Work::Meet(fact), Found::Met { kills, overlaps }) => {
                if self.is_dead(fact) {
                    self.meets(alloc, out, fact, &[], &[])
                } else {
                    self.meets(alloc, out, fact, kills, overlaps)
                }
            }
            _ => Ok(()),
        }
    }

    fn keeps(&mut self, out: Out, pair: u64, sides: Sides) -> Result<(), AllocError> {
        self.turns(pair as usize, State::Done);
        let fact = self.births();
        self.records(out.worker, Happening::CommitKept { pair, fact })?;
        self.publishes(sides)
    }

    // a goal's ends are taken over
    fn moves(
        &mut self,
        out: Out,
        goal: u32,
        left: &[Leg],
        right: &[Leg],
        stop: Stop,
    ) -> Result<(), AllocError> {
        let number = goal as usize;
        if number >= self.goals.len() {
            return Ok(());
        }
        goes_on(&mut self.goals[number].left, left)?;
        goes_on(&mut self.goals[number].right, right)?;
        let met = self.goals[number].left.end == self.goals[number].right.end;
        let steps = small(left.len().saturating_add(right.len()));
        let end = goal_end(met, stop);
        if let Work::More { .. } = out.work {
            self.records(out.worker, Happening::CommitMore { goal, steps, end })?;
        } else {
            self.records(out.worker, Happening::CommitGoal { goal, steps, end })?;
        }
        if met {
            return self.closes(out.worker, Verdict::Proved(goal));
        }
        self.rests(out, goal, stop);
        Ok(())
    }

    // a goal whose ends differ gets its state
    fn rests(&mut self, out: Out, goal: u32, stop: Stop) {
        let has_grown = self.lines.len() > out.front;
        let stage = match stop {
            Stop::Steps => Stage::Continued,
            Stop::Full | Stop::Size if has_grown => Stage::Due,
            Stop::Full => Stage::Settled,
            Stop::Size => Stage::Stuck,
        };
        self.stages(goal, stage);
    }

    fn dies(&mut self, fact: u32, killer: u32) -> Result<(), AllocError> {
        let weight = self.weight_of(fact);
        self.enters(Line::Dies { fact, killer })?;
        self.pairs.push(Pair {
            origin: Origin::Revived(fact),
            weight,
            state: State::Waiting,
        })?;
        let number = fact as usize;
        if number < self.meetings.len() && self.meetings[number] == Meeting::Unmet {
            self.settles(fact, Meeting::Met);
        }
        Ok(())
    }

    // those that aren't dead yet, each once
    fn fallen(&self, alloc: Global, kills: &[u32]) -> Result<Vec<u32>, AllocError> {
        let mut list: Vec<u32> = Vec::new(alloc);
        for k in 0..kills.len() {
            if !self.is_dead(kills[k]) && !has(&list, kills[k]) {
                list.push(kills[k])?;
            }
        }
        Ok(list)
    }

    // the state of an overlap's pair, where these facts die first
    fn state_of(&self, fallen: &[u32], formed: Formed) -> State {
        let parents = formed.overlap;
        match formed.size {
            Size::Same => State::Done,
            Size::Large => State::Large,
            Size::Weight(_) => {
                let dead = self.is_orphan(Origin::Overlap(parents));
                if dead || has(fallen, parents.outer) || has(fallen, parents.inner) {
                    State::Orphan
                } else {
                    State::Waiting
                }
            }
        }
    }

    fn newly_waiting(&self, fallen: &[u32], overlaps: &[Formed]) -> usize {
        let mut count: usize = 0;
        for k in 0..overlaps.len() {
            if self.state_of(fallen, overlaps[k]) == State::Waiting {
                count = count.saturating_add(1);
            }
        }
        count
    }

    fn meets(
        &mut self,
        alloc: Global,
        out: Out,
        killer: u32,
        kills: &[u32],
        overlaps: &[Formed],
    ) -> Result<(), AllocError> {
        let Work::Meet(fact) = out.work else {
            return Ok(());
        };
        self.settles(fact, Meeting::Met);
        let fallen = self.fallen(alloc, kills)?;
        let pairs = self.newly_waiting(&fallen, overlaps);
        let new = pairs.saturating_add(fallen.len());
        let waiting = self.waiting();
        if waiting.saturating_add(new) > self.limit as usize {
            return self.overflows(out.worker, fact, small(waiting), new as u64);
        }
        let event = Happening::CommitMeet {
            fact,
            pairs: pairs as u64,
            kills: small(fallen.len()),
        };
        self.records(out.worker, event)?;
        for k in 0..fallen.len() {
            self.dies(fallen[k], killer)?;
        }
        self.forms(overlaps)
    }

    fn overflows(
        &mut self,
        worker: u32,
        fact: u32,
        waiting: u32,
        new: u64,
    ) -> Result<(), AllocError> {
        let event = Happening::CommitMeet {
            fact,
            pairs: 0,
            kills: 0,
        };
        self.records(worker, event)?;
        self.closes(worker, Verdict::PairsOut { waiting, new })
    }

    fn forms(&mut self, overlaps: &[Formed]) -> Result<(), AllocError> {
        for k in 0..overlaps.len() {
            let state = self.state_of(&[], overlaps[k]);
            let weight = match overlaps[k].size {
                Size::Weight(weight) => weight,
                Size::Same | Size::Large => 0,
            };
            self.pairs.push(Pair {
                origin: Origin::Overlap(overlaps[k].overlap),
                weight,
                state,
            })?;
        }
        Ok(())
    }
}
