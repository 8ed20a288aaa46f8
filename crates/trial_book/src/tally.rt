//! How often each kind of happening was there, so that it is seen what the runs went through.

use crate::machine::{Machine, Pair};
use std::fmt;
use uc_fact::Origin;
use uc_ledger::State;
use uc_machine::{Ending, Happening};

/// How often each kind of happening was there.
#[derive(Clone, Copy)]
pub struct Tally {
    pub events: u64,
    pub draws: u64,
    pub meets: u64,
    pub kills: u64,
    pub pairs: u64,
    /// Pairs of dead facts that were worked through.
    pub revived: u64,
    /// Draws of the queue that took the oldest pair.
    pub oldest: u64,
    pub drops: u64,
    pub late: u64,
    /// Results and tickets that weren't out.
    pub refused: u64,
    pub reclaims: u64,
    pub audits: u64,
    pub proved: u64,
    pub saturated: u64,
    pub spent: u64,
    /// Books that were closed for their pairs: by a meeting, and at the start.
    pub crowded: u64,
    pub too_many: u64,
}

fn raised(count: &mut u64) {
    *count = count.saturating_add(1);
}

impl Tally {
    pub fn new() -> Tally {
        Tally {
            events: 0,
            draws: 0,
            meets: 0,
            kills: 0,
            pairs: 0,
            revived: 0,
            oldest: 0,
            drops: 0,
            late: 0,
            refused: 0,
            reclaims: 0,
            audits: 0,
            proved: 0,
            saturated: 0,
            spent: 0,
            crowded: 0,
            too_many: 0,
        }
    }

    /// Adds a run that ended so.
    pub fn adds(&mut self, machine: &Machine) {
        for k in 0..machine.history.len() {
            raised(&mut self.events);
            self.adds_event(k, machine.history[k].what);
        }
        for k in 0..machine.pairs.len() {
            self.adds_pair(machine.pairs[k]);
        }
        self.oldest = self.oldest.saturating_add(machine.taken() / 5);
        self.refused = self.refused.saturating_add(machine.refused);
    }

    fn adds_pair(&mut self, pair: Pair) {
        match (pair.origin, pair.state) {
            (Origin::Revived(_), State::Done) => raised(&mut self.revived),
            _ => (),
        }
    }

    fn adds_event(&mut self, number: usize, what: Happening) {
        match what {
            Happening::DrawGoal { .. } | Happening::DrawMore { .. } => raised(&mut self.draws),
            Happening::DrawMeet { .. } | Happening::DrawJoin { .. } => raised(&mut self.draws),
            Happening::CommitMeet { pairs, kills, .. } => self.adds_meet(pairs, kills),
            Happening::CommitLate { .. } => raised(&mut self.late),
            Happening::Dropped { .. } => raised(&mut self.drops),
            Happening::ReclaimGoal { .. } => raised(&mut self.reclaims),
            Happening::ReclaimMore { .. } => raised(&mut self.reclaims),
            Happening::ReclaimMeet { .. } => raised(&mut self.reclaims),
            Happening::ReclaimJoin { .. } => raised(&mut self.reclaims),
            Happening::AuditKept { .. } => raised(&mut self.audits),
            Happening::Close(ending) => self.adds_close(number, ending),
            _ => (),
        }
    }

    fn adds_meet(&mut self, pairs: u64, kills: u32) {
        raised(&mut self.meets);
        self.kills = self.kills.saturating_add(kills as u64);
        self.pairs = self.pairs.saturating_add(pairs);
    }

    fn adds_close(&mut self, number: usize, ending: Ending) {
        match ending {
            Ending::Proved => raised(&mut self.proved),
            Ending::Saturated => raised(&mut self.saturated),
            Ending::Budget => raised(&mut self.spent),
            Ending::Pairs if number == 0 => raised(&mut self.too_many),
            Ending::Pairs => raised(&mut self.crowded),
            Ending::Size => (),
        }
    }
}

impl fmt::Display for Tally {
    fn fmt<W: fmt::Write>(&self, f: &mut fmt::Formatter<W>) -> fmt::Result {
        write!(f, "draws {} meets {} ", self.draws, self.meets)?;
        write!(f, "kills {} pairs {} ", self.kills, self.pairs)?;
        write!(f, "revived {} oldest {} ", self.revived, self.oldest)?;
        write!(f, "drops {} late {} ", self.drops, self.late)?;
        write!(f, "refused {} reclaims {} ", self.refused, self.reclaims)?;
        write!(f, "audits {} proved {} ", self.audits, self.proved)?;
        write!(f, "saturated {} spent {} ", self.saturated, self.spent)?;
        write!(f, "crowded {} too many {}", self.crowded, self.too_many)
    }
}
