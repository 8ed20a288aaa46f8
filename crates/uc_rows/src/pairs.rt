//! The pairs: what each comes from, the one state that it is in, and those that wait.

ghost use Rattle.std.specs.Prelude.{◌≡◌, ℕ, ◌+◌, ◌<◌, ◌≤◌, ◌++◌, ◌∷◌, [], cond, length, min, Some, None, slice_get, IfOk, OnOk, OnErr, MatchOption, option_map};
ghost use Rattle.uc_queue.specs.declared.entry.Entry.{Entry as Place};
ghost use Rattle.uc_ledger.specs.declared.ledger.State.TheVariants.{Waiting, Out as OutTo, Done, Orphan};
ghost use Rattle.uc_machine.specs.Lists.{change, map_option};
ghost use Rattle.uc_queue.specs.Queue.{IsNew, with_entry};
ghost use Rattle.uc_machine.specs.State.{Pair, is_waiting, next_draws};
ghost use Rattle.uc_rows.specs.PairRows.{queue_in, head_in, IsHead};

use std::alloc::{AllocError, Global};
use std::marker::Model;
use std::mem::size_of;
use uc_fact::Origin;
use uc_ledger::{Ledger, State};
use uc_queue::{Entry, Passive};

/// What a pair comes from, and how many nodes its two sides have together.
#[derive(Clone, Copy)]
pub struct PairRow {
    pub origin: Origin,
    pub weight: u32,
}

// a pair takes a row and a state; one that waits takes an entry of the queue and a place in each of its two trees besides
const _: () = prove!(size_of::<PairRow>() + size_of::<State>() <= 36);

const _: () = prove!(
    size_of::<PairRow>() + size_of::<State>() + size_of::<Entry>() + 2 * size_of::<u32>() <= 60
);

/// All pairs, by number, with their states. The queue holds those that wait.
#[derive(Drop)]
pub struct Pairs {
    rows: Vec<PairRow>,
    states: Ledger,
    queue: Passive,
}

impl Model for Pairs {
    ghost use Rattle.std.specs.Coded.{codes};
    ghost use Rattle.uc_rows.specs.RowViews.{PairsView};

    ghost Value = { PairsView };

    ghost coded = { Prim.hlevel codes };

    ghost use Rattle.uc_rows.specs.PairRows.{pairs_view, ArePairs};

    ghost view = { pairs_view };

    ghost invariant = { ArePairs };
}

/// One state more, in room that is there.
fn meet_one(alloc: Global, states: &mut Ledger, state: State)
    requires { 1 ≤ states.old.spare }
    ensures states { states.new.states ≡ states.old.states ++ state ∷ [] }
    ensures room { states.old.spare ≤ states.new.spare + 1 }
{
    match states.meet(alloc, &[state]) {
        Ok(()) => (),
        Err(_) => prove!(false),
    }
}

/// Lets a pair wait, where this is its state.
#[inline]
fn wait_if(queue: &mut Passive, state: State, weight: u32, number: u64)
    requires new { IsNew number queue.old.waiting }
    requires room { 1 ≤ queue.old.spare }
    ensures waiting { queue.new.waiting ≡ cond (is_waiting state) (with_entry (record { weight = weight; number = number }) queue.old.waiting) queue.old.waiting }
    ensures draws { queue.new.draws ≡ queue.old.draws }
    ensures room { queue.old.spare ≤ queue.new.spare + 1 }
{
    if let State::Waiting = state {
        queue.back(weight, number);
    }
}

impl Pairs {
    /// No pair.
    pub fn new(alloc: Global) -> Result<Pairs, AllocError>
        ensures pairs { IfOk result (λ p. p.pairs ≡ []) }
        ensures draws { IfOk result (λ p. p.draws ≡ 0) }
    {
        Ok(Pairs {
            rows: Vec::new(alloc),
            states: Ledger::new(alloc)?,
            queue: Passive::new(alloc)?,
        })
    }

    /// Makes room for so many more pairs, and for as many to wait. It answers want of memory only where there is less room,
    /// and the pairs are then as before.
    pub fn reserve(&mut self, alloc: Global, more: u32) -> Result<(), AllocError>
        ensures pairs { self.new.pairs ≡ self.old.pairs }
        ensures draws { self.new.draws ≡ self.old.draws }
        ensures room { OnOk result (more ≤ self.new.room) }
        ensures spare { OnOk result (more ≤ self.new.spare) }
        ensures kept { self.old.spare ≤ self.new.spare }
        ensures kept_room { self.old.room ≤ self.new.room }
        ensures refused { OnErr result (min self.old.room self.old.spare < more) }
    {
        self.rows.reserve(more as usize)?;
        self.states.reserve(alloc, more)?;
        self.queue.reserve(alloc, more)
    }

    /// How many pairs there are.
    pub fn count(&self) -> usize
        ensures { result ≡ length self.now.pairs }
    {
        self.rows.len()
    }

    /// How many pairs wait.
    pub fn waiting(&self) -> usize
        ensures { result ≡ length (queue_in self.now) }
    {
        self.queue.len()
    }

    /// The pair at the queue's head, with what it comes from.
    pub fn head(&self) -> Option<(u64, Origin)>
        ensures { MatchOption result (head_in self.now ≡ None) (λ h. IsHead self.now h.0 h.1) }
    {
        let number = self.queue.peek()?;
        Some((number, self.rows[number as usize].origin))
    }

    /// One pair more, in this state.
    pub fn add(&mut self, alloc: Global, origin: Origin, weight: u32, state: State)
        requires room { 1 ≤ self.old.room }
        requires spare { 1 ≤ self.old.spare }
        ensures pairs { self.new.pairs ≡ self.old.pairs ++ record { origin = origin; weight = weight; condition = state } ∷ [] }
        ensures draws { self.new.draws ≡ self.old.draws }
        ensures room { self.old.room ≤ self.new.room + 1 }
        ensures spare { self.old.spare ≤ self.new.spare + 1 }
    {
        let number = self.rows.len() as u64;
        self.rows.push_reserved(PairRow { origin, weight });
        meet_one(alloc, &mut self.states, state);
        wait_if(&mut self.queue, state, weight, number);
    }

    /// The pair at the queue's head is drawn, and is out to this worker.
    pub fn hand_out(&mut self, number: u64, worker: u32)
        requires { option_map (λ (e : Place). e.number) (head_in self.old) ≡ Some number }
        ensures pairs { self.new.pairs ≡ change (λ (x : Pair). record x { condition = OutTo worker }) self.old.pairs number }
        ensures draws { self.new.draws ≡ next_draws self.old.draws }
        ensures room { self.new.room ≡ self.old.room }
        ensures spare { self.new.spare ≡ self.old.spare + 1 }
    {
        self.queue.draw();
        match self.states.take(number, worker) {
            Ok(()) => (),
            Err(_) => prove!(false),
        }
    }

    /// The pair at the queue's head is drawn, and is an Orphan.
    pub fn drop_head(&mut self, number: u64)
        requires { option_map (λ (e : Place). e.number) (head_in self.old) ≡ Some number }
        ensures pairs { self.new.pairs ≡ change (λ (x : Pair). record x { condition = Orphan }) self.old.pairs number }
        ensures draws { self.new.draws ≡ next_draws self.old.draws }
        ensures room { self.new.room ≡ self.old.room }
        ensures spare { self.new.spare ≡ self.old.spare + 1 }
        ensures modulo { self.old.draws < 5 }
    {
        self.queue.draw();
        match self.states.orphan(number) {
            Ok(()) => (),
            Err(_) => prove!(false),
        }
    }

    /// Takes the last drop back: its pair waits again, and its draw doesn't count.
    pub fn undrop(&mut self, number: u64)
        requires orphan { map_option (λ (x : Pair). x.condition) (slice_get self.old.pairs number) ≡ Some Orphan }
        requires spare { 1 ≤ self.old.spare }
        ensures pairs { self.new.pairs ≡ change (λ (x : Pair). record x { condition = Waiting }) self.old.pairs number }
        ensures draws { next_draws self.new.draws ≡ self.old.draws }
        ensures modulo { self.new.draws < 5 }
        ensures room { self.new.room ≡ self.old.room }
        ensures spare { self.new.spare + 1 ≡ self.old.spare }
    {
        let weight = self.rows[number as usize].weight;
        self.queue.undraw(weight, number);
        match self.states.readmit(number) {
            Ok(()) => (),
            Err(_) => prove!(false),
        }
    }

    /// A pair that is out to this worker is Done.
    pub fn finish(&mut self, number: u64, worker: u32)
        requires { map_option (λ (x : Pair). x.condition) (slice_get self.old.pairs number) ≡ Some (OutTo worker) }
        ensures pairs { self.new.pairs ≡ change (λ (x : Pair). record x { condition = Done }) self.old.pairs number }
        ensures draws { self.new.draws ≡ self.old.draws }
        ensures room { self.new.room ≡ self.old.room }
        ensures spare { self.new.spare ≡ self.old.spare }
    {
        match self.states.finish(number, worker) {
            Ok(()) => (),
            Err(_) => prove!(false),
        }
    }

    /// A pair that is out to this worker waits again.
    pub fn give_back(&mut self, number: u64, worker: u32)
        requires out { map_option (λ (x : Pair). x.condition) (slice_get self.old.pairs number) ≡ Some (OutTo worker) }
        requires spare { 1 ≤ self.old.spare }
        ensures pairs { self.new.pairs ≡ change (λ (x : Pair). record x { condition = Waiting }) self.old.pairs number }
        ensures draws { self.new.draws ≡ self.old.draws }
        ensures room { self.new.room ≡ self.old.room }
        ensures spare { self.new.spare + 1 ≡ self.old.spare }
    {
        let weight = self.rows[number as usize].weight;
        self.queue.back(weight, number);
        match self.states.give_back(number, worker) {
            Ok(()) => (),
            Err(_) => prove!(false),
        }
    }

    /// What a pair comes from, how many nodes its two sides have together, and its state; none, where there is no such pair.
    pub fn row(&self, number: u64) -> Option<(Origin, u32, State)>
        ensures { MatchOption result (slice_get self.now.pairs number ≡ None) (λ r. slice_get self.now.pairs number ≡ Some (record { origin = r.0; weight = r.1; condition = r.2 })) }
    {
        let state = self.states.state(number)?;
        let row = self.rows[number as usize];
        Some((row.origin, row.weight, state))
    }
}
