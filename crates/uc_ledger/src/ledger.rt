// One state a pair, in a list by the pairs' numbers.

ghost use Rattle.std.specs.Prelude.{◌≡◌, ◌+◌, ◌-◌, ◌<◌, ◌≤◌, [], ◌++◌, length, IfOk, IsTrue, ◌↔◌, MatchResult, OnOk, OnErr};
ghost use Rattle.std.specs.List.{slice_get};
ghost use Rattle.uc_ledger.specs.declared.ledger.State.TheVariants.{Waiting, Out, Done, Orphan};
ghost use Rattle.uc_ledger.specs.Entries.{Turns, StaysAs};

use std::alloc::{AllocError, Global};
use std::marker::Model;
use std::mem::size_of;
use thiserror::Error;

/// The state of a pair.
#[derive(Clone, Copy, Debug, PartialEq, Eq)]
pub enum State {
    /// It stands in the queue.
    Waiting,
    /// It was given to the worker of this number.
    Out(u32),
    /// It was worked through.
    Done,
    /// One of the facts that it comes from is dead.
    Orphan,
    /// It is larger than a term may be.
    Large,
}

// a pair's state is kept in at most eight bytes
const _: () = prove!(size_of::<State>() <= 8);

/// The pair isn't in the state that the call asks for: the state that it is in, or none where there is no such pair.
#[derive(Debug, Drop, Error)]
#[error("the pair is not in the state that the call asks for: {0:?}")]
pub struct NotThere(pub Option<State>);

/// The states of all pairs that were met, by number, from 0.
#[derive(Drop)]
pub struct Ledger {
    states: Vec<State>,
}

impl Model for Ledger {
    ghost use Rattle.std.specs.Prelude.{◌-◌, vec_len, vec_capacity};
    ghost use Rattle.uc_ledger.specs.Entries.{Entries};

    ghost Value = { Entries };

    ghost view = { λ l. record { states = l.states.items; spare = vec_capacity l.states - vec_len l.states } };
}

impl Ledger {
    /// A ledger with no pair.
    pub fn new(alloc: Global) -> Result<Ledger, AllocError>
        ensures { IfOk result (λ l. l.states ≡ []) }
    {
        Ok(Ledger {
            states: Vec::new(alloc),
        })
    }

    /// Makes room for at least this many more pairs.
    pub fn reserve(&mut self, _alloc: Global, more: u32) -> Result<(), AllocError>
        ensures states { self.new.states ≡ self.old.states }
        ensures room { OnOk result (more ≤ self.new.spare) }
        ensures kept { self.old.spare ≤ self.new.spare }
        ensures refused { OnErr result (self.old.spare < more) }
    {
        self.states.reserve(more as usize)
    }

    /// Appends the states of further pairs, which get the next numbers in order.
    pub fn meet(&mut self, _alloc: Global, states: &[State]) -> Result<(), AllocError>
        ensures met { OnOk result (self.new.states ≡ self.old.states ++ states.now) }
        ensures room { self.old.spare ≤ self.new.spare + length states.now }
        ensures refused { OnErr result (self.old.spare < length states.now) }
        ensures same { OnErr result (self.new.states ≡ self.old.states) }
        ensures kept { OnErr result (self.old.spare ≤ self.new.spare) }
    {
        self.states.extend_from_slice(states)
    }

    /// Gives a waiting pair to a worker.
    pub fn take(&mut self, number: u64, worker: u32) -> Result<(), NotThere>
        ensures { MatchResult result (λ _. Turns number Waiting (Out worker) self.old self.new) (λ e. StaysAs e.0 number Waiting self.old self.new) }
    {
        self.turn(number, State::Waiting, State::Out(worker))
    }

    /// Ends a pair that is out to this worker.
    pub fn finish(&mut self, number: u64, worker: u32) -> Result<(), NotThere>
        ensures { MatchResult result (λ _. Turns number (Out worker) Done self.old self.new) (λ e. StaysAs e.0 number (Out worker) self.old self.new) }
    {
        self.turn(number, State::Out(worker), State::Done)
    }

    /// Lets a pair that is out to this worker wait again.
    pub fn give_back(&mut self, number: u64, worker: u32) -> Result<(), NotThere>
        ensures { MatchResult result (λ _. Turns number (Out worker) Waiting self.old self.new) (λ e. StaysAs e.0 number (Out worker) self.old self.new) }
    {
        self.turn(number, State::Out(worker), State::Waiting)
    }

    /// Ends a waiting pair, one of whose facts is dead.
    pub fn orphan(&mut self, number: u64) -> Result<(), NotThere>
        ensures { MatchResult result (λ _. Turns number Waiting Orphan self.old self.new) (λ e. StaysAs e.0 number Waiting self.old self.new) }
    {
        self.turn(number, State::Waiting, State::Orphan)
    }

    /// Lets an orphan wait again.
    pub fn readmit(&mut self, number: u64) -> Result<(), NotThere>
        ensures { MatchResult result (λ _. Turns number Orphan Waiting self.old self.new) (λ e. StaysAs e.0 number Orphan self.old self.new) }
    {
        self.turn(number, State::Orphan, State::Waiting)
    }

    /// The state of the pair of this number; none where the number wasn't met.
    pub fn state(&self, number: u64) -> Option<State>
        ensures { result ≡ slice_get self.now.states number }
    {
        self.states.get(number as usize).copied()
    }

    /// How many pairs were met, which is the next pair's number.
    pub fn len(&self) -> usize
        ensures { result ≡ length self.now.states }
    {
        self.states.len()
    }

    /// Whether no pair was met.
    pub fn is_empty(&self) -> bool
        ensures { IsTrue result ↔ (self.now.states ≡ []) }
    {
        self.states.is_empty()
    }

    // the one way in which a pair's state changes
    fn turn(&mut self, number: u64, from: State, to: State) -> Result<(), NotThere>
        ensures { MatchResult result (λ _. Turns number from to self.old self.new) (λ e. StaysAs e.0 number from self.old self.new) }
    {
        match self.state(number) {
            Some(found) if found == from => {
                self.states[number as usize] = to;
                Ok(())
            }
            found => Err(NotThere(found)),
        }
    }
}
