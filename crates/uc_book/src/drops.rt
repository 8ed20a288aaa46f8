//! Drops: orphans that leave the queue. The room for each is made when it comes, so that a pair that waits keeps none; where it
//! is refused, all drops are taken back.

ghost use Rattle.std.specs.Prelude.{◌≡◌, ℕ, ◌+◌, ◌<◌, ◌≤◌, Some, length, OnOk, OnErr, option_map, vec_len, vec_capacity};
ghost use Rattle.uc_queue.specs.declared.entry.Entry.{Entry as Place};
ghost use Rattle.uc_machine.specs.declared.event.Happening.TheVariants.{Dropped as IsDropped};
ghost use Rattle.uc_machine.specs.State.{Opening, State, peek, queue};
ghost use Rattle.uc_machine.specs.Effects.{drops, next_ticket};
ghost use Rattle.uc_machine.specs.Draws.{Reply, Draws, NoneUnmet, IsLate};
ghost use Rattle.uc_book.specs.Parts.{state_of, IsSteady};
ghost use Rattle.uc_book.specs.Drawing.{HasRoomToGive};
ghost use Rattle.uc_book.specs.Dropping.{Dropped, WasDropped, SameOthers};

use crate::parts::Parts;
use std::alloc::AllocError;
use uc_machine::Happening;

/// The pair that was dropped by an event.
fn dropped_pair(what: Happening) -> u64
    requires { (pair : ℕ) × (what ≡ IsDropped pair) }
    ensures { what ≡ IsDropped result }
{
    match what {
        Happening::Dropped { pair } => pair,
        _ => unreachable!(),
    }
}

impl Parts {
    /// Draws orphans from the queue, until there is none at its head, and keeps the room for a task. Memory is refused only where
    /// there is less room than for as many drops as pairs wait; then the drops are taken back, and the state is as before.
    pub(crate) fn drop_orphans(&mut self, worker: u32) -> Result<(), AllocError>
        requires met { NoneUnmet (state_of self.old) }
        requires room { HasRoomToGive self.old }
        ensures leads { OnOk result ((o : Opening) (r : Reply) (u : State) → Draws o worker (state_of self.new) r u → Draws o worker (state_of self.old) r u) }
        ensures late { OnOk result (IsLate (state_of self.new)) }
        ensures room { OnOk result (HasRoomToGive self.new) }
        ensures others { SameOthers self.old self.new }
        ensures spare { self.old.pairs.spare ≤ self.new.pairs.spare }
        ensures ticket { next_ticket (state_of self.new) ≡ next_ticket (state_of self.old) }
        ensures err { OnErr result (IsSteady self.old self.new) }
        ensures refused { OnErr result (vec_capacity self.old.history < vec_len self.old.history + (length (queue (state_of self.old)) + length self.old.tasks.items + 3)) }
    {
        let kept = self.history.len();
        while let Some(number) = self.orphan_at_head() {
            if let Err(refused) = self.drop_one(worker, number) {
                self.undrop(kept);
                return Err(refused);
            }
        }
        Ok(())
    }

    /// Draws the orphan at the queue's head from it, and keeps the room for a task.
    fn drop_one(&mut self, worker: u32, number: u64) -> Result<(), AllocError>
        requires head { option_map (λ (p : Place). p.number) (peek (state_of self.old)) ≡ Some number }
        requires room { HasRoomToGive self.old }
        ensures state { OnOk result (state_of self.new ≡ drops worker number (state_of self.old)) }
        ensures room { HasRoomToGive self.new }
        ensures others { SameOthers self.old self.new }
        ensures spare { OnOk result (self.new.pairs.spare ≡ self.old.pairs.spare + 1) }
        ensures modulo { OnOk result (self.old.pairs.draws < 5) }
        ensures history { OnOk result (vec_len self.new.history ≡ vec_len self.old.history + 1) }
        ensures capacity { vec_capacity self.old.history ≤ vec_capacity self.new.history }
        ensures err { OnErr result (IsSteady self.old self.new) }
        ensures refused { OnErr result (vec_capacity self.old.history < vec_len self.old.history + (length self.old.tasks.items + 4)) }
    {
        self.history.reserve(self.tasks.len() + 4)?;
        self.drop_head(worker, number);
        Ok(())
    }

    /// Takes the drops back whose events stand behind the first so many, the last one first.
    fn undrop(&mut self, kept: usize)
        requires dropped { (w : ℕ) × (s : State) × Dropped w s (state_of self.old) × (length s.history ≡ kept) }
        requires spare { vec_len self.old.history ≤ kept + self.old.pairs.spare }
        ensures state { (w : ℕ) (s : State) → Dropped w s (state_of self.old) → length s.history ≡ kept → state_of self.new ≡ s }
        ensures others { SameOthers self.old self.new }
        ensures spare { self.new.pairs.spare + vec_len self.old.history ≡ self.old.pairs.spare + kept }
        ensures capacity { vec_capacity self.new.history ≡ vec_capacity self.old.history }
    {
        while self.history.len() > kept {
            self.undrop_last();
        }
    }

    /// Takes the last drop back.
    fn undrop_last(&mut self)
        requires dropped { (w p : ℕ) × (s : State) × WasDropped w p s (state_of self.old) }
        requires spare { 1 ≤ self.old.pairs.spare }
        ensures state { (w p : ℕ) (s : State) → WasDropped w p s (state_of self.old) → state_of self.new ≡ s }
        ensures others { SameOthers self.old self.new }
        ensures spare { self.new.pairs.spare + 1 ≡ self.old.pairs.spare }
        ensures history { vec_len self.new.history + 1 ≡ vec_len self.old.history }
        ensures capacity { vec_capacity self.new.history ≡ vec_capacity self.old.history }
    {
        match self.history.pop() {
            Some(event) => self.pairs.undrop(dropped_pair(event.what)),
            None => unreachable!(),
        }
    }
}
