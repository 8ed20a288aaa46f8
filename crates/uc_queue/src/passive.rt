// The queue: what waits in a list in no order, with a winner tree for each of the two keys.

ghost use Rattle.std.specs.Prelude.{◌≡◌, ℕ, ◌+◌, ◌-◌, ◌*◌, ◌%◌, ◌^◌, ◌<◌, ◌≤◌, [], ◌∷◌, ◌++◌, length, vec_len, vec_capacity, IsTrue, ◌↔◌, Some, IfOk, OnOk, OnErr, IfSome, IfNone, MatchOption, option_map};
ghost use Rattle.std.specs.List.{slice_get};
ghost use Rattle.std.specs.List.Sorted.{IsPermutation};
ghost use Rattle.uc_queue.specs.declared.entry.Entry.{Entry};
ghost use Rattle.uc_queue.specs.declared.entry.Key.TheVariants.{Number, Weight};
ghost use Rattle.uc_queue.specs.Queue.{next, least, times, by_number, with_entry, without, IsNew, RisesFrom};
ghost use Rattle.uc_queue.specs.Trees.{before, key_of, WasRight, AreRight};

use crate::entry::{Entry, Key};
use crate::tree::{build, mend, root};
use std::alloc::{AllocError, Global};
use std::marker::Model;

/// Entries of a weight and a number that wait to be drawn. Draw number `k`, from 1, takes the least number where `k` is divisible by 5, and else the least
/// by weight and then number; only draws that give a number count.
#[derive(Drop)]
pub struct Passive {
    entries: Vec<Entry>,
    lightest: Vec<u32>,
    earliest: Vec<u32>,
    draws: u8,
}

impl Model for Passive {
    ghost use Rattle.uc_queue.specs.Queue.{Queue};

    ghost Value = { Queue };

    ghost use Rattle.uc_queue.specs.View.{queue_of, IsWell};

    ghost view = { queue_of };

    ghost invariant = { IsWell };
}

// so that an entry's place fits 32 bits
const MAX_ROOM: usize = 0x8000_0000;

// The next room: twice as much, so that growing costs little for each entry, or what is wanted. It is refused exactly past the
// most room.
fn grown(room: usize, wanted: usize) -> Result<usize, AllocError>
    requires { room ≤ 2 ^ 31 }
    ensures wanted { IfOk result (λ n. wanted ≤ n) }
    ensures few { IfOk result (λ n. n ≤ 2 ^ 31) }
    ensures more { IfOk result (λ n. room ≤ n) }
    ensures refused { OnErr result (2 ^ 31 < wanted) }
{
    if wanted > MAX_ROOM {
        return Err(AllocError);
    }
    Ok(wanted.max(2 * room).max(8).min(MAX_ROOM))
}

fn push_within(entries: &mut Vec<Entry>, entry: Entry)
    requires { vec_len entries.old < vec_capacity entries.old }
    ensures items { entries.new.items ≡ entries.old.items ++ entry ∷ [] }
    ensures capacity { vec_capacity entries.old ≤ vec_capacity entries.new }
{
    match entries.push(entry) {
        Ok(()) => (),
        Err(_) => prove!(false),
    }
}

fn mend_both(entries: &[Entry], lightest: &mut [u32], earliest: &mut [u32], slot: usize)
    requires few { length lightest.old ≤ 2 ^ 31 }
    requires same { length earliest.old ≡ length lightest.old }
    requires within { length entries.now ≤ length lightest.old }
    requires slot { slot < length lightest.old }
    requires by_weight { WasRight Weight entries.now lightest.old slot }
    requires by_number { WasRight Number entries.now earliest.old slot }
    ensures right { AreRight entries.now lightest.new earliest.new }
    ensures len { length lightest.new ≡ length lightest.old }
{
    mend(Key::Weight, entries, lightest, slot);
    mend(Key::Number, entries, earliest, slot);
}

// Takes an entry out; the last one gets its place.
fn remove(entries: &mut Vec<Entry>, lightest: &mut [u32], earliest: &mut [u32], slot: usize)
    requires right { AreRight entries.old.items lightest.old earliest.old }
    requires slot { slot < vec_len entries.old }
    ensures right { AreRight entries.new.items lightest.new earliest.new }
    ensures len { length lightest.new ≡ length lightest.old }
    ensures shorter { vec_len entries.new + 1 ≡ vec_len entries.old }
    ensures taken { (e : Entry) → slice_get entries.old.items slot ≡ Some e → IsPermutation entries.old.items (e ∷ entries.new.items) }
    ensures capacity { vec_capacity entries.new ≡ vec_capacity entries.old }
{
    let last = entries.len() - 1;
    let moved = entries[last];
    entries.truncate(last);
    mend_both(entries, lightest, earliest, last);
    if slot < last {
        entries[slot] = moved;
        mend_both(entries, lightest, earliest, slot);
    }
}

// the place of the entry that the next draw takes
fn next_slot(draws: u8, entries: &[Entry], lightest: &[u32], earliest: &[u32]) -> Option<usize>
    requires right { AreRight entries.now lightest.now earliest.now }
    requires distinct { (n : ℕ) → times n entries.now ≤ 1 }
    ensures { MatchOption result (entries.now ≡ []) (λ k. (k < length entries.now) × (slice_get entries.now k ≡ least (before (key_of draws)) (by_number entries.now))) }
{
    match Key::of(draws) {
        Key::Weight => root(Key::Weight, entries, lightest),
        Key::Number => root(Key::Number, entries, earliest),
    }
}

impl Passive {
    /// A queue in which nothing waits.
    pub fn new(alloc: Global) -> Result<Passive, AllocError>
        ensures empty { IfOk result (λ q. q.waiting ≡ []) }
        ensures draws { IfOk result (λ q. q.draws ≡ 0) }
    {
        Ok(Passive {
            entries: Vec::new(alloc),
            lightest: Vec::new(alloc),
            earliest: Vec::new(alloc),
            draws: 0,
        })
    }

    /// Makes room for at least this many more entries. It answers want of memory only where there is less room, and the queue is then as before.
    pub fn reserve(&mut self, alloc: Global, more: u32) -> Result<(), AllocError>
        ensures waiting { self.new.waiting ≡ self.old.waiting }
        ensures draws { self.new.draws ≡ self.old.draws }
        ensures room { OnOk result (more ≤ self.new.spare) }
        ensures kept { self.old.spare ≤ self.new.spare }
        ensures refused { OnErr result (self.old.spare < more) }
    {
        let wanted = self.entries.len() + more as usize;
        if wanted <= self.lightest.len() {
            return Ok(());
        }
        let room = grown(self.lightest.len(), wanted)?;
        let mut lightest = vec![in alloc; 0; room]?;
        let mut earliest = vec![in alloc; 0; room]?;
        self.entries.reserve(room - self.entries.len())?;
        build(Key::Weight, self.entries.as_slice(), &mut lightest);
        build(Key::Number, self.entries.as_slice(), &mut earliest);
        self.lightest = lightest;
        self.earliest = earliest;
        Ok(())
    }

    /// Lets a number wait, with its weight. It answers want of memory only where there is no room, and the queue is then as before.
    pub fn add(&mut self, alloc: Global, weight: u32, number: u64) -> Result<(), AllocError>
        requires { IsNew number self.old.waiting }
        ensures added { OnOk result (self.new.waiting ≡ with_entry (record { weight = weight; number = number }) self.old.waiting) }
        ensures draws { self.new.draws ≡ self.old.draws }
        ensures room { OnOk result (self.old.spare ≤ self.new.spare + 1) }
        ensures refused { OnErr result (self.old.spare ≡ 0) }
        ensures same { OnErr result (self.new.waiting ≡ self.old.waiting) }
        ensures kept { OnErr result (self.old.spare ≤ self.new.spare) }
    {
        self.reserve(alloc, 1)?;
        self.back(weight, number);
        Ok(())
    }

    /// Puts a drawn number back, in room that is there.
    pub fn back(&mut self, weight: u32, number: u64)
        requires new { IsNew number self.old.waiting }
        requires room { 1 ≤ self.old.spare }
        ensures added { self.new.waiting ≡ with_entry (record { weight = weight; number = number }) self.old.waiting }
        ensures draws { self.new.draws ≡ self.old.draws }
        ensures room { self.new.spare + 1 ≡ self.old.spare }
    {
        let slot = self.entries.len();
        push_within(&mut self.entries, Entry { weight, number });
        mend_both(&self.entries, &mut self.lightest, &mut self.earliest, slot);
    }

    /// How many numbers wait.
    pub fn len(&self) -> usize
        ensures { result ≡ length self.now.waiting }
    {
        self.entries.len()
    }

    /// Whether nothing waits.
    pub fn is_empty(&self) -> bool
        ensures { IsTrue result ↔ (self.now.waiting ≡ []) }
    {
        self.len() == 0
    }

    /// The number that the next draw takes; none where nothing waits.
    pub fn peek(&self) -> Option<u64>
        ensures next { result ≡ option_map (λ e. e.number) (next self.now) }
        // of every queue
        ensures rising { RisesFrom 0 self.now.waiting }
        ensures modulo { self.now.draws < 5 }
    {
        match next_slot(self.draws, &self.entries, &self.lightest, &self.earliest) {
            Some(slot) => Some(self.entries[slot].number),
            None => None,
        }
    }

    /// Takes out the number whose turn it is; none where nothing waits.
    pub fn draw(&mut self) -> Option<u64>
        ensures next { result ≡ option_map (λ e. e.number) (next self.old) }
        ensures taken { IfSome result (λ n. self.new.waiting ≡ without n self.old.waiting) }
        ensures gone { IfSome result (λ n. IsNew n self.new.waiting) }
        ensures draws { IfSome result (λ _. self.new.draws ≡ (self.old.draws + 1) % 5) }
        ensures room { IfSome result (λ _. self.new.spare ≡ self.old.spare + 1) }
        ensures empty { IfNone result (self.old.waiting ≡ []) }
        ensures same { IfNone result (self.new ≡ self.old) }
        // of every queue
        ensures modulo { self.old.draws < 5 }
    {
        let slot = next_slot(self.draws, &self.entries, &self.lightest, &self.earliest)?;
        let number = self.entries[slot].number;
        remove(
            &mut self.entries,
            &mut self.lightest,
            &mut self.earliest,
            slot,
        );
        self.draws = (self.draws + 1) % 5;
        Some(number)
    }

    /// Takes a draw back: its number waits again, with this weight, in room that is there, and the draw doesn't count.
    pub fn undraw(&mut self, weight: u32, number: u64)
        requires new { IsNew number self.old.waiting }
        requires room { 1 ≤ self.old.spare }
        ensures added { self.new.waiting ≡ with_entry (record { weight = weight; number = number }) self.old.waiting }
        ensures draws { (self.new.draws + 1) % 5 ≡ self.old.draws }
        ensures modulo { self.new.draws < 5 }
        ensures room { self.new.spare + 1 ≡ self.old.spare }
    {
        self.back(weight, number);
        self.draws = (self.draws + 4) % 5;
    }
}
