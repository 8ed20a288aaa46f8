//! Visits: what the commit of a Meet changes. Facts die, and get pairs of their own sides; then the overlaps get theirs.

ghost use Rattle.std.specs.Prelude.{◌≡◌, ℕ, ◌+◌, ◌<◌, ◌≤◌, ◌^◌, ◌++◌, length, map, remove, count_by, None, IfOk, OnOk, OnErr, vec_len, vec_capacity};
ghost use Rattle.uc_pair.specs.declared.formed.Formed.{Formed as AnyFormed};
ghost use Rattle.uc_shelf.specs.Entries.{born, is_dead};
ghost use Rattle.uc_shelf.specs.Fronts.{IsOf};
ghost use Rattle.uc_machine.specs.declared.event.Verdict.TheVariants as Verdict;
ghost use Rattle.uc_machine.specs.declared.event.Happening.TheVariants as Happening;
ghost use Rattle.uc_machine.specs.declared.task.Job.TheVariants as Job;
ghost use Rattle.uc_machine.specs.declared.task.Finding.TheVariants.{Stale, Met};
ghost use Rattle.uc_machine.specs.State.{Opening, Out, is_waiting};
ghost use Rattle.uc_machine.specs.Effects.{condition_by, weight_by, pair_by, accepts, is_met, closes};
ghost use Rattle.uc_machine.specs.Commits.{Commits, Meets, newly_waiting};
ghost use Rattle.uc_book.specs.Openings.{opening_of};
ghost use Rattle.uc_rows.specs.TaskRows.{StandsAt};
ghost use Rattle.uc_book.specs.Parts.{state_of, Fit, HasRoom};
ghost use Rattle.uc_book.specs.Ending.{AnyAt, CanEnd, CanAccept, HasEnded};
ghost use Rattle.uc_rows.specs.Rising.{AreRising, AreBelow};
ghost use Rattle.uc_rows.specs.Deaths.{alive_of, deaths_by, revived, all_dead, visited, woken_by};

use crate::limits::{check_entries, count_of};
use crate::opened::Opened;
use crate::parts::Parts;
use std::alloc::{AllocError, Global};
use std::sync::Wait;
use uc_fact::Origin;
use uc_ledger::State;
use uc_machine::{Happening, Meeting, Verdict};
use uc_pair::{Formed, Size};
use uc_rows::{Facts, Goals, Pairs};
use uc_shelf::{Entry, Front, Shelf};

/// What a visit brings, as far as the limit allows it: these facts die, killed by one fact, and these overlaps get their pairs.
#[derive(Clone, Copy)]
struct Visit<'a> {
    fact: u32,
    killer: u32,
    falls: &'a [u32],
    overlaps: &'a [Formed],
}

/// The facts of a list that aren't dead.
fn alive(alloc: Global, facts: &Facts, kills: &[u32]) -> Result<Vec<u32>, AllocError>
    ensures { IfOk result (λ v. v.items ≡ alive_of facts.now.front.entries kills.now) }
{
    let mut list = Vec::new(alloc);
    for k in 0..kills.len() {
        if !facts.is_dead(kills[k]) {
            list.push(kills[k])?;
        }
    }
    Ok(list)
}

/// The front with the deaths of these facts behind it.
fn with_deaths<R: Wait>(
    rt: &R,
    alloc: Global,
    shelf: &Shelf,
    front: &Front,
    killer: u32,
    falls: &[u32],
) -> Result<Front, AllocError>
    requires { IsOf shelf.now front.now }
    ensures of { IfOk result (λ f. IsOf shelf.now f) }
    ensures entries { IfOk result (λ f. f.entries ≡ front.now.entries ++ deaths_by killer falls.now) }
{
    let mut longer = front.copy(alloc)?;
    for k in 0..falls.len() {
        check_entries(&longer)?;
        let death = Entry::Dies {
            fact: falls[k],
            killer,
        };
        shelf.publish(rt, alloc, &mut longer, death)?;
    }
    Ok(longer)
}

/// Whether the fact of a number is dead or among those that die now.
fn is_gone(facts: &Facts, falls: &[u32], fact: u32) -> bool
    requires { AreRising 0 falls.now }
    ensures { (killer : ℕ) → result ≡ is_dead (facts.now.front.entries ++ deaths_by killer falls.now) fact }
{
    facts.is_dead(fact) || is_among(falls, fact)
}

/// Whether a number is among some that rise.
fn is_among(numbers: &[u32], number: u32) -> bool
    requires { AreRising 0 numbers.now }
    ensures { (killer : ℕ) → result ≡ is_dead (deaths_by killer numbers.now) number }
{
    numbers.binary_search(&number).is_ok()
}

/// The state of an overlap's pair, where these facts die first.
fn state_by(facts: &Facts, falls: &[u32], formed: &Formed) -> State
    requires { AreRising 0 falls.now }
    ensures { (killer : ℕ) → result ≡ condition_by (facts.now.front.entries ++ deaths_by killer falls.now) formed.now.overlap formed.now.size }
{
    match formed.size {
        Size::Same => State::Done,
        Size::Large => State::Large,
        Size::Weight(_) => {
            let overlap = formed.overlap;
            if is_gone(facts, falls, overlap.outer) || is_gone(facts, falls, overlap.inner) {
                State::Orphan
            } else {
                State::Waiting
            }
        }
    }
}

/// Whether a pair waits.
#[inline]
fn is_waiting(state: State) -> bool
    ensures { result ≡ is_waiting state }
{
    matches!(state, State::Waiting)
}

/// The weight of an overlap's pair.
#[inline]
fn weight_by(size: Size) -> u32
    ensures { result ≡ weight_by size }
{
    match size {
        Size::Weight(weight) => weight,
        Size::Same | Size::Large => 0,
    }
}

/// How many of these overlaps newly wait, where these facts die first.
fn newly_waiting(facts: &Facts, falls: &[u32], overlaps: &[Formed]) -> usize
    requires { AreRising 0 falls.now }
    ensures value { (killer : ℕ) → result ≡ count_by (λ (f : AnyFormed). is_waiting (pair_by (facts.now.front.entries ++ deaths_by killer falls.now) f).condition) overlaps.now }
    ensures few { result ≤ length overlaps.now }
{
    let mut count = 0;
    for k in 0..overlaps.len() {
        if is_waiting(state_by(facts, falls, &overlaps[k])) {
            count += 1;
        }
    }
    count
}

/// Each of these facts gets a pair of its own sides, which waits.
fn revive(alloc: Global, pairs: &mut Pairs, facts: &Facts, falls: &[u32])
    requires room { length falls.now ≤ pairs.old.room }
    requires spare { length falls.now ≤ pairs.old.spare }
    ensures pairs { pairs.new.pairs ≡ pairs.old.pairs ++ map (revived facts.now.front.entries) falls.now }
    ensures draws { pairs.new.draws ≡ pairs.old.draws }
    ensures room { pairs.old.room ≤ pairs.new.room + length falls.now }
    ensures spare { pairs.old.spare ≤ pairs.new.spare + length falls.now }
{
    for k in 0..falls.len() {
        let weight = facts.weight(falls[k]);
        pairs.add(alloc, Origin::Revived(falls[k]), weight, State::Waiting);
    }
}

/// Each of these overlaps gets its pair, where these facts die first.
fn form(alloc: Global, pairs: &mut Pairs, facts: &Facts, falls: &[u32], overlaps: &[Formed])
    requires rising { AreRising 0 falls.now }
    requires room { length overlaps.now ≤ pairs.old.room }
    requires spare { length overlaps.now ≤ pairs.old.spare }
    ensures pairs { (killer : ℕ) → pairs.new.pairs ≡ pairs.old.pairs ++ map (pair_by (facts.now.front.entries ++ deaths_by killer falls.now)) overlaps.now }
    ensures draws { pairs.new.draws ≡ pairs.old.draws }
    ensures spare { pairs.old.spare ≤ pairs.new.spare + length overlaps.now }
{
    for k in 0..overlaps.len() {
        let state = state_by(facts, falls, &overlaps[k]);
        let weight = weight_by(overlaps[k].size);
        pairs.add(alloc, Origin::Overlap(overlaps[k].overlap), weight, state);
    }
}

/// The goals that rest become Due, where a fact died.
fn wake(goals: &mut Goals, falls: &[u32])
    ensures { goals.new ≡ woken_by falls.now goals.old }
{
    if !falls.is_empty() {
        goals.wake();
    }
}

impl Parts {
    /// Takes in that a fact, which was to meet the others, is replaced by one of them: it dies, if it isn't dead yet. It grows
    /// first and changes last.
    pub(crate) fn bury<R: Wait>(
        &mut self,
        rt: &R,
        alloc: Global,
        shelf: &Shelf,
        opening: &Opened,
        at: usize,
        fact: u32,
        killer: u32,
    ) -> Result<(), AllocError>
        requires shelf { shelf.now ≡ opening.now.shelf }
        requires can { CanEnd opening.now.shelf (opening_of opening.now) self.old }
        requires open { self.old.verdict ≡ None }
        requires at { AnyAt self.old at }
        requires job { (t : Out) → StandsAt self.old.tasks.items at t → t.job ≡ Job.Meet fact }
        ensures ok { OnOk result ((t : Out) → StandsAt self.old.tasks.items at t → Commits (opening_of opening.now) t (Stale killer) (state_of self.old) (state_of self.new)) }
        ensures err { OnErr result ((state_of self.new ≡ state_of self.old) × (self.new.facts.front ≡ self.old.facts.front)) }
        ensures fit { Fit opening.now.shelf self.new }
        ensures room { HasRoom self.new }
    {
        let falls = alive(alloc, &self.facts, &[fact])?;
        let visit = Visit {
            fact,
            killer,
            falls: falls.as_slice(),
            overlaps: &[],
        };
        self.visit(rt, alloc, shelf, opening.limit(), at, &visit)
    }

    /// Takes in what a fact replaces and overlaps: where it isn't dead, the facts that it replaces die, if they aren't dead yet,
    /// and then the overlaps get their pairs. It grows first and changes last.
    pub(crate) fn meet<R: Wait>(
        &mut self,
        rt: &R,
        alloc: Global,
        shelf: &Shelf,
        opening: &Opened,
        at: usize,
        fact: u32,
        kills: &[u32],
        overlaps: &[Formed],
    ) -> Result<(), AllocError>
        requires shelf { shelf.now ≡ opening.now.shelf }
        requires can { CanEnd opening.now.shelf (opening_of opening.now) self.old }
        requires open { self.old.verdict ≡ None }
        requires at { AnyAt self.old at }
        requires job { (t : Out) → StandsAt self.old.tasks.items at t → t.job ≡ Job.Meet fact }
        requires kills { AreRising 0 kills.now × AreBelow fact kills.now }
        ensures ok { OnOk result ((t : Out) → StandsAt self.old.tasks.items at t → Commits (opening_of opening.now) t (Met kills.now overlaps.now) (state_of self.old) (state_of self.new)) }
        ensures err { OnErr result ((state_of self.new ≡ state_of self.old) × (self.new.facts.front ≡ self.old.facts.front)) }
        ensures fit { Fit opening.now.shelf self.new }
        ensures room { HasRoom self.new }
    {
        if self.facts.is_dead(fact) {
            let visit = Visit {
                fact,
                killer: fact,
                falls: &[],
                overlaps: &[],
            };
            return self.visit(rt, alloc, shelf, opening.limit(), at, &visit);
        }
        let falls = alive(alloc, &self.facts, kills)?;
        let visit = Visit {
            fact,
            killer: fact,
            falls: falls.as_slice(),
            overlaps,
        };
        self.visit(rt, alloc, shelf, opening.limit(), at, &visit)
    }

    /// Ends the task of a visit: its meeting is Met, and what the visit brings is kept, or the book is closed where more pairs
    /// would wait than the limit allows.
    fn visit<R: Wait>(
        &mut self,
        rt: &R,
        alloc: Global,
        shelf: &Shelf,
        limit: u32,
        at: usize,
        visit: &Visit,
    ) -> Result<(), AllocError>
        requires can { (o : Opening) × CanEnd shelf.now o self.old }
        requires open { self.old.verdict ≡ None }
        requires at { AnyAt self.old at }
        requires rising { AreRising 0 visit.now.falls.now }
        requires born { AreBelow (length (born self.old.facts.front.entries)) visit.now.falls.now }
        ensures ok { OnOk result ((o : Opening) (t : Out) → o.limit ≡ limit → StandsAt self.old.tasks.items at t → Meets o t visit.now.fact (newly_waiting visit.now.overlaps.now (all_dead visit.now.killer visit.now.falls.now (state_of self.old))) (visited visit.now.killer visit.now.falls.now visit.now.overlaps.now) (state_of self.old) (state_of self.new)) }
        ensures err { OnErr result ((state_of self.new ≡ state_of self.old) × (self.new.facts.front ≡ self.old.facts.front)) }
        ensures fit { Fit shelf.now self.new }
        ensures room { HasRoom self.new }
    {
        let waiting = count_of(self.pairs.waiting())?;
        let pairs = newly_waiting(&self.facts, visit.falls, visit.overlaps);
        let new = visit.falls.len() + pairs;
        if waiting as usize + new > limit as usize {
            self.pass_limit(at, visit.fact, waiting, new as u64);
            return Ok(());
        }
        let more = visit.falls.len() + visit.overlaps.len() + self.tasks.len();
        self.pairs.reserve(alloc, count_of(more)?)?;
        let front = self.facts.front();
        let front = with_deaths(rt, alloc, shelf, front, visit.killer, visit.falls)?;
        self.take_visit(alloc, at, visit, front, pairs as u64);
        Ok(())
    }

    /// The task of a visit ends, and nothing of it is kept: the book is closed, since so many new pairs would wait.
    fn pass_limit(&mut self, at: usize, fact: u32, waiting: u32, new: u64)
        requires at { AnyAt self.old at }
        requires can { (t : Out) → StandsAt self.old.tasks.items at t → CanAccept self.old t }
        requires room { vec_len self.old.history + 1 < vec_capacity self.old.history }
        ensures state { (t : Out) → StandsAt self.old.tasks.items at t → state_of self.new ≡ closes t.worker (Verdict.PairsOut waiting new) (is_met fact (accepts t (Happening.CommitMeet fact 0 0) (state_of self.old))) }
        ensures tasks { self.new.tasks.items ≡ remove self.old.tasks.items at }
        ensures next { self.new.next ≡ self.old.next }
        ensures front { self.new.facts.front ≡ self.old.facts.front }
        ensures spare { self.new.pairs.spare ≡ self.old.pairs.spare }
        ensures history { vec_len self.new.history ≡ vec_len self.old.history + 2 }
        ensures capacity { vec_capacity self.new.history ≡ vec_capacity self.old.history }
    {
        let worker = self.tasks[at].worker;
        self.accept(
            at,
            Happening::CommitMeet {
                fact,
                pairs: 0,
                kills: 0,
            },
        );
        self.facts.settle(fact, Meeting::Met);
        self.close(worker, Verdict::PairsOut { waiting, new });
    }

    /// The task of a visit ends, and what the visit brings is kept. The front has the deaths already.
    fn take_visit(&mut self, alloc: Global, at: usize, visit: &Visit, front: Front, pairs: u64)
        requires at { AnyAt self.old at }
        requires can { (t : Out) → StandsAt self.old.tasks.items at t → CanAccept self.old t }
        requires front { front.entries ≡ self.old.facts.front.entries ++ deaths_by visit.now.killer visit.now.falls.now }
        requires rising { AreRising 0 visit.now.falls.now }
        requires born { AreBelow (length (born self.old.facts.front.entries)) visit.now.falls.now }
        requires few { length visit.now.falls.now < 2 ^ 32 }
        requires room { length visit.now.falls.now + length visit.now.overlaps.now ≤ self.old.pairs.room }
        requires spare { length visit.now.falls.now + length visit.now.overlaps.now ≤ self.old.pairs.spare }
        ensures state { (t : Out) → StandsAt self.old.tasks.items at t → state_of self.new ≡ visited visit.now.killer visit.now.falls.now visit.now.overlaps.now (is_met visit.now.fact (accepts t (Happening.CommitMeet visit.now.fact pairs (length visit.now.falls.now)) (state_of self.old))) }
        ensures rest { HasEnded self.old at self.new }
        ensures front { self.new.facts.front ≡ front }
        ensures spare { self.old.pairs.spare ≤ self.new.pairs.spare + (length visit.now.falls.now + length visit.now.overlaps.now) }
    {
        self.accept(
            at,
            Happening::CommitMeet {
                fact: visit.fact,
                pairs,
                kills: visit.falls.len() as u32,
            },
        );
        self.facts.settle(visit.fact, Meeting::Met);
        revive(alloc, &mut self.pairs, &self.facts, visit.falls);
        form(
            alloc,
            &mut self.pairs,
            &self.facts,
            visit.falls,
            visit.overlaps,
        );
        self.facts.bury(front, visit.falls);
        wake(&mut self.goals, visit.falls);
    }
}
