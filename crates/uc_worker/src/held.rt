//! The book with ledgers of its commits and of the rounds, and the workers' hands.

ghost use Rattle.std.specs.Prelude.{◌≡◌, ℕ, ◌+◌, ◌^◌, ◌<◌, ◌≤◌, ◌++◌, ◌∷◌, [], false, Some, None, Option, length, vec_len, IfOk, IfErr, IfSome, OnOk, OnErr, sum_by, slice_index_or};
ghost use Rattle.uc_shelf.specs.Fronts.{IsOf};
ghost use Rattle.uc_machine.specs.Draws.{Draws};
ghost use Rattle.uc_machine.specs.Effects.{recalls};
ghost use Rattle.uc_machine.specs.Finals.{IsFinal};
ghost use Rattle.uc_machine.specs.Runs.{Run, Reaches, Audits, Closes, IsDrained, MayAudit};
ghost use Rattle.uc_book.specs.Openings.{Opened, opening_of};
ghost use Rattle.uc_book.specs.Answers.{IsSameBook, reply_of, IfTask, IsTaskOf, IsRight, IsCommitted, IsRefused, IsReclaimed, IsNotOutTo, audit_reply_of, IsAnEnd};
ghost use Rattle.uc_search.specs.Working.{IsToCompute, EndsAlone};
ghost use Rattle.uc_search.specs.Searching.{EndsRound};
ghost use Rattle.uc_search.specs.Bounds.{counted_on};
ghost use Rattle.uc_worker.specs.Commits.{commits_of, AreOfFirst};
ghost use Rattle.uc_worker.specs.Hands.{HandView};
ghost use Rattle.uc_worker.specs.Works.{WasAnswered};

use crate::naming::{NamesOrder, Naming};
use std::alloc::{AllocError, Global};
use std::marker::Model;
use std::sync::ledger::{Blank, Ledger, Share};
use std::sync::{Wait, ledger};
use std::thread::Threads;
use uc_book::{Audited, Book, CommitFault, Done, Drawn, Pass, Receipt};
use uc_final::FinalPasses;
use uc_machine::{Event, Missing, Outcome, Verdict};
use uc_order::Order;
use uc_problem::Encoded;
use uc_search::{Ended, end_round, work_alone};
use uc_shelf::Shelf;

/// What lies under the lock: the book, the total of all commits, and how many rounds were made. Each round after which the search
/// goes on counts a unit, and no unit that is counted is ever taken back; so there are no more rounds than units.
#[derive(Drop)]
pub struct Held<'a, O: Order, K: NamesOrder<O>, C: Ledger> {
    book: Book<'a, O>,
    total: ledger::Book<K>,
    rounds: ledger::Book<C>,
}

impl<'a, O: Order, K: NamesOrder<O>, C: Ledger> Model for Held<'a, O, K, C> {
    ghost use Rattle.std.specs.Prelude.{◌≡◌, ◌≤◌, Some};
    ghost use Rattle.std.specs.Coded.{codes};
    ghost use Rattle.uc_term.specs.Code.{tree_code};
    ghost use Rattle.boxcar.specs.Table.{shelves_coded};
    ghost use Rattle.uc_book.specs.Openings.{BookView};
    ghost use Rattle.uc_worker.specs.Commits.{commits_of, AreOfFirst};

    ghost Value = { BookView O };

    ghost coded = { Prim.hlevel (codes, tree_code, shelves_coded, O.code) };

    ghost view = { λ h. h.book };

    ghost invariant = { λ h. (h.book.opening ≡ K.opening) × (Some h.book.order ≡ K.order) × (h.total.total ≡ commits_of h.book.state.history) × AreOfFirst K.parts h.book.state.history × (h.rounds.total ≤ h.book.state.counted) };
}

/// A worker's pass with its part of the ledger.
#[derive(Drop)]
pub struct Hand<K: Naming> {
    pass: Pass,
    share: Share<K>,
}

impl<K: Naming> Model for Hand<K> {
    ghost use Rattle.std.specs.Prelude.{◌≡◌, ◌<◌};
    ghost use Rattle.uc_worker.specs.Hands.{HandView};

    ghost Value = { HandView };

    ghost view = { λ h. record { worker = h.pass.worker; commits = h.pass.commits } };

    ghost invariant = { λ h. (h.pass.opening ≡ K.opening) × (h.share.amount ≡ h.pass.commits) × (h.share.parts ≡ 1) × (h.pass.worker < K.parts) };
}

impl<K: Naming> Hand<K> {
    // No part, and no amount.
    fn none(&mut self) -> Share<K>
        ensures parts { result.parts ≡ 0 }
        ensures amount { result.amount ≡ 0 }
        ensures same { self.new ≡ self.old }
    {
        self.share.empty()
    }

    /// The worker's number.
    pub fn worker(&self) -> u32
        ensures value { result ≡ self.now.worker }
        ensures few { result < K.parts }
    {
        self.pass.worker()
    }

    /// How many commits it made.
    pub fn commits(&self) -> u64
        ensures { result ≡ self.now.commits }
    {
        self.pass.commits()
    }
}

impl<'a, O: Order, K: NamesOrder<O>, C: Ledger> Held<'a, O, K, C> {
    /// What comes next for a worker, as `Book::draw`.
    pub fn draw(&mut self, alloc: Global, hand: &mut Hand<K>) -> Result<Drawn, AllocError>
        ensures drawn { IfOk result (λ d. Draws (opening_of self.old.opening) hand.old.worker self.old.state (reply_of hand.old.worker d) self.new.state) }
        ensures task { IfOk result (λ d. IfTask d (IsTaskOf (O.meaning self.old.order) self.old)) }
        ensures named { IfOk result (λ d. IfTask d (λ t. IfSome K.order (λ o. IsToCompute (O.meaning o) K.opening t))) }
        ensures answered { IfOk result (λ d. IfSome K.order (λ o. WasAnswered (O.meaning o) (opening_of K.opening) hand.old.worker (reply_of hand.old.worker d))) }
        ensures book { IsSameBook self.old self.new }
        ensures front { self.new.front ≡ self.old.front }
        ensures hand { hand.new ≡ hand.old }
        ensures err { OnErr result (self.new ≡ self.old) }
    {
        // A run leads to the state in which it is drawn.
        let _ = self.book.history();
        self.book.draw(alloc, &mut hand.pass)
    }

    /// Takes the result of a task in, as `Book::commit`. An accepted one raises the hand's part and the total by one.
    pub fn commit<R: Wait>(
        &mut self,
        rt: &R,
        alloc: Global,
        hand: &mut Hand<K>,
        done: Done,
    ) -> Result<Receipt, (Done, CommitFault)>
        requires opening { done.opening ≡ K.opening }
        requires of { IsOf K.opening.shelf done.front }
        requires right { IfSome K.order (λ o. IsRight (O.meaning o) done) }
        ensures committed { IfOk result (λ receipt. IsCommitted (opening_of self.old.opening) self.old.state hand.old.worker done receipt self.new.state) }
        ensures commits { OnOk result (commits_of self.new.state.history ≡ commits_of self.old.state.history + 1) }
        ensures hand { OnOk result (hand.new ≡ record hand.old { commits = hand.old.commits + 1 }) }
        ensures book { IsSameBook self.old self.new }
        ensures refused { IfErr result (λ e. (e.0 ≡ done) × IsRefused self.old.state hand.old.worker done e.1) }
        ensures err { OnErr result ((self.new ≡ self.old) × (hand.new ≡ hand.old)) }
    {
        let Held { book, total, .. } = self;
        let Hand { pass, share } = hand;
        // They show that the pass's count is below its type's end.
        let _length = book.history().len();
        total.audit(share);
        let receipt = book.commit(rt, alloc, pass, done)?;
        total.add(share, 1);
        Ok(receipt)
    }

    /// Lets a task wait again, as `Book::reclaim`.
    pub fn reclaim(&mut self, hand: &mut Hand<K>, ticket: u64) -> Result<(), CommitFault>
        ensures reclaimed { IfOk result (λ _. IsReclaimed self.old.state hand.old.worker ticket self.new.state) }
        ensures book { IsSameBook self.old self.new }
        ensures front { self.new.front ≡ self.old.front }
        ensures hand { hand.new ≡ hand.old }
        ensures refused { IfErr result (IsNotOutTo self.old.state hand.old.worker ticket) }
        ensures err { OnErr result (self.new ≡ self.old) }
    {
        self.book.reclaim(&mut hand.pass, ticket)
    }

    /// Lets each task that is out wait again, as `Book::recall`.
    pub fn recall(&mut self)
        ensures state { self.new.state ≡ recalls self.old.state }
        ensures none { self.new.state.out ≡ [] }
        ensures book { IsSameBook self.old self.new }
        ensures front { self.new.front ≡ self.old.front }
    {
        self.book.recall();
    }

    /// The book.
    pub fn book(&self) -> &Book<'a, O>
        ensures book { result.now ≡ self.now }
        ensures opening { self.now.opening ≡ K.opening }
        ensures order { Some self.now.order ≡ K.order }
    {
        &self.book
    }

    /// Keeps an equation that is missing, as `Book::audit`.
    pub fn audit<R: Wait>(
        &mut self,
        rt: &R,
        alloc: Global,
        missing: Missing,
    ) -> Result<Audited, AllocError>
        requires { MayAudit (O.meaning self.old.order) (opening_of self.old.opening) self.old.state missing }
        ensures audited { IfOk result (λ a. Audits (opening_of self.old.opening) missing.fact self.old.state (audit_reply_of a) self.new.state) }
        ensures book { IsSameBook self.old self.new }
        ensures err { OnErr result (self.new ≡ self.old) }
    {
        self.book.audit(rt, alloc, missing)
    }

    /// Closes the drained book, as `Book::close`.
    pub fn close(&mut self, outcome: &Outcome) -> Verdict
        requires drained { IsDrained self.old.state }
        requires final_pass { IsFinal (O.meaning self.old.order) self.old.opening.problem.axioms self.old.state outcome.now }
        requires end { IsAnEnd outcome.now }
        ensures closed { Closes self.old.state outcome.now result self.new.state }
        ensures book { IsSameBook self.old self.new }
        ensures front { self.new.front ≡ self.old.front }
    {
        self.book.close(outcome)
    }

    /// Gives up the name. A run of the machine leads to the book's state.
    pub fn into_book(self) -> Book<'a, O>
        ensures book { result ≡ self.entry }
        ensures opening { result.opening ≡ K.opening }
        ensures order { Some result.order ≡ K.order }
        ensures run { Run (O.meaning result.order) (opening_of result.opening) result.state.history result.state }
        ensures first { AreOfFirst K.parts result.state.history }
    {
        let Held { book, .. } = self;
        let _ = book.history();
        book
    }

    /// The book under the name, the count of the rounds, and the hands of all its workers. For want of memory the book is dropped.
    pub fn new(
        alloc: Global,
        blank: Blank,
        rounds: Blank,
        mut book: Book<'a, O>,
        workers: u32,
    ) -> Result<(Held<'a, O, K, C>, Share<C>, Vec<Hand<K>>), AllocError>
        requires name { blank.name ≡ K.name }
        requires parts { blank.parts ≡ K.parts }
        requires rounds { (rounds.name ≡ C.name) × (rounds.parts ≡ C.parts) }
        requires workers { (workers ≡ K.parts) × (workers ≤ 65) }
        requires opening { book.opening ≡ K.opening }
        requires order { Some book.order ≡ K.order }
        requires none { book.enrolled ≡ [] }
        requires history { commits_of book.state.history ≡ 0 }
        ensures held { IfOk result (λ r. r.0 ≡ record book.entry { enrolled = r.0.enrolled }) }
        ensures made { IfOk result (λ r. (r.1.parts ≡ C.parts) × (r.1.amount ≡ 0)) }
        ensures all { IfOk result (λ r. vec_len r.2 ≡ K.parts) }
        ensures each { IfOk result (λ r. (k : ℕ) (d : HandView) → k < vec_len r.2 → slice_index_or r.2.items k d ≡ record { worker = k; commits = 0 }) }
    {
        let (rounds, made) = rounds.open::<C>();
        let (total, mut rest) = blank.open::<K>();
        let mut hands = Vec::new(alloc);
        for worker in 0..workers {
            let share = rest.split_off(1, 0);
            let hand = Hand {
                pass: book.enroll(alloc, worker)?,
                share,
            };
            hands.push(hand)?;
        }
        Ok((
            Held {
                book,
                total,
                rounds,
            },
            made,
            hands,
        ))
    }

    /// As many rounds as the count says were made, and at least as many units are counted. The count has the whole ledger.
    pub fn has_made(&mut self, made: &mut Share<C>)
        requires whole { made.old.parts ≡ C.parts }
        ensures few { made.old.amount ≤ self.old.state.counted }
        ensures held { self.new ≡ self.old }
        ensures parts { made.new.parts ≡ made.old.parts }
        ensures amount { made.new.amount ≡ made.old.amount }
    {
        self.rounds.audit(made);
    }

    /// One more round was made, where more units are counted than rounds.
    pub fn makes_round(&mut self, made: &mut Share<C>)
        requires whole { (made.old.parts ≡ C.parts) × (0 < made.old.parts) }
        requires room { made.old.amount < self.old.state.counted }
        ensures held { self.new ≡ self.old }
        ensures parts { made.new.parts ≡ made.old.parts }
        ensures amount { made.new.amount ≡ made.old.amount + 1 }
    {
        self.rounds.audit(made);
        self.rounds.add(made, 1);
    }

    /// All hands together have the commits of the history.
    pub fn tally(&mut self, hands: &mut [Hand<K>])
        requires { (length hands.old ≡ K.parts) × (0 < length hands.old) }
        ensures held { self.new ≡ self.old }
        ensures hands { hands.new ≡ hands.old }
        ensures sum { sum_by (λ (h : HandView). h.commits) hands.old ≡ commits_of self.old.state.history }
    {
        let mut seen = hands[0].none();
        gather(&mut self.total, hands, &mut seen);
    }

    /// Works alone, as `work_alone` over the book. The hand and the total rise by the commits that were made.
    pub fn alone<R: Wait>(
        &mut self,
        rt: &R,
        alloc: Global,
        shelf: &Shelf,
        problem: &Encoded,
        order: &O,
        hand: &mut Hand<K>,
    ) -> Ended
        requires problem { problem.now ≡ K.opening.problem }
        requires shelf { shelf.now ≡ K.opening.shelf }
        requires order { Some order.now ≡ K.order }
        requires none_out { self.old.state.out ≡ [] }
        ensures ended { EndsAlone (O.meaning self.old.order) (opening_of self.old.opening) hand.old.worker self.old.state result self.new.state }
        ensures none_out { self.new.state.out ≡ [] }
        ensures book { IsSameBook self.old self.new }
        ensures worker { hand.new.worker ≡ hand.old.worker }
        ensures commits { hand.new.commits + commits_of self.old.state.history ≡ hand.old.commits + commits_of self.new.state.history }
        ensures counted { self.old.state.counted ≤ self.new.state.counted }
    {
        self.total.audit(&mut hand.share);
        let before = hand.pass.commits();
        let ended = work_alone(
            rt,
            alloc,
            &mut self.book,
            shelf,
            problem,
            order,
            &mut hand.pass,
        );
        has_few_commits(&self.book);
        let made = hand.pass.commits() - before;
        self.total.add(&mut hand.share, made);
        ended
    }
}

impl<'a, O: Order + Sync, K: NamesOrder<O>, C: Ledger> Held<'a, O, K, C> {
    /// Makes the final pass over the drained book, as `end_round` over the book.
    pub fn end_round<R: Threads + Wait + Sync>(
        &mut self,
        rt: &R,
        alloc: Global,
        shelf: &Shelf,
        order: &O,
        workers: u32,
        passes: &mut FinalPasses,
    ) -> Result<Option<Verdict>, AllocError>
        requires shelf { shelf.now ≡ K.opening.shelf }
        requires order { Some order.now ≡ K.order }
        requires drained { IsDrained self.old.state }
        ensures passes { OnOk result (passes.new ≡ counted_on passes.old 1) }
        ensures ends { IfOk result (λ verdict. EndsRound (O.meaning self.old.order) (opening_of self.old.opening) self.old.state verdict self.new.state) }
        ensures verdict { IfOk result (λ verdict. self.new.state.verdict ≡ verdict) }
        ensures out { self.new.state.out ≡ self.old.state.out }
        ensures counted { IfOk result (λ verdict. verdict ≡ None → self.old.state.counted < self.new.state.counted) }
        ensures book { IsSameBook self.old self.new }
    {
        end_round(rt, alloc, &mut self.book, shelf, order, workers, passes)
    }
}

impl<'a, O: Order, K: NamesOrder<O>, C: Ledger> Held<'a, O, K, C> {
    /// What happened, in order. A run of the machine with this history leads to the book's state.
    pub fn history(&self) -> &[Event]
        ensures events { result.now ≡ self.now.state.history }
        ensures opening { self.now.opening ≡ K.opening }
        ensures order { Some self.now.order ≡ K.order }
        ensures run { Run (O.meaning self.now.order) (opening_of self.now.opening) result.now self.now.state }
        ensures first { AreOfFirst K.parts result.now }
    {
        self.book.history()
    }
}

// Lends the parts of all hands to `seen`, and finds that they have the total.
#[cycle(gather)]
fn gather<K: Naming>(total: &mut ledger::Book<K>, hands: &mut [Hand<K>], seen: &mut Share<K>)
    requires all { seen.old.parts + length hands.old ≡ K.parts }
    requires backed { seen.old.parts ≡ 0 → seen.old.amount ≡ 0 }
    ensures total { total.new.total ≡ total.old.total }
    ensures hands { hands.new ≡ hands.old }
    ensures parts { seen.new.parts ≡ seen.old.parts }
    ensures amount { seen.new.amount ≡ seen.old.amount }
    ensures sum { seen.old.amount + sum_by (λ (h : HandView). h.commits) hands.old ≡ total.old.total }
{
    match hands.split_first_mut() {
        None => total.audit(seen),
        Some((first, rest)) => around(total, first, rest, seen),
    }
}

#[cycle(gather)]
fn around<K: Naming>(
    total: &mut ledger::Book<K>,
    first: &mut Hand<K>,
    rest: &mut [Hand<K>],
    seen: &mut Share<K>,
)
    requires all { (seen.old.parts + length rest.old) + 1 ≡ K.parts }
    requires backed { seen.old.parts ≡ 0 → seen.old.amount ≡ 0 }
    ensures total { total.new.total ≡ total.old.total }
    ensures first { first.new ≡ first.old }
    ensures hands { rest.new ≡ rest.old }
    ensures parts { seen.new.parts ≡ seen.old.parts }
    ensures amount { seen.new.amount ≡ seen.old.amount }
    ensures sum { seen.old.amount + (first.old.commits + sum_by (λ (h : HandView). h.commits) rest.old) ≡ total.old.total }
{
    let commits = first.pass.commits();
    first.share.give(seen, 1, commits);
    gather(total, rest, seen);
    seen.give(&mut first.share, 1, commits);
}

/// There are fewer commits than the history has events, and no memory has room for so many.
fn has_few_commits<O: Order>(book: &Book<O>)
    ensures { commits_of book.now.state.history < 2 ^ 64 }
{
    let _events = book.history().len();
}
