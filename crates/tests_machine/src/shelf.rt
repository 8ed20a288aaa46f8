//! The shelf: what a view finds, and fronts that stand apart.

ghost use Rattle.std.specs.Prelude.{IfOk};
ghost use Rattle.uc_shelf.specs.Fronts.{IsOf};

use crate::alphabet::fact_of;
use crate::fronts::put;
use std::alloc::{AllocError, Global};
use std::sync::Wait;
use std::test::Fail;
use uc_fact::{Found, Index, Outlook, Side, Test};
use uc_shelf::{Entry, Front, Shelf};
use uc_term::{Node, Sym, Term, TermFault};

const F: Sym = Sym(0);

const G: Sym = Sym(1);

// The term of a symbol over a variable.
fn over(alloc: Global, symbol: Sym, x: u32) -> Result<Term, TermFault> {
    let args = [Term::var(alloc, x)?];
    Term::app(alloc, symbol, &args)
}

// A fact with these sides is born.
fn born(alloc: Global, left: Term, right: Term) -> Result<Entry, AllocError> {
    Ok(Entry::Born(fact_of(alloc, left, right)?))
}

// The entries of one front: f(X) = X and g(X) = f(X) are born, the second one dies, and it is born once more.
fn entry(alloc: Global, k: u32) -> Result<Entry, TermFault> {
    match k {
        0 => Ok(born(alloc, over(alloc, F, 0)?, Term::var(alloc, 0)?)?),
        2 => Ok(Entry::Dies { fact: 1, killer: 2 }),
        _ => Ok(born(alloc, over(alloc, G, 0)?, over(alloc, F, 0)?)?),
    }
}

// The front of the four entries.
fn filled<R: Wait>(rt: &R, alloc: Global, shelf: &Shelf) -> Result<Front, Fail>
    ensures { IfOk result (λ front. IsOf shelf.now front) }
{
    let mut front = Front::empty(alloc);
    put(rt, alloc, shelf, &mut front, entry(alloc, 0)?)?;
    put(rt, alloc, shelf, &mut front, entry(alloc, 1)?)?;
    put(rt, alloc, shelf, &mut front, entry(alloc, 2)?)?;
    put(rt, alloc, shelf, &mut front, entry(alloc, 3)?)?;
    Ok(front)
}

// Whether these facts and sides are found for the symbol over a variable.
fn finds<I: Index>(
    alloc: Global,
    index: &I,
    symbol: Sym,
    rows: &[(u32, Side)],
) -> Result<bool, Fail> {
    let term = over(alloc, symbol, 7)?;
    let list = index.generalisations(alloc, term.as_nodes())?;
    let found = list.as_slice();
    if found.len() != rows.len() {
        return Ok(false);
    }
    for k in 0..rows.len() {
        if found[k].fact != rows[k].0 || found[k].side != rows[k].1 {
            return Ok(false);
        }
    }
    Ok(true)
}

// The test whether something is found at a left side.
struct IsLeft;

impl Test for IsLeft {
    ghost use Rattle.std.specs.Prelude.{◌≡◌, true};
    ghost use Rattle.uc_term.specs.declared.equation.Side.TheVariants.{Left};

    ghost can_test = { λ s found from to. Unit {0} };

    ghost accepts = { λ s found. found.side ≡ Left };

    fn outlook(&self, _fact: u32, _side: Side, _from: &Term, _to: &Term) -> Outlook {
        Outlook::Unclear
    }

    fn passes(
        &self,
        _alloc: Global,
        found: &Found,
        _from: &Term,
        _to: &Term,
        _space: &mut Vec<Node>,
    ) -> Result<bool, AllocError> {
        Ok(found.side == Side::Left)
    }
}

// The first fact of whose left side the symbol over a variable is an instance.
fn first_left<I: Index>(alloc: Global, index: &I, symbol: Sym) -> Result<Option<u32>, Fail> {
    let term = over(alloc, symbol, 7)?;
    match index.first_that(alloc, term.as_nodes(), &IsLeft)? {
        Some(found) => Ok(Some(found.fact)),
        None => Ok(None),
    }
}

// Whether the facts 0 and 2 live, and no other.
fn are_live<I: Index>(index: &I) -> bool {
    index.pair(0).is_some()
        && index.pair(1).is_none()
        && index.pair(2).is_some()
        && index.pair(3).is_none()
}

// Facts that live are found, by number and left before right; a dead one isn't.
#[test]
fn a_view_has_what_lives(rt: HostRuntime) -> Result<(), Fail> {
    let alloc = rt.alloc();
    let shelf = Shelf::new(alloc)?;
    let front = filled(&rt, alloc, &shelf)?;
    let view = shelf.view(&front);
    assert!(rt; are_live(&view));
    assert!(rt; finds_living(alloc, &view)?);
    Ok(())
}

const OF_G: &[(u32, Side)] = &[(0, Side::Right), (2, Side::Left)];

const OF_F: &[(u32, Side)] = &[(0, Side::Left), (0, Side::Right), (2, Side::Right)];

fn finds_living<I: Index>(alloc: Global, index: &I) -> Result<bool, Fail> {
    Ok(
        finds(alloc, index, G, OF_G)?
            && finds(alloc, index, F, OF_F)?
            && first_left(alloc, index, G)? == Some(2),
    )
}

// A copy and a front that was made apart have the same entries until one gets one more; the others stay.
#[test]
fn fronts_stand_apart(rt: HostRuntime) -> Result<(), Fail> {
    let shelf = Shelf::new(rt.alloc())?;
    assert!(rt; stand_apart(&rt, rt.alloc(), &shelf)?);
    Ok(())
}

fn stand_apart<R: Wait>(rt: &R, alloc: Global, shelf: &Shelf) -> Result<bool, Fail> {
    let mut front = filled(rt, alloc, shelf)?;
    let apart = filled(rt, alloc, shelf)?;
    part(rt, alloc, shelf, &mut front, &apart)
}

// Whether a front is as its copy and another one, until it gets one entry more.
fn part<R: Wait>(
    rt: &R,
    alloc: Global,
    shelf: &Shelf,
    front: &mut Front,
    apart: &Front,
) -> Result<bool, Fail>
    requires front { IsOf shelf.now front.old }
    requires apart { IsOf shelf.now apart.now }
{
    let other = front.copy(alloc)?;
    let were_same = shelf.same(front, &other) && shelf.same(front, apart);
    put(rt, alloc, shelf, front, Entry::Dies { fact: 0, killer: 2 })?;
    Ok(were_same && are_apart(shelf, front, &other, apart))
}

// Whether a front has one entry more than two others, which have the four.
fn are_apart(shelf: &Shelf, front: &Front, other: &Front, apart: &Front) -> bool
    requires front { IsOf shelf.now front.now }
    requires other { IsOf shelf.now other.now }
    requires apart { IsOf shelf.now apart.now }
{
    front.len() == 5
        && other.len() == 4
        && !shelf.same(front, other)
        && !shelf.same(front, apart)
        && shelf.view(front).pair(0).is_none()
        && are_live(&shelf.view(other))
}

// Whether the front has this entry at a number.
fn reads(shelf: &Shelf, front: &Front, k: u32, wanted: &Entry) -> bool
    requires { IsOf shelf.now front.now }
{
    k < front.len() && shelf.read(front, k).same(wanted)
}

// What is read is what was put there.
#[test]
fn entries_are_read(rt: HostRuntime) -> Result<(), Fail> {
    let shelf = Shelf::new(rt.alloc())?;
    assert!(rt; reads_all(&rt, rt.alloc(), &shelf)?);
    Ok(())
}

fn reads_all<R: Wait>(rt: &R, alloc: Global, shelf: &Shelf) -> Result<bool, Fail> {
    let front = filled(rt, alloc, shelf)?;
    let is_last = reads_copy(alloc, shelf, &front)?;
    Ok(is_last && reads(shelf, &front, 2, &Entry::Dies { fact: 1, killer: 2 }))
}

// Whether the front has a copy of the last entry at its place alone.
fn reads_copy(alloc: Global, shelf: &Shelf, front: &Front) -> Result<bool, TermFault>
    requires { IsOf shelf.now front.now }
{
    let last = entry(alloc, 3)?.copy(alloc)?;
    Ok(reads_last(shelf, front, &last))
}

// Whether the front has the entry at 3 alone.
fn reads_last(shelf: &Shelf, front: &Front, last: &Entry) -> bool
    requires { IsOf shelf.now front.now }
{
    reads(shelf, front, 3, last) && !reads(shelf, front, 2, last) && !reads(shelf, front, 4, last)
}

fn crosses<T: Send + Sync>(_value: &T) {}

// Threads may share a shelf and fronts.
#[test]
fn threads_may_share(rt: HostRuntime) -> Result<(), Fail> {
    let shelf = Shelf::new(rt.alloc())?;
    crosses(&shelf);
    let front = Front::empty(rt.alloc());
    crosses(&front);
    assert!(rt; front.is_empty());
    Ok(())
}
