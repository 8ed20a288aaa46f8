//! What is found for terms by chance: by a scan of facts by chance, and by the trees of a shelf on which some of them died.

ghost use Rattle.std.specs.Prelude.{◌<◌, length};
ghost use Rattle.uc_shelf.specs.Fronts.{IsOf};

use crate::terms::term;
use std::alloc::{AllocError, Global};
use std::sync::Wait;
use std::test::Fail;
use uc_fact::{Chain, Equation, Fact, Found, Index, Origin, Outlook, Side, Stop, Test};
use uc_rewrite::Scan;
use uc_shelf::{Entry, Front, Shelf, View};
use uc_term::{Node, Seq, Subst, Term, TermFault};

// A number below another one, by chance.
fn below(state: &mut u32, n: u32) -> u32
    requires { 0 < n }
    ensures { result < n }
{
    *state = state.wrapping_mul(1664525).wrapping_add(1013904223);
    (*state >> 8) % n
}

const LEAVES: [u8; 5] = [b'a', b'b', b'X', b'Y', b'Z'];

// A constant, or a variable where these are wanted, by chance.
fn leaf(state: &mut u32, variables: bool) -> u8 {
    let count = if variables { 5 } else { 2 };
    LEAVES[below(state, count) as usize % 5]
}

// A symbol round the term that is spelled, by chance, with a leaf before or behind that term where the symbol is binary.
fn grow(text: &mut Vec<u8>, state: &mut u32, variables: bool) -> Result<(), AllocError> {
    match below(state, 4) {
        0 => text.push(b'f')?,
        1 => text.push(b'g')?,
        2 => {
            text.push(leaf(state, variables))?;
            text.push(b'm')?;
        }
        _ => {
            text.insert(0, leaf(state, variables))?;
            text.push(b'm')?;
        }
    }
    Ok(())
}

// A term by chance, of at most 9 nodes.
fn by_chance(alloc: Global, state: &mut u32, variables: bool) -> Result<Term, TermFault> {
    let mut text = Vec::new(alloc);
    text.push(leaf(state, variables))?;
    for _ in 0..below(state, 5) {
        grow(&mut text, state, variables)?;
    }
    term(alloc, text.as_slice())
}

fn born(alloc: Global, equation: &Equation) -> Result<Entry, AllocError> {
    Ok(Entry::Born(Fact {
        left: equation.left.copy(alloc)?,
        right: equation.right.copy(alloc)?,
        oriented: false,
        origin: Origin::Axiom(0),
        chain: Chain {
            start: equation.left.copy(alloc)?,
            steps: Seq::new(alloc),
        },
        front: 0,
        stops: (Stop::Full, Stop::Full),
    }))
}

fn put<R: Wait>(
    rt: &R,
    alloc: Global,
    shelf: &Shelf,
    front: &mut Front,
    entry: Entry,
) -> Result<(), Fail>
    requires of { IsOf shelf.now front.old }
    ensures of { IsOf shelf.now front.new }
{
    if front.len() >= 999 {
        return Err(Fail::from("too long"));
    }
    Ok(shelf.publish(rt, alloc, front, entry)?)
}

// A fact by chance is born; and after each third one a fact by chance dies, whose number goes to the dead.
fn put_one<R: Wait>(
    rt: &R,
    alloc: Global,
    shelf: &Shelf,
    front: &mut Front,
    state: &mut u32,
    facts: &mut Vec<Equation>,
    dead: &mut Vec<u32>,
) -> Result<(), Fail>
    requires of { IsOf shelf.now front.old }
    ensures of { IsOf shelf.now front.new }
{
    let left = by_chance(alloc, state, true)?;
    let right = by_chance(alloc, state, true)?;
    let equation = Equation { left, right };
    put(rt, alloc, shelf, front, born(alloc, &equation)?)?;
    facts.push(equation)?;
    if below(state, 3) > 0 || facts.len() > 400 {
        return Ok(());
    }
    let fact = below(state, facts.len() as u32);
    dead.push(fact)?;
    put(rt, alloc, shelf, front, Entry::Dies { fact, killer: 0 })
}

// The test whether a fact's number leaves this rest when it is divided by 3.
#[derive(Drop)]
struct Leaves {
    rest: u32,
}

impl Test for Leaves {
    ghost use Rattle.std.specs.Prelude.{◌≡◌, ◌%◌};

    ghost can_test = { λ s found from to. Unit {0} };

    ghost accepts = { λ s found. found.fact % 3 ≡ s.rest };

    fn outlook(&self, fact: u32, _side: Side, _from: &Term, _to: &Term) -> Outlook {
        if fact % 3 != self.rest {
            Outlook::Fails
        } else {
            Outlook::Unclear
        }
    }

    fn passes(
        &self,
        _alloc: Global,
        found: &Found,
        _from: &Term,
        _to: &Term,
        _space: &mut Vec<Node>,
    ) -> Result<bool, AllocError> {
        Ok(found.fact % 3 == self.rest)
    }
}

fn same_value(a: &Subst, b: &Subst, x: u32) -> bool {
    match (a.get(x), b.get(x)) {
        (Some(s), Some(t)) => s == t,
        (None, None) => true,
        _ => false,
    }
}

fn same_found(a: &Found, b: &Found) -> bool {
    a.fact == b.fact
        && a.side == b.side
        && same_value(&a.subst, &b.subst, 0)
        && same_value(&a.subst, &b.subst, 1)
        && same_value(&a.subst, &b.subst, 2)
}

// Whether the list is the other one without what the dead facts give.
fn is_alive_part(all: &[Found], living: &[Found], dead: &[u32]) -> bool {
    let mut k = 0;
    for found in all {
        if !dead.contains(&found.fact) {
            if k >= living.len() || !same_found(found, &living[k]) {
                return false;
            }
            k += 1;
        }
    }
    k == living.len()
}

// The first of a list that leaves this rest.
fn first_of_rest<'a>(list: &'a [Found], rest: u32) -> Option<&'a Found> {
    for found in list {
        if found.fact % 3 == rest {
            return Some(found);
        }
    }
    None
}

// Whether the view finds for a term what the scan does, without the dead. How much it finds.
fn found_alike(
    alloc: Global,
    scan: &Scan,
    view: &View,
    dead: &[u32],
    term: &Term,
) -> Result<usize, Fail> {
    let all = scan.generalisations(alloc, term.as_nodes())?;
    let living = view.generalisations(alloc, term.as_nodes())?;
    if !is_alive_part(all.as_slice(), living.as_slice(), dead) {
        return Err(Fail::from("the lists differ"));
    }
    for rest in 0..3 {
        let first = view.first_that(alloc, term.as_nodes(), &Leaves { rest })?;
        let alike = match (first_of_rest(living.as_slice(), rest), first) {
            (Some(a), Some(b)) => same_found(a, &b),
            (None, None) => true,
            _ => false,
        };
        if !alike {
            return Err(Fail::from("the first ones differ"));
        }
    }
    Ok(living.len())
}

// Whether the view has the sides of a fact, where it isn't dead.
fn same_pair(facts: &[Equation], view: &View, dead: &[u32], number: u32) -> bool {
    let place = number as usize;
    match view.pair(number) {
        None => place >= facts.len() || dead.contains(&number),
        Some((left, right)) => {
            place < facts.len()
                && !dead.contains(&number)
                && facts[place].left.same(left)
                && facts[place].right.same(right)
        }
    }
}

// Puts so many facts by chance on a shelf and looks for so many terms.
fn compare_by_chance<R: Wait>(
    rt: &R,
    alloc: Global,
    seed: u32,
    count: u32,
    terms: u32,
) -> Result<usize, Fail> {
    let shelf = Shelf::new(alloc)?;
    let mut front = Front::empty(alloc);
    let mut state = seed;
    let mut facts = Vec::new(alloc);
    let mut dead = Vec::new(alloc);
    for _ in 0..count {
        put_one(
            rt, alloc, &shelf, &mut front, &mut state, &mut facts, &mut dead,
        )?;
    }
    let view = shelf.view(&front);
    compare_all(
        alloc,
        &view,
        facts.as_slice(),
        dead.as_slice(),
        state,
        terms,
    )
}

fn compare_all(
    alloc: Global,
    view: &View,
    facts: &[Equation],
    dead: &[u32],
    seed: u32,
    terms: u32,
) -> Result<usize, Fail> {
    if facts.len() > 1000 {
        return Err(Fail::from("too many facts"));
    }
    for number in 0..facts.len() as u32 + 3 {
        if !same_pair(facts, view, dead, number) {
            return Err(Fail::from("the sides differ"));
        }
    }
    let scan = Scan::new(facts);
    let mut state = seed;
    let mut sum: usize = 0;
    for number in 0..terms {
        let term = by_chance(alloc, &mut state, number % 2 == 0)?;
        sum = sum.saturating_add(found_alike(alloc, &scan, view, dead, &term)?);
    }
    Ok(sum)
}

#[test]
fn trees_find_what_a_scan_finds(rt: HostRuntime) -> Result<(), Fail> {
    let alloc = rt.alloc();
    for seed in 1..9 {
        let found = compare_by_chance(&rt, alloc, seed, 50 + seed, 60)?;
        assert!(rt; found > 100);
    }
    Ok(())
}
