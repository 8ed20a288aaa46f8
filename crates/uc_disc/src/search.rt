//! Finds the first rule that gives something that passes a test.

ghost use Rattle.std.specs.Prelude.{◌≡◌, ◌+◌, ◌*◌, ◌-◌, ◌<◌, ◌≤◌, ◌^◌, ℕ, [], false, IsTrue, IfOk, OnErr, length, slice_index_or};
ghost use Rattle.uc_term.specs.Tree.{Tree as AnyTree};
ghost use Rattle.uc_term.specs.Flat.{tree_of, IsWhole};
ghost use Rattle.uc_fact.specs.declared.index.Found.{Found as AnyFound};
ghost use Rattle.uc_fact.specs.Embedding.{Embedded};
ghost use Rattle.uc_fact.specs.Live.{rules_of};
ghost use Rattle.uc_fact.specs.Retrieval.{IsFound, FindsNothing};
ghost use Rattle.uc_disc.specs.Numbered.{lives};
ghost use Rattle.uc_disc.specs.Trail.{IsTree, AreSupported};
ghost use Rattle.uc_disc.specs.Heads.{IsRoot, AreHeads, AreParts};
ghost use Rattle.uc_disc.specs.Retrieving.{IsTried, IsFirstFrom, IsBest, IsBetter, IsBestBefore, IsPassed};
ghost use Rattle.uc_disc.specs.Idle.{AreIdleRules, AreIdle};

use crate::facts::{other_side_term, side_of_rule, side_term};
use crate::heads::{Head, Part, Parts, parts_of};
use crate::idle::is_marked;
use crate::place::{Place, leaf_rule};
use crate::walk::next_leaf;
use std::alloc::{AllocError, Global};
use std::mem;
use uc_fact::{Equation, Found, Outlook, Side, Test, passes_by};
use uc_term::{MAX_NODES, Node, Subst, Term};
use uc_unify::matches_in;

/// A rule with what it gives.
#[derive(Drop)]
pub struct Answer {
    pub rule: u32,
    pub found: Found,
}

/// The best answer so far, and a number below which the rules are that would be better.
#[derive(Drop)]
pub struct Best {
    pub answer: Option<Answer>,
    pub bound: u32,
}

/// What a search lends to each rule that it tries: what the rule gives is made there, and the test may use the space. What
/// stands in it is arbitrary.
#[derive(Drop)]
struct Lent {
    found: Found,
    space: Vec<Node>,
}

impl Lent {
    /// What a search begins with. It takes no memory.
    fn new(alloc: Global) -> Lent {
        Lent {
            found: nothing_found(alloc),
            space: Vec::new(alloc),
        }
    }
}

/// What is lent before a rule has given anything. It takes no memory.
fn nothing_found(alloc: Global) -> Found {
    Found {
        fact: 0,
        side: Side::Left,
        subst: Subst::new(alloc),
    }
}

/// A test that all pass.
pub struct Any;

impl Test for Any {
    ghost can_test = { λ _ _ _ _. Unit {0} };

    ghost accepts = { λ _ _. Unit {0} };

    fn outlook(&self, fact: u32, side: Side, from: &Term, to: &Term) -> Outlook {
        Outlook::Passes
    }

    fn passes(
        &self,
        alloc: Global,
        found: &Found,
        from: &Term,
        to: &Term,
        space: &mut Vec<Node>,
    ) -> Result<bool, AllocError> {
        Ok(true)
    }
}

/// Whether a rule is marked as idle, and the test refuses what idle rules give.
#[inline]
fn is_refused<T: Test>(idle: &[bool], rule: u32, test: &T) -> bool
    ensures marked { IsTrue result → IsTrue (slice_index_or idle.now rule false) }
    ensures refuses { IsTrue result → (found : AnyFound) (from to : AnyTree) → T.can_test test.now found from to → Embedded from to → T.accepts test.now found → ⊥ }
{
    if is_marked(idle, rule) {
        test.refuses_embedded()
    } else {
        false
    }
}

/// Makes what a rule of which the term is an instance gives, where it passes the test. Only then is it taken out of what is lent.
fn try_rule<T: Test>(
    facts: &[(u32, Equation)],
    idle: &[bool],
    alloc: Global,
    rule: u32,
    term: &[Node],
    test: &T,
    found: &mut Found,
    space: &mut Vec<Node>,
) -> Result<Option<Found>, AllocError>
    requires within { rule < 2 * length facts.now }
    requires whole { IsWhole term.now }
    requires small { length term.now ≤ MAX_NODES }
    requires few { length facts.now < 2 ^ 31 }
    requires idle { AreIdleRules (rules_of (lives facts.now)) idle.now }
    requires can { (found : AnyFound) (from to : AnyTree) → IsFound (tree_of term.now) (rules_of (lives facts.now)) found from to → T.can_test test.now found from to }
    ensures { IfOk result (IsTried (T.accepts test.now) (tree_of term.now) (rules_of (lives facts.now)) rule) }
{
    if is_refused(idle, rule, test) {
        return Ok(None);
    }
    let fact = &facts[rule as usize / 2];
    let side = side_of_rule(facts, rule);
    let from = side_term(&fact.1, side);
    let to = other_side_term(&fact.1, side);
    let outlook = test.outlook(fact.0, side, from, to);
    if let Outlook::Fails = outlook {
        return Ok(None);
    }
    found.fact = fact.0;
    found.side = side;
    if !matches_in(&mut found.subst, from.as_nodes(), term)? {
        return Ok(None);
    }
    if passes_by(alloc, test, outlook, found, from, to, space)? {
        Ok(Some(mem::replace(found, nothing_found(alloc))))
    } else {
        Ok(None)
    }
}

/// Tries a rule of which the term is an instance, where it would be better than the best answer so far, and returns the
/// better of the two.
#[inline(always)]
fn better<T: Test>(
    facts: &[(u32, Equation)],
    idle: &[bool],
    alloc: Global,
    best: Best,
    from: u32,
    rule: u32,
    term: &[Node],
    test: &T,
    lent: &mut Lent,
) -> Result<Best, AllocError>
    requires within { rule < 2 * length facts.now }
    requires whole { IsWhole term.now }
    requires small { length term.now ≤ MAX_NODES }
    requires few { length facts.now < 2 ^ 31 }
    requires idle { AreIdleRules (rules_of (lives facts.now)) idle.now }
    requires can { (found : AnyFound) (from to : AnyTree) → IsFound (tree_of term.now) (rules_of (lives facts.now)) found from to → T.can_test test.now found from to }
    requires best { IsBest (T.accepts test.now) (tree_of term.now) (rules_of (lives facts.now)) from best.bound best.answer }
    ensures { IfOk result (IsBetter (T.accepts test.now) (tree_of term.now) (rules_of (lives facts.now)) from rule best.bound) }
{
    if rule < from || best.bound <= rule {
        return Ok(best);
    }
    match try_rule(
        facts,
        idle,
        alloc,
        rule,
        term,
        test,
        &mut lent.found,
        &mut lent.space,
    )? {
        Some(found) => Ok(Best {
            answer: Some(Answer { rule, found }),
            bound: rule,
        }),
        None => Ok(best),
    }
}

/// Tries the rules of the leaves in a part of the tree to which the term leads, where they would be better than the best
/// answer so far, and returns the best one. Where no rule gives anything, this takes no memory.
#[inline(always)]
fn best_in<T: Test>(
    facts: &[(u32, Equation)],
    idle: &[bool],
    places: &[Place],
    alloc: Global,
    best: Best,
    from: u32,
    term: &[Node],
    test: &T,
    at: &mut [u16],
    lent: &mut Lent,
    part: Part,
) -> Result<Best, AllocError>
    requires whole { IsWhole term.now }
    requires small { length term.now ≤ MAX_NODES }
    requires tree { IsTree (rules_of (lives facts.now)) places.now (length at.old - 1) }
    requires room { 1 < length at.old }
    requires few { length facts.now < 2 ^ 31 }
    requires idle { AreIdleRules (rules_of (lives facts.now)) idle.now }
    requires can { (found : AnyFound) (from to : AnyTree) → IsFound (tree_of term.now) (rules_of (lives facts.now)) found from to → T.can_test test.now found from to }
    requires within { (part.start ≤ length places.now) × (part.stop ≤ length places.now) }
    requires root { IsRoot places.now part.start }
    requires best { IsBestBefore (T.accepts test.now) (tree_of term.now) (rules_of (lives facts.now)) places.now from part.start best }
    ensures value { IfOk result (IsBestBefore (T.accepts test.now) (tree_of term.now) (rules_of (lives facts.now)) places.now from part.stop) }
    ensures memory { OnErr result (FindsNothing (tree_of term.now) (rules_of (lives facts.now)) → ⊥) }
    ensures long { length at.new ≡ length at.old }
{
    at[0] = 0;
    let mut best = best;
    let mut i = next_leaf(places, term, at, part.start, part.stop, best.bound);
    while i < part.stop {
        let rule = leaf_rule(places[i].label);
        best = better(facts, idle, alloc, best, from, rule, term, test, lent)?;
        i = next_leaf(places, term, at, i + 1, part.stop, best.bound);
    }
    Ok(best)
}

/// Finds the first rule from a number on that gives something that passes the test, in the two parts, where no leaf before a
/// place gives any. Where no rule gives anything, this takes no memory.
#[inline(always)]
fn first_in<T: Test>(
    facts: &[(u32, Equation)],
    idle: &[bool],
    places: &[Place],
    alloc: Global,
    from: u32,
    term: &[Node],
    test: &T,
    passed: usize,
    parts: Parts,
    at: &mut [u16],
) -> Result<Option<Answer>, AllocError>
    requires whole { IsWhole term.now }
    requires small { length term.now ≤ MAX_NODES }
    requires tree { IsTree (rules_of (lives facts.now)) places.now (length at.old - 1) }
    requires passed { IsPassed (T.accepts test.now) (tree_of term.now) (rules_of (lives facts.now)) places.now from passed }
    requires parts { AreParts term.now places.now parts }
    requires room { 1 < length at.old }
    requires few { length facts.now < 2 ^ 31 }
    requires idle { AreIdleRules (rules_of (lives facts.now)) idle.now }
    requires can { (found : AnyFound) (from to : AnyTree) → IsFound (tree_of term.now) (rules_of (lives facts.now)) found from to → T.can_test test.now found from to }
    ensures value { IfOk result (IsFirstFrom (T.accepts test.now) (tree_of term.now) (rules_of (lives facts.now)) from) }
    ensures memory { OnErr result (FindsNothing (tree_of term.now) (rules_of (lives facts.now)) → ⊥) }
{
    let none = Best {
        answer: None,
        bound: u32::MAX,
    };
    let first = Part {
        start: passed,
        stop: parts.first,
    };
    let mut lent = Lent::new(alloc);
    let best = best_in(
        facts, idle, places, alloc, none, from, term, test, at, &mut lent, first,
    )?;
    if parts.second.start >= parts.second.stop {
        return Ok(best.answer);
    }
    let last = best_in(
        facts,
        idle,
        places,
        alloc,
        best,
        from,
        term,
        test,
        at,
        &mut lent,
        parts.second,
    )?;
    Ok(last.answer)
}

/// Does the same with little room, for a shallow tree.
fn first_shallow<T: Test>(
    facts: &[(u32, Equation)],
    idle: &[bool],
    places: &[Place],
    alloc: Global,
    from: u32,
    term: &[Node],
    test: &T,
    passed: usize,
    parts: Parts,
) -> Result<Option<Answer>, AllocError>
    requires whole { IsWhole term.now }
    requires small { length term.now ≤ MAX_NODES }
    requires tree { IsTree (rules_of (lives facts.now)) places.now 63 }
    requires passed { IsPassed (T.accepts test.now) (tree_of term.now) (rules_of (lives facts.now)) places.now from passed }
    requires parts { AreParts term.now places.now parts }
    requires few { length facts.now < 2 ^ 31 }
    requires idle { AreIdleRules (rules_of (lives facts.now)) idle.now }
    requires can { (found : AnyFound) (from to : AnyTree) → IsFound (tree_of term.now) (rules_of (lives facts.now)) found from to → T.can_test test.now found from to }
    ensures value { IfOk result (IsFirstFrom (T.accepts test.now) (tree_of term.now) (rules_of (lives facts.now)) from) }
    ensures memory { OnErr result (FindsNothing (tree_of term.now) (rules_of (lives facts.now)) → ⊥) }
{
    let mut at = [0u16; 64];
    first_in(
        facts, idle, places, alloc, from, term, test, passed, parts, &mut at,
    )
}

/// Does the same with room for all but the deepest trees: room is cleared at each call.
#[inline(never)]
fn first_middle<T: Test>(
    facts: &[(u32, Equation)],
    idle: &[bool],
    places: &[Place],
    alloc: Global,
    from: u32,
    term: &[Node],
    test: &T,
    passed: usize,
    parts: Parts,
) -> Result<Option<Answer>, AllocError>
    requires whole { IsWhole term.now }
    requires small { length term.now ≤ MAX_NODES }
    requires tree { IsTree (rules_of (lives facts.now)) places.now 511 }
    requires passed { IsPassed (T.accepts test.now) (tree_of term.now) (rules_of (lives facts.now)) places.now from passed }
    requires parts { AreParts term.now places.now parts }
    requires few { length facts.now < 2 ^ 31 }
    requires idle { AreIdleRules (rules_of (lives facts.now)) idle.now }
    requires can { (found : AnyFound) (from to : AnyTree) → IsFound (tree_of term.now) (rules_of (lives facts.now)) found from to → T.can_test test.now found from to }
    ensures value { IfOk result (IsFirstFrom (T.accepts test.now) (tree_of term.now) (rules_of (lives facts.now)) from) }
    ensures memory { OnErr result (FindsNothing (tree_of term.now) (rules_of (lives facts.now)) → ⊥) }
{
    let mut at = [0u16; 512];
    first_in(
        facts, idle, places, alloc, from, term, test, passed, parts, &mut at,
    )
}

/// Does the same with room for every tree.
#[inline(never)]
fn first_deep<T: Test>(
    facts: &[(u32, Equation)],
    idle: &[bool],
    places: &[Place],
    alloc: Global,
    from: u32,
    term: &[Node],
    test: &T,
    passed: usize,
    parts: Parts,
) -> Result<Option<Answer>, AllocError>
    requires tree { IsTree (rules_of (lives facts.now)) places.now 4097 }
    requires passed { IsPassed (T.accepts test.now) (tree_of term.now) (rules_of (lives facts.now)) places.now from passed }
    requires parts { AreParts term.now places.now parts }
    requires whole { IsWhole term.now }
    requires small { length term.now ≤ MAX_NODES }
    requires few { length facts.now < 2 ^ 31 }
    requires idle { AreIdleRules (rules_of (lives facts.now)) idle.now }
    requires can { (found : AnyFound) (from to : AnyTree) → IsFound (tree_of term.now) (rules_of (lives facts.now)) found from to → T.can_test test.now found from to }
    ensures value { IfOk result (IsFirstFrom (T.accepts test.now) (tree_of term.now) (rules_of (lives facts.now)) from) }
    ensures memory { OnErr result (FindsNothing (tree_of term.now) (rules_of (lives facts.now)) → ⊥) }
{
    let mut at = [0u16; 4098];
    first_in(
        facts, idle, places, alloc, from, term, test, passed, parts, &mut at,
    )
}

/// Returns a place before which no leaf gives anything that passes the test: that of the idle rules' end, where it refuses them.
#[inline]
fn passed_by<T: Test>(
    facts: &[(u32, Equation)],
    places: &[Place],
    idle_end: usize,
    from: u32,
    term: &[Node],
    test: &T,
) -> usize
    requires supported { AreSupported [] places.now }
    requires idle_end { AreIdle (rules_of (lives facts.now)) places.now idle_end }
    requires can { (found : AnyFound) (from to : AnyTree) → IsFound (tree_of term.now) (rules_of (lives facts.now)) found from to → T.can_test test.now found from to }
    ensures { IsPassed (T.accepts test.now) (tree_of term.now) (rules_of (lives facts.now)) places.now from result }
{
    if test.refuses_embedded() { idle_end } else { 0 }
}

/// Finds the first rule from a number on that gives something that passes the test. Where no rule gives anything, this
/// takes no memory.
pub fn first_from<T: Test>(
    facts: &[(u32, Equation)],
    places: &[Place],
    heads: &[Head],
    deep: usize,
    idle: &[bool],
    idle_end: usize,
    alloc: Global,
    from: u32,
    term: &[Node],
    test: &T,
) -> Result<Option<Answer>, AllocError>
    requires tree { IsTree (rules_of (lives facts.now)) places.now deep }
    requires heads { AreHeads places.now heads.now (length places.now) }
    requires idle { AreIdleRules (rules_of (lives facts.now)) idle.now }
    requires idle_end { AreIdle (rules_of (lives facts.now)) places.now idle_end }
    requires shallow { deep ≤ 4097 }
    requires whole { IsWhole term.now }
    requires small { length term.now ≤ MAX_NODES }
    requires few { length facts.now < 2 ^ 31 }
    requires can { (found : AnyFound) (from to : AnyTree) → IsFound (tree_of term.now) (rules_of (lives facts.now)) found from to → T.can_test test.now found from to }
    ensures value { IfOk result (IsFirstFrom (T.accepts test.now) (tree_of term.now) (rules_of (lives facts.now)) from) }
    ensures memory { OnErr result (FindsNothing (tree_of term.now) (rules_of (lives facts.now)) → ⊥) }
{
    let passed = passed_by(facts, places, idle_end, from, term, test);
    let parts = parts_of(heads, places, term);
    if parts.first <= passed && parts.second.start >= parts.second.stop {
        return Ok(None);
    }
    if deep < 64 {
        first_shallow(facts, idle, places, alloc, from, term, test, passed, parts)
    } else if deep < 512 {
        first_middle(facts, idle, places, alloc, from, term, test, passed, parts)
    } else {
        first_deep(facts, idle, places, alloc, from, term, test, passed, parts)
    }
}
