//! An index that looks through a list of equations.

ghost use Rattle.std.specs.Prelude.{◌≡◌, ◌<◌, ◌≤◌, ◌^◌, ◌++◌, ◌∷◌, [], length, IfOk, OnErr};
ghost use Rattle.uc_term.specs.Tree.{Tree as AnyTree};
ghost use Rattle.uc_term.specs.Flat.{tree_of, IsWhole};
ghost use Rattle.uc_term.specs.Equations.{side_of, other_side_of};
ghost use Rattle.uc_fact.specs.declared.index.Found.{Found as AnyFound};
ghost use Rattle.uc_fact.specs.Live.{rule_of, rules_of};
ghost use Rattle.uc_fact.specs.Retrieval.{FindsNothing, IsFound, FirstThat};
ghost use Rattle.uc_rewrite.specs.Scanning.{live_fact, Adds};

use std::alloc::{AllocError, Global};
use uc_fact::{Equation, Found, Index, Outlook, Side, Test, is_instance, matching, passes_by};
use uc_term::{MAX_NODES, Node, Seq, Term};
use uc_unify::matches;

/// An index of equations, numbered by their places, that looks through the list of them. It takes no
/// memory for a side that the term is no instance of: that is told by a walk over both.
#[derive(Drop)]
pub struct Scan<'a> {
    facts: &'a [Equation],
    ghost few: { length facts.now < 2 ^ 31 },
}

impl<'a> Scan<'a> {
    /// The index of these equations. It takes no memory.
    pub fn new(facts: &'a [Equation]) -> Scan<'a>
        requires { length facts.now < 2 ^ 31 }
        ensures { result.facts.now ≡ facts.now }
    {
        Scan { facts }
    }
}

impl<'a> Index for Scan<'a> {
    ghost use Rattle.uc_fact.specs.Live.{numbered};
    ghost use Rattle.uc_rewrite.specs.Scanning.{numbered_rise};

    ghost live = { λ s. numbered s.facts.now };

    fn generalisations(&self, alloc: Global, term: &[Node]) -> Result<Seq<Found>, AllocError> {
        let mut list = Vec::new(alloc);
        for (number, fact) in self.facts.iter().enumerate() {
            add_match(alloc, &mut list, fact, number as u32, Side::Left, term)?;
            add_match(alloc, &mut list, fact, number as u32, Side::Right, term)?;
        }
        Ok(Seq::from_vec(list))
    }

    fn first_that<T: Test>(
        &self,
        alloc: Global,
        term: &[Node],
        test: &T,
    ) -> Result<Option<Found>, AllocError> {
        let mut space = Vec::new(alloc);
        for (number, fact) in self.facts.iter().enumerate() {
            if let Some(found) = first_of_sides(
                alloc,
                fact,
                number as u32,
                term,
                test,
                &mut space,
            )? {
                return Ok(Some(found));
            }
        }
        Ok(None)
    }

    fn pair(&self, fact: u32) -> Option<(&Term, &Term)> {
        let place = fact as usize;
        if place >= self.facts.len() {
            return None;
        }
        let equation = &self.facts[place];
        Some((&equation.left, &equation.right))
    }

    ghost rising = { λ s. numbered_rise s.facts.now };
}

/// The side of an equation.
fn side_term(fact: &Equation, side: Side) -> &Term
    ensures { result.now ≡ side_of side fact.now }
{
    match side {
        Side::Left => &fact.left,
        Side::Right => &fact.right,
    }
}

/// The other side of an equation.
fn other_side_term(fact: &Equation, side: Side) -> &Term
    ensures { result.now ≡ other_side_of side fact.now }
{
    match side {
        Side::Left => &fact.right,
        Side::Right => &fact.left,
    }
}

/// Puts a side of a fact at the end of the list, where the term is an instance of it.
fn add_match(
    alloc: Global,
    list: &mut Vec<Found>,
    fact: &Equation,
    number: u32,
    side: Side,
    term: &[Node],
) -> Result<(), AllocError>
    requires whole { IsWhole term.now }
    requires small { length term.now ≤ MAX_NODES }
    ensures value { IfOk result (λ _. Adds (tree_of term.now) (rule_of side (live_fact number fact.now) ∷ []) list.old.items list.new.items) }
    ensures memory { OnErr result (FindsNothing (tree_of term.now) (rule_of side (live_fact number fact.now) ∷ []) → ⊥) }
{
    match matching(alloc, side_term(fact, side).as_nodes(), term)? {
        Some(subst) => {
            list.push(Found {
                fact: number,
                side,
                subst,
            })?;
            Ok(())
        }
        None => Ok(()),
    }
}

/// The first of a fact's sides, left before right, of which the term is an instance and that passes the test. The test is lent
/// the space.
fn first_of_sides<T: Test>(
    alloc: Global,
    fact: &Equation,
    number: u32,
    term: &[Node],
    test: &T,
    space: &mut Vec<Node>,
) -> Result<Option<Found>, AllocError>
    requires whole { IsWhole term.now }
    requires small { length term.now ≤ MAX_NODES }
    requires can { (found : AnyFound) (from to : AnyTree) → IsFound (tree_of term.now) (rules_of (live_fact number fact.now ∷ [])) found from to → T.can_test test.now found from to }
    ensures value { IfOk result (FirstThat (T.accepts test.now) (tree_of term.now) (rules_of (live_fact number fact.now ∷ []))) }
    ensures memory { OnErr result (FindsNothing (tree_of term.now) (rules_of (live_fact number fact.now ∷ [])) → ⊥) }
{
    match first_of_side(alloc, fact, number, Side::Left, term, test, space)? {
        Some(found) => Ok(Some(found)),
        None => first_of_side(alloc, fact, number, Side::Right, term, test, space),
    }
}

/// A side of a fact, where the term is an instance of it and it passes the test.
fn first_of_side<T: Test>(
    alloc: Global,
    fact: &Equation,
    number: u32,
    side: Side,
    term: &[Node],
    test: &T,
    space: &mut Vec<Node>,
) -> Result<Option<Found>, AllocError>
    requires whole { IsWhole term.now }
    requires small { length term.now ≤ MAX_NODES }
    requires can { (found : AnyFound) (from to : AnyTree) → IsFound (tree_of term.now) (rule_of side (live_fact number fact.now) ∷ []) found from to → T.can_test test.now found from to }
    ensures value { IfOk result (FirstThat (T.accepts test.now) (tree_of term.now) (rule_of side (live_fact number fact.now) ∷ [])) }
    ensures memory { OnErr result (FindsNothing (tree_of term.now) (rule_of side (live_fact number fact.now) ∷ []) → ⊥) }
{
    let from = side_term(fact, side);
    let to = other_side_term(fact, side);
    let pattern = from.as_nodes();
    if !is_instance(pattern, term) {
        return Ok(None);
    }
    let outlook = test.outlook(number, side, from, to);
    if let Outlook::Fails = outlook {
        return Ok(None);
    }
    match matches(alloc, pattern, term)? {
        Some(subst) => {
            let found = Found {
                fact: number,
                side,
                subst,
            };
            if passes_by(alloc, test, outlook, &found, from, to, space)? {
                Ok(Some(found))
            } else {
                Ok(None)
            }
        }
        None => Ok(None),
    }
}
