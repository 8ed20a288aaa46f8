//! An index of the facts that live in a front.

ghost use Rattle.std.specs.Prelude.{◌≡◌, ◌≤◌, ◌∷◌, ◌++◌, [], false, filter, not, length, map, IfOk, OnErr, OnOk, MatchOption, IsTrue};
ghost use Rattle.uc_term.specs.Tree.{Tree as AnyTree};
ghost use Rattle.uc_term.specs.Flat.{tree_of, IsWhole};
ghost use Rattle.uc_term.specs.Equations.{side_of};
ghost use Rattle.uc_unify.specs.Matching.{HasNoMatch};
ghost use Rattle.uc_fact.specs.Against.{HasMatch};
ghost use Rattle.uc_fact.specs.declared.index.Found.{Found as AnyFound};
ghost use Rattle.uc_fact.specs.Live.{rules_of, equation_of};
ghost use Rattle.uc_fact.specs.Retrieval.{IsFound, FirstThat, FindsNothing, Generalises};
ghost use Rattle.uc_shelf.specs.Entries.{born, is_dead, live, living};
ghost use Rattle.uc_shelf.specs.Fronts.{IsOf};
ghost use Rattle.uc_disc.specs.Numbered.{live_of, lives};
ghost use Rattle.uc_shelf.specs.Lending.{lent_of};
ghost use Rattle.uc_shelf.specs.Viewing.{found_living, still_living};

use crate::segment::births;
use crate::{Entry, Front, Shelf};
use std::alloc::{AllocError, Global};
use std::marker::Model;
use uc_fact::{Equation, Fact, Found, Index, Outlook, Side, Test, is_instance};
use uc_term::{MAX_NODES, Node, Seq, Term};

/// An index of the facts that are born and not dead in a front. A contract sees the front's entries.
///
/// It asks the trees of the front's segments, first to last: facts of an earlier segment have smaller numbers, so that the
/// first tree with an answer has the first one. What is dead is passed over.
#[derive(Drop)]
pub struct View<'a> {
    shelf: &'a Shelf,
    front: &'a Front,
}

impl<'a> Model for View<'a> {
    ghost use Rattle.std.specs.Prelude.{List};
    ghost use Rattle.std.specs.Coded.{codes};
    ghost use Rattle.uc_term.specs.Code.{tree_code};
    ghost use Rattle.uc_shelf.specs.declared.entry.Entry.{Entry as AnyEntry};
    ghost use Rattle.uc_shelf.specs.Fronts.{IsOf};

    ghost Value = { List AnyEntry };

    ghost coded = { Prim.hlevel (codes, tree_code) };

    ghost view = { λ v. v.front.now.entries };

    ghost invariant = { λ v. IsOf v.shelf.now v.front.now };
}

impl Shelf {
    /// An index of the facts that live in the front. It takes no memory.
    pub fn view<'a>(&'a self, front: &'a Front) -> View<'a>
        requires of { IsOf self.now front.now }
        ensures { result ≡ front.entry.now.entries }
    {
        View { shelf: self, front }
    }
}

/// A fact that lives in a front: its number, and its two sides, which are lent.
#[derive(Clone, Copy)]
pub struct Lent<'a> {
    pub number: u32,
    pub equation: &'a Equation,
}

/// A test that passes what lives in a front and passes another test.
#[derive(Drop)]
struct Living<'a, T> {
    front: &'a Front,
    test: &'a T,
}

impl<'a, T: Test> Test for Living<'a, T> {
    ghost can_test = { λ s found from to. is_dead s.front.now.entries found.fact ≡ false → T.can_test s.test.now found from to };

    ghost accepts = { λ s found. (is_dead s.front.now.entries found.fact ≡ false) × T.accepts s.test.now found };

    // The sides are looked at first: where they tell that the step fails, whether the fact is dead needn't be sought.
    fn outlook(&self, fact: u32, side: Side, from: &Term, to: &Term) -> Outlook {
        let outlook = self.test.outlook(fact, side, from, to);
        if let Outlook::Fails = outlook {
            return Outlook::Fails;
        }
        if self.front.is_dead(fact) {
            Outlook::Fails
        } else {
            outlook
        }
    }

    fn refuses_embedded(&self) -> bool {
        self.test.refuses_embedded()
    }

    fn passes(
        &self,
        alloc: Global,
        found: &Found,
        from: &Term,
        to: &Term,
        space: &mut Vec<Node>,
    ) -> Result<bool, AllocError> {
        if self.front.is_dead(found.fact) {
            Ok(false)
        } else {
            self.test.passes(alloc, found, from, to, space)
        }
    }
}

impl<'a> Index for View<'a> {
    ghost use Rattle.uc_shelf.specs.Entries.{live};
    ghost use Rattle.uc_shelf.specs.Rising.{live_rise};

    ghost live = { live };

    fn generalisations(&self, alloc: Global, term: &[Node]) -> Result<Seq<Found>, AllocError> {
        match self.all_in_trees(alloc, term) {
            Ok(list) => Ok(list),
            Err(fault) => {
                if self.has_match(term) {
                    Err(fault)
                } else {
                    Ok(Seq::from_vec(Vec::new(alloc)))
                }
            }
        }
    }

    fn first_that<T: Test>(
        &self,
        alloc: Global,
        term: &[Node],
        test: &T,
    ) -> Result<Option<Found>, AllocError> {
        match self.first_in_trees(alloc, term, test) {
            Ok(found) => Ok(found),
            Err(fault) => {
                if self.has_match(term) {
                    Err(fault)
                } else {
                    Ok(None)
                }
            }
        }
    }

    fn pair(&self, fact: u32) -> Option<(&Term, &Term)> {
        if self.front.is_dead(fact) {
            return None;
        }
        self.front.home(fact)?.tree().pair(fact)
    }

    ghost rising = { live_rise };
}

impl<'a> View<'a> {
    /// Asks the trees for the first that lives and passes a test. Memory may be refused for what is dead, too.
    fn first_in_trees<T: Test>(
        &self,
        alloc: Global,
        term: &[Node],
        test: &T,
    ) -> Result<Option<Found>, AllocError>
        requires whole { IsWhole term.now }
        requires small { length term.now ≤ MAX_NODES }
        requires can { (found : AnyFound) (from to : AnyTree) → IsFound (tree_of term.now) (rules_of (live self.now)) found from to → T.can_test test.now found from to }
        ensures { IfOk result (FirstThat (T.accepts test.now) (tree_of term.now) (rules_of (live self.now))) }
    {
        let living = Living {
            front: self.front,
            test,
        };
        let segments = self.front.segments();
        for k in 0..segments.len() {
            if let Some(found) = segments[k].tree().first_that(alloc, term, &living)? {
                return Ok(Some(found));
            }
        }
        Ok(None)
    }

    /// Asks the trees for all that lives. Memory may be refused for what is dead, too.
    fn all_in_trees(&self, alloc: Global, term: &[Node]) -> Result<Seq<Found>, AllocError>
        requires whole { IsWhole term.now }
        requires small { length term.now ≤ MAX_NODES }
        ensures { IfOk result (Generalises (tree_of term.now) (rules_of (live self.now))) }
    {
        let mut list = Vec::new(alloc);
        let segments = self.front.segments();
        for k in 0..segments.len() {
            let found = segments[k].tree().generalisations(alloc, term)?;
            self.add_living(&mut list, found)?;
        }
        Ok(Seq::from_vec(list))
    }

    /// Puts those that live at the end of a list.
    fn add_living(&self, list: &mut Vec<Found>, found: Seq<Found>) -> Result<(), AllocError>
        ensures { OnOk result (list.new.items ≡ list.old.items ++ found_living self.now found) }
    {
        for one in found.into_vec() {
            if !self.front.is_dead(one.fact) {
                list.push(one)?;
            }
        }
        Ok(())
    }

    /// Lists the facts that live in the front, by their numbers, as the trees have them: their sides are lent, not copied.
    pub fn facts(&self, alloc: Global) -> Result<Vec<Lent<'a>>, AllocError>
        ensures { IfOk result (λ list. map lent_of list.items ≡ live self.now) }
    {
        let mut list = Vec::new(alloc);
        let segments = self.front.segments();
        for k in 0..segments.len() {
            self.add_lent(&mut list, segments[k].tree().facts())?;
        }
        Ok(list)
    }

    /// Puts those that live at the end of a list.
    fn add_lent(
        &self,
        list: &mut Vec<Lent<'a>>,
        facts: &'a [(u32, Equation)],
    ) -> Result<(), AllocError>
        ensures { OnOk result (map lent_of list.new.items ≡ map lent_of list.old.items ++ still_living self.now (lives facts.now)) }
    {
        for fact in facts {
            self.lend(list, fact)?;
        }
        Ok(())
    }

    /// Puts a fact at the end of a list, unless it is dead.
    #[inline]
    fn lend(&self, list: &mut Vec<Lent<'a>>, fact: &'a (u32, Equation)) -> Result<(), AllocError>
        ensures { OnOk result (map lent_of list.new.items ≡ map lent_of list.old.items ++ still_living self.now (live_of fact.now ∷ [])) }
    {
        if self.front.is_dead(fact.0) {
            return Ok(());
        }
        list.push(Lent {
            number: fact.0,
            equation: &fact.1,
        })?;
        Ok(())
    }

    /// Tells whether the term is an instance of a side of a fact that lives, by a look through the entries. It takes no
    /// memory: it is asked where a tree found none.
    #[inline(never)]
    fn has_match(&self, term: &[Node]) -> bool
        requires whole { IsWhole term.now }
        requires small { length term.now ≤ MAX_NODES }
        ensures yes { IsTrue result → FindsNothing (tree_of term.now) (rules_of (live self.now)) → ⊥ }
        ensures no { result ≡ false → FindsNothing (tree_of term.now) (rules_of (live self.now)) }
    {
        let mut number = 0;
        for k in 0..self.front.len() {
            let entry = self.shelf.read(self.front, k);
            if self.entry_matches(entry, number, term) {
                return true;
            }
            number += births(entry);
        }
        false
    }

    /// Tells whether the term is an instance of a side of the fact that is born in an entry, and the fact lives.
    fn entry_matches(&self, entry: &Entry, number: u32, term: &[Node]) -> bool
        requires whole { IsWhole term.now }
        requires small { length term.now ≤ MAX_NODES }
        ensures yes { IsTrue result → FindsNothing (tree_of term.now) (rules_of (living self.now number (entry.now ∷ []))) → ⊥ }
        ensures no { result ≡ false → FindsNothing (tree_of term.now) (rules_of (living self.now number (entry.now ∷ []))) }
    {
        match entry {
            Entry::Born(fact) => {
                !self.front.is_dead(number)
                    && (side_matches(fact, Side::Left, term)
                        || side_matches(fact, Side::Right, term))
            }
            Entry::Dies { .. } => false,
        }
    }
}

/// Tells whether the term is an instance of a side of a fact. It takes no memory.
fn side_matches(fact: &Fact, side: Side, term: &[Node]) -> bool
    requires whole { IsWhole term.now }
    requires small { length term.now ≤ MAX_NODES }
    ensures yes { IsTrue result → HasMatch (side_of side (equation_of fact.now)) (tree_of term.now) }
    ensures no { result ≡ false → HasNoMatch (side_of side (equation_of fact.now)) (tree_of term.now) }
{
    is_instance(side_term(fact, side).as_nodes(), term)
}

/// The side of a fact.
fn side_term(fact: &Fact, side: Side) -> &Term
    ensures { result.now ≡ side_of side (equation_of fact.now) }
{
    match side {
        Side::Left => &fact.left,
        Side::Right => &fact.right,
    }
}
