//! Normal forms that are remembered.

ghost use Rattle.std.specs.Prelude.{◌≡◌, ◌<◌, [], IfSome, OnOk, length};
ghost use Rattle.uc_rewrite.specs.Normalising.{IsNormalOf};
ghost use Rattle.uc_shelf.specs.Entries.{live};
ghost use Rattle.uc_shelf.specs.Fronts.{IsOf};
ghost use Rattle.uc_bank.specs.Banks.{IsFormBy, IsPlaceOf};

use std::alloc::{AllocError, Global};
use std::marker::Model;
use uc_order::Order;
use uc_rewrite::Normal;
use uc_shelf::{Front, Shelf};
use uc_term::Term;

/// The most normal forms that are remembered over one front.
const MOST_FORMS: usize = 64;

/// The most steps of a chain that is remembered.
const MOST_STEPS: usize = 64;

/// What normalising a term with at most `limit` steps comes to.
#[derive(Drop)]
pub struct Form {
    pub term: Term,
    pub limit: u32,
    pub normal: Normal,
}

/// Normal forms by an order, over the facts that live in one front.
#[derive(Drop)]
pub struct Forms<'a, O: Order> {
    shelf: &'a Shelf,
    order: &'a O,
    front: Front,
    list: Vec<Form>,
}

impl<'a, O: Order> Model for Forms<'a, O> {
    ghost use Rattle.std.specs.Prelude.{All};
    ghost use Rattle.std.specs.Coded.{codes};
    ghost use Rattle.uc_term.specs.Code.{tree_code};
    ghost use Rattle.boxcar.specs.Table.{shelves_coded};
    ghost use Rattle.uc_shelf.specs.Entries.{live};
    ghost use Rattle.uc_shelf.specs.Fronts.{IsOf};
    ghost use Rattle.uc_bank.specs.Banks.{FormsView, IsFormBy};

    ghost Value = { FormsView O };

    ghost coded = { Prim.hlevel (codes, tree_code, shelves_coded, O.code) };

    ghost view = { λ f. record { shelf = f.shelf.now; order = f.order.now; front = f.front } };

    ghost invariant = { λ f. IsOf f.shelf.now f.front × All (IsFormBy (O.meaning f.order.now) (live f.front.entries)) f.list.items };
}

impl<'a, O: Order> Forms<'a, O> {
    /// No normal form, over the empty front. It takes no memory.
    pub fn new(alloc: Global, shelf: &'a Shelf, order: &'a O) -> Forms<'a, O>
        ensures shelf { result.shelf ≡ shelf.entry.now }
        ensures order { result.order ≡ order.entry.now }
    {
        Forms {
            shelf,
            order,
            front: Front::empty(alloc),
            list: Vec::new(alloc),
        }
    }

    /// Turns to a front. Where that isn't the one to which the normal forms belong, they are forgotten.
    pub fn turn_to(&mut self, alloc: Global, front: &Front) -> Result<(), AllocError>
        requires of { IsOf self.old.shelf front.now }
        ensures shelf { self.new.shelf ≡ self.old.shelf }
        ensures order { self.new.order ≡ self.old.order }
        ensures front { OnOk result (self.new.front.entries ≡ front.now.entries) }
    {
        if self.shelf.same(&self.front, front) {
            return Ok(());
        }
        let front = front.copy(alloc)?;
        self.list.clear();
        self.front = front;
        Ok(())
    }

    /// What is remembered of normalising a term with at most `limit` steps.
    pub fn get(&self, term: &Term, limit: u32) -> Option<&Normal>
        ensures { IfSome result (λ normal. IsNormalOf (O.meaning self.now.order).greater (O.meaning self.now.order).least (live self.now.front.entries) limit term.now normal.now) }
    {
        let place = place_of(self.list.as_slice(), term, limit)?;
        Some(&self.list[place].normal)
    }

    /// Remembers what normalising a term with at most `limit` steps comes to, unless 64 are remembered already or the chain has
    /// more than 64 steps. For want of memory nothing more is remembered.
    pub fn keep(
        &mut self,
        alloc: Global,
        term: &Term,
        limit: u32,
        normal: &Normal,
    ) -> Result<(), AllocError>
        requires { IsNormalOf (O.meaning self.old.order).greater (O.meaning self.old.order).least (live self.old.front.entries) limit term.now normal.now }
        ensures { self.new ≡ self.old }
    {
        if self.list.len() >= MOST_FORMS {
            return Ok(());
        }
        if normal.chain.steps.len() > MOST_STEPS {
            return Ok(());
        }
        let form = Form {
            term: term.copy(alloc)?,
            limit,
            normal: normal.copy(alloc)?,
        };
        self.list.push(form)?;
        Ok(())
    }
}

/// Where the normal form of a term with at most `limit` steps is. The terms themselves are compared.
fn place_of(list: &[Form], term: &Term, limit: u32) -> Option<usize>
    ensures { IfSome result (IsPlaceOf list.now term.now limit) }
{
    for place in 0..list.len() {
        if list[place].limit == limit && list[place].term.same(term) {
            return Some(place);
        }
    }
    None
}
