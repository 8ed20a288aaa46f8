//! The bank of a worker.

ghost use Rattle.std.specs.Prelude.{◌≡◌, ◌<◌, length, IfOk};
ghost use Rattle.uc_fact.specs.declared.fact.Stop.TheVariants.{Full};
ghost use Rattle.uc_fact.specs.Live.{equations_of};
ghost use Rattle.uc_fact.specs.Ordered.{OStep, IsIrreducible};
ghost use Rattle.uc_fact.specs.Chains.{Links};
ghost use Rattle.uc_rewrite.specs.Normalising.{IsNormalOf};
ghost use Rattle.uc_shelf.specs.Entries.{born, live};
ghost use Rattle.uc_shelf.specs.Fronts.{IsOf};

use crate::forms::Forms;
use std::alloc::{AllocError, Global};
use std::marker::Model;
use uc_order::{Order, Remembering};
use uc_rewrite::{Normal, normalise};
use uc_shelf::{Front, Shelf};
use uc_term::Term;

/// What a worker remembers. A contract sees its shelf and its order alone.
#[derive(Drop)]
pub struct Bank<'a, O: Order> {
    shelf: &'a Shelf,
    order: Remembering<'a, O>,
    forms: Forms<'a, O>,
}

impl<'a, O: Order> Model for Bank<'a, O> {
    ghost use Rattle.std.specs.Prelude.{◌≡◌};
    ghost use Rattle.std.specs.Coded.{codes};
    ghost use Rattle.uc_term.specs.Code.{tree_code};
    ghost use Rattle.boxcar.specs.Table.{shelves_coded};
    ghost use Rattle.uc_bank.specs.Banks.{BankView};

    ghost Value = { BankView O };

    ghost coded = { Prim.hlevel (codes, tree_code, shelves_coded, O.code) };

    ghost view = { λ b. record { shelf = b.shelf.now; order = b.order } };

    ghost invariant = { λ b. (b.forms.shelf ≡ b.shelf.now) × (b.forms.order ≡ b.order) };
}

impl<'a, O: Order> Bank<'a, O> {
    /// A bank that remembers nothing. It takes no memory.
    pub fn new(alloc: Global, shelf: &'a Shelf, order: &'a O) -> Bank<'a, O>
        ensures shelf { result.shelf ≡ shelf.entry.now }
        ensures order { result.order ≡ order.entry.now }
    {
        Bank {
            shelf,
            order: Remembering::new(alloc, order),
            forms: Forms::new(alloc, shelf, order),
        }
    }

    /// Its shelf.
    pub fn shelf(&self) -> &'a Shelf
        ensures { result.now ≡ self.now.shelf }
    {
        self.shelf
    }

    /// Its order, which remembers how the sides of facts compare, by their numbers.
    pub fn order(&self) -> &Remembering<'a, O>
        ensures { result.now ≡ self.now.order }
    {
        &self.order
    }

    /// Compares the sides of the front's facts whose numbers aren't remembered yet, and remembers how they compare. For want of
    /// memory the facts from some number on aren't remembered.
    pub fn learn(&mut self, alloc: Global, front: &Front) -> Result<(), AllocError>
        requires of { IsOf self.old.shelf front.now }
        ensures { self.new ≡ self.old }
    {
        for number in self.order.len()..front.births() as usize {
            self.learn_fact(alloc, front, number as u32)?;
        }
        Ok(())
    }

    /// Remembers how the sides of the next fact compare.
    fn learn_fact(&mut self, alloc: Global, front: &Front, number: u32) -> Result<(), AllocError>
        requires of { IsOf self.old.shelf front.now }
        requires born { number < length (born front.now.entries) }
        ensures { self.new ≡ self.old }
    {
        let fact = self.shelf.fact(front, number);
        self.order.remember(alloc, &fact.left, &fact.right)
    }
}

/// Normalises a term by the facts that live in a front of the bank's shelf, as `normalise` by the bank's order: the answer is
/// the same. Where the bank remembers it over this front, it is a copy.
pub fn normalise_in<O: Order>(
    alloc: Global,
    bank: &mut Bank<O>,
    term: &Term,
    front: &Front,
    limit: u32,
) -> Result<Normal, AllocError>
    requires of { IsOf bank.old.shelf front.now }
    ensures normal { IfOk result (IsNormalOf (O.meaning bank.old.order).greater (O.meaning bank.old.order).least (live front.now.entries) limit term.now) }
    // what follows: neighbours in the chain are ordered steps, and with `Full` none leads on
    ensures steps { IfOk result (λ normal. Links (OStep (O.meaning bank.old.order).greater (O.meaning bank.old.order).least (equations_of (live front.now.entries))) term.now normal.chain.steps normal.term) }
    ensures full { IfOk result (λ normal. normal.stop ≡ Full → IsIrreducible (O.meaning bank.old.order).greater (O.meaning bank.old.order).least (equations_of (live front.now.entries)) normal.term) }
    ensures bank { bank.new ≡ bank.old }
{
    remembered_or_made(alloc, bank, term, front, limit)
}

/// The normal form that is remembered, or else is made and remembered.
fn remembered_or_made<O: Order>(
    alloc: Global,
    bank: &mut Bank<O>,
    term: &Term,
    front: &Front,
    limit: u32,
) -> Result<Normal, AllocError>
    requires of { IsOf bank.old.shelf front.now }
    ensures normal { IfOk result (IsNormalOf (O.meaning bank.old.order).greater (O.meaning bank.old.order).least (live front.now.entries) limit term.now) }
    ensures bank { bank.new ≡ bank.old }
{
    bank.forms.turn_to(alloc, front)?;
    if let Some(normal) = bank.forms.get(term, limit) {
        return normal.copy(alloc);
    }
    let view = bank.shelf.view(front);
    let normal = normalise(alloc, term, &view, &bank.order, limit)?;
    // An answer that can't be remembered is an answer.
    let _ = bank.forms.keep(alloc, term, limit, &normal);
    Ok(normal)
}
