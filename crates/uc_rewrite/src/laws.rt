//! Laws over the definitions, each the contract of a function that does nothing.

ghost use Rattle.std.specs.Prelude.{List, ℕ, ◌≡◌};
ghost use Rattle.uc_term.specs.Tree.{Tree};
ghost use Rattle.uc_fact.specs.Live.{Live};
ghost use Rattle.uc_order.specs.VarOrders.{Classes};
ghost use Rattle.uc_rewrite.specs.Normalising.{IsNormalOf};
ghost use Rattle.uc_rewrite.specs.declared.normal.Normal.{Normal};

use uc_order::Order;

/// What normalising comes to is a function of the term, the facts that live, the order and the limit.
pub fn one_normal_form<O: Order>(order: &O)
    ensures { (live : List Live) (limit : ℕ) (t : Tree) (a b : Normal) → IsNormalOf (O.meaning order.now).greater (O.meaning order.now).least live limit t a → IsNormalOf (O.meaning order.now).greater (O.meaning order.now).least live limit t b → a ≡ b }
{}

/// What normalising under an order of variables comes to is a function of the same, of it and of the term's representative.
pub fn one_normal_form_under<O: Order>(order: &O)
    ensures { (cases : Classes) (live : List Live) (limit : ℕ) (t : Tree) (a b : Normal) → IsNormalOf ((O.meaning order.now).under cases) (O.meaning order.now).least live limit t a → IsNormalOf ((O.meaning order.now).under cases) (O.meaning order.now).least live limit t b → a ≡ b }
{}
