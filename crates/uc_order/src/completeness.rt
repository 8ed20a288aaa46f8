//! That the list of orders of variables has each of them once, and leaves no ground instance out.

ghost use Rattle.std.specs.Prelude.{ℕ, List, Bool, true, ◌≡◌};
ghost use Rattle.uc_term.specs.Tree.{Tree};
ghost use Rattle.uc_order.specs.Members.{In, OnlyOne};
ghost use Rattle.uc_order.specs.VarOrders.{Classes, Among, Respects, Stands, IsTotalPreorder, orders_of};
ghost use Rattle.uc_order.specs.Laws.{IsGroundOf};

use crate::Order;

/// Of the listed orders of some variables exactly one is respected by each choice of ground terms for them. The call
/// does nothing: its clause is the law.
pub fn exactly_one<O: Order>(_order: &O)
    ensures { (σ : ℕ → Tree) (vs : List ℕ) → ((x : ℕ) → In vs x → IsGroundOf (O.meaning _order.now) (σ x)) → OnlyOne (Respects (O.meaning _order.now).greater σ) (orders_of vs) }
{}

/// Each total preorder of some variables, as a test, is that of exactly one of the listed orders, and each of these has
/// every one of the variables. The call does nothing: its clauses are the laws.
pub fn each_once()
    ensures once { (R : ℕ → ℕ → Bool) (vs : List ℕ) → IsTotalPreorder (λ x y. R x y ≡ true) vs → OnlyOne (Stands (λ x y. R x y ≡ true)) (orders_of vs) }
    ensures has { (vs : List ℕ) (x : ℕ) → In vs x → (cases : Classes) → In (orders_of vs) cases → Among cases x }
{}
