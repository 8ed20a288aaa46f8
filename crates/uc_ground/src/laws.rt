//! Laws over the definitions, each the contract of a function that does nothing.

ghost use Rattle.std.specs.Prelude.{List, ◌≡◌};
ghost use Rattle.uc_term.specs.Tree.{Tree};
ghost use Rattle.uc_fact.specs.Live.{Live, equations_of};
ghost use Rattle.uc_fact.specs.Ground.{AreOfSignature, IsJoinable};
ghost use Rattle.uc_fact.specs.declared.joinable.Joinable.{Joinable};
ghost use Rattle.uc_order.specs.Laws.{HasSym};
ghost use Rattle.uc_ground.specs.Joining.{IsAnswer, IsJoined};

use uc_order::Order;

/// The answer is a function of the two terms, the facts that live and the order.
pub fn one_answer<O: Order>(order: &O)
    ensures { (live : List Live) (s t : Tree) (a b : Joinable) → IsAnswer (O.meaning order.now) live s t a → IsAnswer (O.meaning order.now) live s t b → a ≡ b }
{}

/// Two terms for which the answer is that they are joined are joinable, where the facts are over the signature.
pub fn joined_is_joinable<O: Order>(order: &O)
    ensures { (live : List Live) (s t : Tree) (answer : Joinable) → IsAnswer (O.meaning order.now) live s t answer → IsJoined answer → AreOfSignature (HasSym (O.meaning order.now)) (O.meaning order.now).arity (equations_of live) → IsJoinable (O.meaning order.now).greater (HasSym (O.meaning order.now)) (O.meaning order.now).arity (equations_of live) s t }
{}
