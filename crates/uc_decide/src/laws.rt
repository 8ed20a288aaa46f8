//! Laws over the definitions, each the contract of a function that does nothing.

ghost use Rattle.std.specs.Prelude.{◌≡◌, ℕ, List, map};
ghost use Rattle.uc_term.specs.Tree.{Tree};
ghost use Rattle.uc_term.specs.Conversion.{SomeFollows};
ghost use Rattle.uc_term.specs.declared.equation.Equation.{Equation};
ghost use Rattle.uc_fact.specs.declared.chain.Chain.{Chain};
ghost use Rattle.uc_fact.specs.declared.fact.Fact.{Fact};
ghost use Rattle.uc_fact.specs.declared.fact.Overlap.{Overlap};
ghost use Rattle.uc_fact.specs.Live.{Live, AreRising, equations_of, equation_of};
ghost use Rattle.uc_fact.specs.Ground.{AreOfSignature};
ghost use Rattle.uc_fact.specs.Ordered.{OStep};
ghost use Rattle.uc_fact.specs.Chains.{Links};
ghost use Rattle.uc_fact.specs.declared.chain.Step.{Step};
ghost use Rattle.uc_order.specs.Laws.{HasSym, IsGroundOf};
ghost use Rattle.uc_rewrite.specs.Replay.{FactsReplay};
ghost use Rattle.uc_pair.specs.declared.formation.Formation.TheVariants.{Pair};
ghost use Rattle.uc_pair.specs.Pairs.{IsPairOf};
ghost use Rattle.uc_decide.specs.declared.reply.Reply.{Reply};
ghost use Rattle.uc_decide.specs.NormalForms.{IsLocallyConfluent};
ghost use Rattle.uc_decide.specs.Converging.{AreJoinable, IsJoinableOverlap, AreJoinableOverlaps, FollowFrom, Converge};
ghost use Rattle.uc_decide.specs.Deciding.{Decides, AreAllApart};
ghost use Rattle.uc_decide.specs.Asking.{IsReply, HasNormalForms, IsRight, IsVerdict};

use uc_order::Order;

/// The critical pair lemma: where each overlap of two facts that isn't left out is joinable, what two ground steps from one
/// ground term lead to is joined. It stands for facts that can't be oriented, and for facts whose sides have different
/// variables.
pub fn critical_pairs<O: Order>(order: &O)
    ensures { (live : List Live) → AreRising live → AreJoinableOverlaps (O.meaning order.now) live → IsLocallyConfluent (O.meaning order.now) (equations_of live) }
{}

/// Facts that converge decide what follows from the axioms, where both are over the order's signature. The terms between two
/// that the axioms make equal may have any symbols and variables.
pub fn decides<O: Order>(order: &O)
    ensures { (live : List Live) (axioms : List Equation) → Converge (O.meaning order.now) live axioms → AreOfSignature (HasSym (O.meaning order.now)) (O.meaning order.now).arity (equations_of live) → AreOfSignature (HasSym (O.meaning order.now)) (O.meaning order.now).arity axioms → Decides (O.meaning order.now) (equations_of live) axioms }
{}

/// An overlap is joinable where the two sides of its pair are, as `uc_pair::pair_of` numbers their variables.
pub fn pair_joins<O: Order>(order: &O)
    ensures { (live : List Live) (a b : Equation) (overlap : Overlap) (left right : Tree) (chain : Chain) → IsPairOf a b overlap (Pair left right chain) → AreJoinable (O.meaning order.now) live left right → IsJoinableOverlap (O.meaning order.now) live a b overlap }
{}

/// Two terms are joinable where those are to which ordered steps lead from them, as normalising does.
pub fn ends_join<O: Order>(order: &O)
    ensures { (live : List Live) (s t : Tree) (from_s from_t : List Step) (u v : Tree) → AreOfSignature (HasSym (O.meaning order.now)) (O.meaning order.now).arity (equations_of live) → Links (OStep (O.meaning order.now).greater (O.meaning order.now).least (equations_of live)) s from_s u → Links (OStep (O.meaning order.now).greater (O.meaning order.now).least (equations_of live)) t from_t v → AreJoinable (O.meaning order.now) live u v → AreJoinable (O.meaning order.now) live s t }
{}

/// Facts follow from the axioms where the chain of each replays, over the axioms and earlier facts, from its left to its right
/// side.
pub fn facts_follow()
    ensures { (axioms : List Equation) (facts : List Fact) → FactsReplay axioms facts → FollowFrom axioms (map equation_of facts) }
{}

/// No goal follows from the axioms whose two sides these make equal to different terms from which no ordered step leads on,
/// where the equations decide what follows.
pub fn no_goal_follows<O: Order>(order: &O)
    ensures { (es axioms goals : List Equation) → Decides (O.meaning order.now) es axioms → AreAllApart (O.meaning order.now) es axioms goals → SomeFollows axioms goals → ⊥ }
{}

/// The reply to a question is a function of the facts, the order, the two terms and the number of steps.
pub fn one_reply<O: Order>(order: &O)
    ensures { (live : List Live) (steps : ℕ) (s t : Tree) (x y : Reply) → IsReply (O.meaning order.now) live steps s t x → IsReply (O.meaning order.now) live steps s t y → x ≡ y }
{}

/// What a reply with normal forms says of the axioms is so, where the equations decide what follows from them.
pub fn reply_is_right<O: Order>(order: &O)
    ensures { (es axioms : List Equation) (s t : Tree) (reply : Reply) → Decides (O.meaning order.now) es axioms → IsGroundOf (O.meaning order.now) s → IsGroundOf (O.meaning order.now) t → HasNormalForms (O.meaning order.now) es s t reply → IsRight (O.meaning order.now) axioms s t reply }
{}

/// Two right replies to one question that both say whether the sides are equal are the same, whichever systems and numbers of
/// steps they come from.
pub fn one_verdict<O: Order>(order: &O)
    ensures { (axioms : List Equation) (s t : Tree) (x y : Reply) → IsRight (O.meaning order.now) axioms s t x → IsRight (O.meaning order.now) axioms s t y → IsVerdict x → IsVerdict y → x ≡ y }
{}
