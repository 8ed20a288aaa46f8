//! Laws over the definitions, each the contract of a function that does nothing.

ghost use Rattle.std.specs.Prelude.{List};
ghost use Rattle.uc_term.specs.declared.equation.Equation.{Equation};
ghost use Rattle.uc_order.specs.Laws.{HasSym};
ghost use Rattle.uc_fact.specs.declared.fact.System.{System};
ghost use Rattle.uc_fact.specs.Ground.{AreOfSignature};
ghost use Rattle.uc_fact.specs.Live.{equations_of};
ghost use Rattle.uc_rewrite.specs.Replay.{FactsReplay};
ghost use Rattle.uc_shelf.specs.Entries.{born, live};
ghost use Rattle.uc_decide.specs.Deciding.{Decides};
ghost use Rattle.uc_machine.specs.State.{State};
ghost use Rattle.uc_machine.specs.Finals.{IsFinal};
ghost use Rattle.uc_machine.specs.declared.task.Outcome.TheVariants.{Convergent};
ghost use Rattle.uc_final.specs.Converged.{IsConverged};

use uc_order::Order;

/// Where the final pass answers `Convergent`, it has the facts that live, in order; each overlap of two of them that isn't left
/// out is joinable by them, and each axiom, where they are over the order's signature; and no goal is `Stuck`.
pub fn convergent_joins<O: Order>(order: &O)
    ensures { (axioms : List Equation) (s : State) (system : System) → IsFinal (O.meaning order.now) axioms s (Convergent system) → AreOfSignature (HasSym (O.meaning order.now)) (O.meaning order.now).arity (equations_of (live s.entries)) → IsConverged (O.meaning order.now) axioms s system }
{}

/// Where the final pass answers `Convergent` and the chain of each fact that was born replays, over the axioms and earlier facts,
/// from its left to its right side, the system decides what follows from the axioms, where both are over the order's signature.
pub fn convergent_decides<O: Order>(order: &O)
    ensures { (axioms : List Equation) (s : State) (system : System) → IsFinal (O.meaning order.now) axioms s (Convergent system) → FactsReplay axioms (born s.entries) → AreOfSignature (HasSym (O.meaning order.now)) (O.meaning order.now).arity system.facts → AreOfSignature (HasSym (O.meaning order.now)) (O.meaning order.now).arity axioms → Decides (O.meaning order.now) system.facts axioms }
{}
