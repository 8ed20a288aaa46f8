//! Moves: replacements of equals by smaller ones.

ghost use Rattle.std.specs.Prelude.{◌≡◌, ◌<◌, ◌↔◌, IsTrue, IfOk, MatchOption};
ghost use Rattle.uc_term.specs.Over.{IsOver};
ghost use Rattle.uc_term.specs.Tree.{nodes};
ghost use Rattle.uc_order.specs.Laws.{HasSym};
ghost use Rattle.uc_certificate.specs.Arities.{KeepsArities, MovesKeepArities};
ghost use Rattle.uc_certify.specs.Knowing.{IsSetOf, HasKnown, IsKnownNode};
ghost use Rattle.uc_certify.specs.Moving.{moved, IsMove, AreMoves};
ghost use Rattle.uc_certify.specs.Replacing.{FallsAt};

use crate::comparison::Comparison;
use crate::symbol_set::SymbolSet;
use std::alloc::{AllocError, Global};
use uc_certificate::Move;
use uc_fact::Equation;
use uc_term::{Node, Pos, Term, end_of};
use uc_unify::replaces_at;

/// The facts by which moves are made, and the symbols that may stand in terms.
#[derive(Drop)]
pub(crate) struct Rules<'a> {
    pub facts: &'a [Equation],
    pub symbols: &'a SymbolSet,
}

/// The term to which moves lead. None exactly where one of them isn't right for the term before it.
pub(crate) fn end_of_moves<'a, C: Comparison>(
    alloc: Global,
    rules: &Rules,
    comparison: &C,
    start: &'a Term,
    moves: &'a [Move],
) -> Result<Option<&'a Term>, AllocError>
    requires symbols { IsSetOf rules.now.symbols.now.numbers.keys (C.meaning comparison.now).symbols }
    requires known { HasKnown (C.knows comparison.now) start.now }
    requires arities { MovesKeepArities (C.meaning comparison.now) moves.now }
    ensures { IfOk result (λ found. MatchOption found (AreMoves (C.meaning comparison.now) rules.now.facts.now (C.greater comparison.now) (C.knows comparison.now) start.now moves.now → ⊥) (λ end. AreMoves (C.meaning comparison.now) rules.now.facts.now (C.greater comparison.now) (C.knows comparison.now) start.now moves.now × (end.now ≡ moved start.now moves.now))) }
{
    let mut before = start;
    for step in moves {
        if !is_move(alloc, rules, comparison, before, step)? {
            return Ok(None);
        }
        before = &step.to;
    }
    Ok(Some(before))
}

/// Whether the move replaces equals by smaller ones in the term before it, and leads to a term of known symbols and variables.
fn is_move<C: Comparison>(
    alloc: Global,
    rules: &Rules,
    comparison: &C,
    before: &Term,
    step: &Move,
) -> Result<bool, AllocError>
    requires symbols { IsSetOf rules.now.symbols.now.numbers.keys (C.meaning comparison.now).symbols }
    requires known { HasKnown (C.knows comparison.now) before.now }
    requires arities { KeepsArities (C.meaning comparison.now) step.now.to }
    ensures { IfOk result (λ fits. IsTrue fits ↔ IsMove (C.meaning comparison.now) rules.now.facts.now (C.greater comparison.now) (C.knows comparison.now) before.now step.now) }
{
    let Some(fact) = rules.facts.get(step.fact as usize) else {
        return Ok(false);
    };
    let Some(pos) = before.pos_of(step.path.as_slice()) else {
        return Ok(false);
    };
    if !is_known(rules.symbols, comparison, &step.to) {
        return Ok(false);
    }
    if step.left_to_right {
        falls_at(
            alloc,
            comparison,
            &fact.left,
            &fact.right,
            before,
            pos,
            &step.to,
        )
    } else {
        falls_at(
            alloc,
            comparison,
            &fact.right,
            &fact.left,
            before,
            pos,
            &step.to,
        )
    }
}

/// Whether the term has known symbols and variables alone.
fn is_known<C: Comparison>(symbols: &SymbolSet, comparison: &C, term: &Term) -> bool
    requires symbols { IsSetOf symbols.now.numbers.keys (C.meaning comparison.now).symbols }
    requires arities { KeepsArities (C.meaning comparison.now) term.now }
    ensures { IsTrue result ↔ IsOver (HasSym (C.meaning comparison.now)) (C.meaning comparison.now).arity (C.knows comparison.now) term.now }
{
    let nodes = term.as_nodes();
    for node in nodes {
        if !is_known_node(symbols, comparison, *node) {
            return false;
        }
    }
    true
}

/// Whether the node's symbol or variable is known.
fn is_known_node<C: Comparison>(symbols: &SymbolSet, comparison: &C, node: Node) -> bool
    requires { IsSetOf symbols.now.numbers.keys (C.meaning comparison.now).symbols }
    ensures { IsTrue result ↔ IsKnownNode (C.meaning comparison.now).symbols (C.knows comparison.now) node }
{
    match node {
        Node::Var(x) => comparison.allows(x),
        Node::App(f, _) => symbols.has(f),
    }
}

/// Whether one substitution makes the two sides the subterms at this place, all else is the same, and the first subterm is
/// greater.
fn falls_at<C: Comparison>(
    alloc: Global,
    comparison: &C,
    from: &Term,
    to: &Term,
    before: &Term,
    pos: Pos,
    after: &Term,
) -> Result<bool, AllocError>
    requires inside { pos.0 < nodes before.now }
    requires before_known { HasKnown (C.knows comparison.now) before.now }
    requires after_known { HasKnown (C.knows comparison.now) after.now }
    ensures { IfOk result (λ falls. IsTrue falls ↔ FallsAt (C.greater comparison.now) from.now to.now before.now pos.0 after.now) }
{
    if !replaces_at(alloc, from, to, before, pos, after)? {
        return Ok(false);
    }
    let place = pos.0 as usize;
    let old = before.as_nodes();
    let new = after.as_nodes();
    let old_end = end_of(old, place);
    let new_end = end_of(new, place);
    Ok(comparison.is_greater(&old[place..old_end], &new[place..new_end]))
}
