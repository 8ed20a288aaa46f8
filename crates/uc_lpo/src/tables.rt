//! The tables of a precedence: arities by place, ranks by the symbols' numbers, and the least constant.

ghost use Rattle.std.specs.Prelude.{◌≡◌, ◌<◌, ℕ, length, map, IfOk};
ghost use Rattle.uc_term.specs.declared.node.Sym.{Sym as AnySym};
ghost use Rattle.uc_term.specs.Table.{Has, arity_of};
ghost use Rattle.uc_order.specs.Members.{Each, AreDistinct, IsFirst};
ghost use Rattle.uc_lpo.specs.Ranks.{rank_of, rank_in};
ghost use Rattle.uc_lpo.specs.Constants.{HasConstant};

use std::alloc::{AllocError, Global};
use uc_term::{Sym, Symbols};

// The arity of each symbol of the list.
pub fn arities_of(alloc: Global, symbols: &Symbols, list: &[Sym]) -> Result<Vec<u32>, AllocError>
    requires known { Each (Has symbols.now) list.now }
    ensures { IfOk result (λ v. v.items ≡ map (arity_of symbols.now) list.now) }
{
    let mut arities = Vec::new(alloc);
    for f in list {
        arities.push(symbols.arity(*f))?;
    }
    Ok(arities)
}

// The rank of each symbol below a bound: its place in the precedence, from 1, and 0 for a symbol that isn't there.
pub fn ranks_of(alloc: Global, bound: usize, precedence: &[Sym]) -> Result<Vec<usize>, AllocError>
    requires bounded { Each (λ (f : AnySym). f.0 < bound) precedence.now }
    requires distinct { AreDistinct precedence.now }
    ensures { IfOk result (λ v. (f : AnySym) → rank_of v.items f ≡ rank_in precedence.now f) }
{
    let mut ranks = vec![in alloc; 0; bound]?;
    for i in 0..precedence.len() {
        ranks[precedence[i].0 as usize] = i + 1;
    }
    Ok(ranks)
}

// The first constant of the precedence.
pub fn least_constant(symbols: &Symbols, precedence: &[Sym]) -> Sym
    requires known { Each (Has symbols.now) precedence.now }
    requires constant { HasConstant (arity_of symbols.now) precedence.now }
    ensures { IsFirst (λ f. arity_of symbols.now f ≡ 0) precedence.now result }
{
    let mut at = 0;
    while symbols.arity(precedence[at]) != 0 {
        at += 1;
    }
    precedence[at]
}
