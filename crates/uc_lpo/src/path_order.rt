//! The lexicographic path order of a precedence.

ghost use Rattle.uc_term.specs.declared.node.Sym.{Sym as AnySym};
ghost use Rattle.std.specs.Prelude.{◌≡◌, ◌<◌, ◌≤◌};
ghost use Rattle.uc_lpo.specs.Ranks.{rank_of, rank_in, arity_in};

use crate::compare::compare;
use crate::tables::{arities_of, least_constant, ranks_of};
use std::alloc::Global;
use uc_order::{Cmp, Order, OrderFault, VarOrder, check_precedence};
use uc_term::{Node, Seq, Sym, Symbols};

/// The lexicographic path order of a precedence: a total order of the symbols of a signature, among them a constant.
/// Baader and Nipkow, Term Rewriting and All That, section 5.4.2.
#[derive(Drop, Debug)]
pub struct Lpo {
    precedence: Vec<Sym>,
    arities: Vec<u32>,
    ranks: Vec<usize>,
    least: Sym,
    ghost ranked: { (f : AnySym) → rank_of ranks.items f ≡ rank_in precedence.items f },
    ghost known: { 0 < rank_in precedence.items least },
    ghost bare: { arity_in precedence.items arities.items least ≡ 0 },
    ghost lowest: { (f : AnySym) → 0 < rank_in precedence.items f → arity_in precedence.items arities.items f ≡ 0 → rank_in precedence.items least ≤ rank_in precedence.items f },
}

impl Lpo {
    ghost use Rattle.std.specs.Prelude.{IfOk, IfErr, OnOk};
    ghost use Rattle.uc_term.specs.Table.{Has, arity_of};
    ghost use Rattle.uc_order.specs.Members.{Each};
    ghost use Rattle.uc_order.specs.Precedence.{IsTotalOn, IsPrecedenceFault};
    ghost use Rattle.uc_lpo.specs.Constants.{HasConstant};
    ghost use Rattle.uc_lpo.specs.Orders.{IsOrderOf};

    /// The order of a precedence, which has each symbol of the signature once, the least first. One of them is a
    /// constant. `UnknownSymbol` comes with the precedence's first symbol that the signature lacks; else `NotTotal` with
    /// its first symbol that stands in it twice; else `NotTotal` with the signature's first symbol that it lacks.
    pub fn new(
        alloc: Global,
        signature: &[Sym],
        symbols: &Symbols,
        precedence: &[Sym],
    ) -> Result<Lpo, OrderFault>
        requires known { Each (Has symbols.now) signature.now }
        requires constant { HasConstant (arity_of symbols.now) signature.now }
        ensures ok { IfOk result (IsOrderOf symbols.now precedence.now) }
        ensures total { OnOk result (IsTotalOn signature.now precedence.now) }
        ensures err { IfErr result (IsPrecedenceFault signature.now precedence.now) }
    {
        check_precedence(alloc, signature, precedence)?;
        let arities = arities_of(alloc, symbols, precedence)?;
        let ranks = ranks_of(alloc, symbols.len(), precedence)?;
        let least = least_constant(symbols, precedence);
        let precedence = Vec::from_slice(alloc, precedence)?;
        Ok(Lpo {
            precedence,
            arities,
            ranks,
            least,
        })
    }
}

impl Order for Lpo {
    ghost use Rattle.uc_lpo.specs.Meaning.{meaning_of, laws_of};

    ghost meaning = { λ o. meaning_of o.precedence.items o.arities.items o.least };

    ghost laws = { λ o. laws_of o.precedence.items o.arities.items o.least o.known o.bare o.lowest };

    fn compare(&self, s: &[Node], t: &[Node]) -> Cmp {
        let classes: [Seq<u32>; 0] = [];
        compare(&self.ranks, &classes, s, t)
    }

    fn compare_under(&self, cases: &VarOrder, s: &[Node], t: &[Node]) -> Cmp {
        compare(&self.ranks, cases.classes(), s, t)
    }

    fn least(&self) -> Sym {
        self.least
    }
}
