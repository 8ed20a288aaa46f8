//! The Knuth-Bendix order as a value.

ghost use Rattle.std.specs.Prelude.{◌≡◌, ◌≤◌, length, IfOk, IfErr, OnOk};
ghost use Rattle.uc_term.specs.Table.{Has};
ghost use Rattle.uc_order.specs.Members.{Each};
ghost use Rattle.uc_order.specs.Precedence.{IsTotalOn};
ghost use Rattle.uc_kbo.specs.Faults.{weighed, HasConstant, NoneBad, IsKboFault};
ghost use Rattle.uc_kbo.specs.Weights.{IsTable, symbol_or, least_constant, kbo_meaning};
ghost use Rattle.uc_kbo.specs.Valid.{IsTied, IsTable-prop, IsTied-prop};
ghost use Rattle.uc_kbo.specs.Laws.{kbo_laws};

use crate::classes::{Classes, Notes};
use crate::climb::compare_by;
use crate::table::{first_bad, least_of, slots_of, weigh};
use crate::{Weighed, Weights};
use std::alloc::Global;
use uc_order::{Cmp, Order, OrderFault, check_precedence};
use uc_term::{Node, Sym, Symbols, VarOrder};

/// The Knuth-Bendix order of a precedence with weights: by the weights, then by the heads, then by the first arguments
/// that differ. A unary symbol may weigh 0 if it is last in the precedence (Knuth and Bendix, Simple Word Problems in
/// Universal Algebras; Baader and Nipkow, section 5.4.4).
#[derive(Drop)]
pub struct Kbo {
    entries: Vec<Weighed>,
    weights: Weights,
    least: Sym,
    ghost valid: { IsTable weights.w0 entries.items } by { IsTable-prop weights.w0 entries.items },
    ghost tied: { IsTied weights.w0 entries.items weights.table.items } by { IsTied-prop weights.w0 entries.items weights.table.items },
    ghost lightest: { least.0 ≡ (symbol_or (least_constant entries.items)).0 },
}

impl Kbo {
    /// The order in which every variable weighs `w0` and the symbols of the precedence, the least first, have the weights
    /// beside them. `UnknownSymbol` is the first symbol of the precedence that the signature lacks; `NotTotal` the first
    /// that stands in it twice, or else the first of the signature that it lacks; `BadWeight` the first whose weight is
    /// over 1,000,000, or a constant's and below `w0`, or 0 where the symbol isn't both unary and last.
    pub fn new(
        alloc: Global,
        signature: &[Sym],
        symbols: &Symbols,
        w0: u32,
        weights: &[u32],
        precedence: &[Sym],
    ) -> Result<Kbo, OrderFault>
        requires w0_some { 1 ≤ w0 }
        requires w0_most { w0 ≤ 1000000 }
        requires as_many { length weights.now ≡ length precedence.now }
        requires of_table { Each (Has symbols.now) signature.now }
        requires constant { HasConstant symbols.now signature.now }
        ensures ok { IfOk result (λ k. (k.weights.w0 ≡ w0) × (k.entries.items ≡ weighed symbols.now precedence.now weights.now)) }
        ensures total { OnOk result (IsTotalOn signature.now precedence.now) }
        ensures weights { OnOk result (NoneBad w0 (weighed symbols.now precedence.now weights.now)) }
        ensures err { IfErr result (IsKboFault symbols.now signature.now w0 weights.now precedence.now) }
    {
        check_precedence(alloc, signature, precedence)?;
        let entries = weigh(alloc, symbols, weights, precedence)?;
        if let Some(e) = first_bad(w0, &entries) {
            return Err(OrderFault::BadWeight(e.symbol, e.weight));
        }
        let table = slots_of(alloc, w0, &entries)?;
        let least = least_of(&entries);
        Ok(Kbo {
            entries,
            weights: Weights { w0, table },
            least,
        })
    }
}

impl Order for Kbo {
    ghost meaning = { λ k. kbo_meaning k.weights.w0 k.entries.items };

    ghost laws = { λ k. kbo_laws k.weights.w0 k.entries.items k.valid };

    fn compare(&self, s: &[Node], t: &[Node]) -> Cmp {
        let notes = Notes::none(0);
        compare_by(&self.weights, false, &Classes::none(&notes), s, t)
    }

    fn compare_under(&self, cases: &VarOrder, s: &[Node], t: &[Node]) -> Cmp {
        let list = cases.classes();
        let notes = Notes::of(list);
        compare_by(&self.weights, true, &Classes::new(list, &notes), s, t)
    }

    fn least(&self) -> Sym {
        self.least
    }
}
