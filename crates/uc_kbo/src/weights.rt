//! Weights and a precedence.

ghost use Rattle.std.specs.Prelude.{◌≡◌};
ghost use Rattle.uc_kbo.specs.Runs.{weight_at, rank_at};

use uc_term::Sym;

/// A symbol of the signature with its arity and its weight.
#[derive(Clone, Copy, PartialEq, Eq, Debug)]
pub struct Weighed {
    pub symbol: Sym,
    pub arity: u32,
    pub weight: u32,
}

/// What is known of a symbol by its number: with this arity it has this weight and this place in the precedence, from 1.
#[derive(Clone, Copy, PartialEq, Eq, Debug)]
pub struct Slot {
    pub arity: u32,
    pub weight: u32,
    pub rank: usize,
}

/// The weight of variables, and the slots of the symbols by their numbers.
#[derive(Drop, Debug)]
pub struct Weights {
    pub w0: u32,
    pub table: Vec<Slot>,
}

impl Weights {
    // The weight of a symbol with so many arguments.
    #[inline]
    pub fn weight_of(&self, f: Sym, n: u32) -> u32
        ensures { result ≡ weight_at self.now.w0 self.now.table.items f n }
    {
        let at = f.0 as usize;
        if at < self.table.len() {
            let slot = self.table[at];
            if slot.arity == n {
                slot.weight
            } else {
                self.w0
            }
        } else {
            self.w0
        }
    }

    // Its place in the precedence, from 1; 0 where the signature lacks it.
    #[inline]
    pub fn rank_of(&self, f: Sym, n: u32) -> usize
        ensures { result ≡ rank_at self.now.w0 self.now.table.items f n }
    {
        let at = f.0 as usize;
        if at < self.table.len() {
            let slot = self.table[at];
            if slot.arity == n { slot.rank } else { 0 }
        } else {
            0
        }
    }
}
