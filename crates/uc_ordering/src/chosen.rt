//! An order of either kind as a value.

ghost use Rattle.std.specs.Prelude.{◌≡◌, IfOk, IfErr, MatchResult};
ghost use Rattle.uc_order.specs.declared.spec.OrderFault.TheVariants.{NoMemory};
ghost use Rattle.uc_ordering.specs.declared.chosen.Chosen.TheVariants as AnyChosen;
ghost use Rattle.uc_ordering.specs.Fits.{Fits};
ghost use Rattle.uc_ordering.specs.Meaning.{meaning_of, SayAlike};

use std::alloc::{AllocError, Global};
use uc_kbo::Kbo;
use uc_lpo::Lpo;
use uc_order::{Cmp, Order, OrderFault, OrderSpec};
use uc_term::{Node, Sym, Symbols, VarOrder};

/// An order of either kind.
#[derive(Drop)]
pub enum Chosen {
    /// A Knuth-Bendix order.
    Kbo(Kbo),
    /// A lexicographic path order.
    Lpo(Lpo),
}

impl Chosen {
    ghost use Rattle.uc_ordering.specs.Chosen.{chosen_meaning, IsOrderOf};

    /// The order that a description stands for. The description is one for the signature: its precedence has each symbol
    /// once and its weights are good, as those are that `choose` makes. So only memory may be wanting.
    pub fn new(
        alloc: Global,
        spec: &OrderSpec,
        symbols: &Symbols,
        signature: &[Sym],
    ) -> Result<Chosen, AllocError>
        requires { Fits symbols.now signature.now spec.now }
        ensures says { IfOk result (λ order. SayAlike (chosen_meaning order) (meaning_of symbols.now spec.now)) }
        ensures order { IfOk result (IsOrderOf symbols.now spec.now) }
    {
        match spec {
            OrderSpec::Kbo {
                w0,
                weights,
                precedence,
            } => {
                let (weights, precedence) = (weights.as_slice(), precedence.as_slice());
                kbo(Kbo::new(alloc, signature, symbols, *w0, weights, precedence))
            }
            OrderSpec::Lpo { precedence } => {
                lpo(Lpo::new(alloc, signature, symbols, precedence.as_slice()))
            }
        }
    }
}

impl Order for Chosen {
    ghost use Rattle.uc_ordering.specs.Chosen.{chosen_meaning, chosen_laws};

    ghost meaning = { chosen_meaning };

    ghost laws = { chosen_laws };

    fn compare(&self, s: &[Node], t: &[Node]) -> Cmp {
        match self {
            Chosen::Kbo(order) => order.compare(s, t),
            Chosen::Lpo(order) => order.compare(s, t),
        }
    }

    fn compare_under(&self, cases: &VarOrder, s: &[Node], t: &[Node]) -> Cmp {
        match self {
            Chosen::Kbo(order) => order.compare_under(cases, s, t),
            Chosen::Lpo(order) => order.compare_under(cases, s, t),
        }
    }

    fn least(&self) -> Sym {
        match self {
            Chosen::Kbo(order) => order.least(),
            Chosen::Lpo(order) => order.least(),
        }
    }
}

// Of an order that fits only memory may be wanting.
fn kbo(order: Result<Kbo, OrderFault>) -> Result<Chosen, AllocError>
    requires { IfErr order (λ fault. fault ≡ NoMemory) }
    ensures { IfOk result (λ chosen. MatchResult order (λ k. chosen ≡ AnyChosen.Kbo k) (λ _. ⊥)) }
{
    match order {
        Ok(order) => Ok(Chosen::Kbo(order)),
        Err(OrderFault::NoMemory) => Err(AllocError),
        Err(_) => unreachable!(),
    }
}

fn lpo(order: Result<Lpo, OrderFault>) -> Result<Chosen, AllocError>
    requires { IfErr order (λ fault. fault ≡ NoMemory) }
    ensures { IfOk result (λ chosen. MatchResult order (λ o. chosen ≡ AnyChosen.Lpo o) (λ _. ⊥)) }
{
    match order {
        Ok(order) => Ok(Chosen::Lpo(order)),
        Err(OrderFault::NoMemory) => Err(AllocError),
        Err(_) => unreachable!(),
    }
}
