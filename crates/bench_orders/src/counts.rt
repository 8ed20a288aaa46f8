//! How often each outcome of a comparison comes.

use uc_order::{Cmp, Order};
use uc_term::Term;

#[derive(Clone, Copy, Debug)]
pub struct Counts {
    pub greater: u64,
    pub less: u64,
    pub equal: u64,
    pub unknown: u64,
}

impl Counts {
    #[inline]
    fn add(&mut self, outcome: Cmp) {
        match outcome {
            Cmp::Greater => self.greater = self.greater.wrapping_add(1),
            Cmp::Less => self.less = self.less.wrapping_add(1),
            Cmp::Equal => self.equal = self.equal.wrapping_add(1),
            Cmp::Unknown => self.unknown = self.unknown.wrapping_add(1),
        }
    }
}

fn add_round<O: Order>(order: &O, terms: &[Term], counts: &mut Counts) {
    for k in 0..terms.len() / 2 {
        counts.add(order.compare(terms[2 * k].as_nodes(), terms[2 * k + 1].as_nodes()));
    }
}

/// The outcomes of so many rounds over pairs of terms that stand one behind the other.
pub fn compared<O: Order>(order: &O, terms: &[Term], rounds: u64) -> Counts {
    let mut counts = Counts {
        greater: 0,
        less: 0,
        equal: 0,
        unknown: 0,
    };
    for _ in 0..rounds {
        add_round(order, terms, &mut counts);
    }
    counts
}
