//! The pairs of overlaps.

use uc_fact::Chain;
use uc_term::Term;

/// What an overlap's pair comes to.
#[derive(Debug, Drop)]
pub enum Formation {
    /// The two sides, and the chain from the left side to the right side.
    Pair {
        left: Term,
        right: Term,
        chain: Chain,
    },
    /// The term from which both sides come, or one of the sides, has more than 4,096 nodes.
    TooLarge,
}
