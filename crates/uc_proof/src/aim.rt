//! What lines are derived for.

use uc_fact::Chain;
use uc_term::Seq;

/// What lines are derived for: the goal of a number, with the chain between its sides; or the facts of these numbers.
#[derive(Drop)]
pub enum Aim {
    Goal { chain: Chain, goal: u32 },
    Facts(Seq<u32>),
}
