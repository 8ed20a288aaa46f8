//! Questions about ground terms, and what a convergent system decides (Bachmair, Dershowitz and Plaisted, Completion without
//! failure; Baader and Nipkow, Term Rewriting and All That, chapters 2 and 6).
#![tactic(auto)]

mod asking;
mod asking_all;
mod laws;
mod reply;

pub use asking::ask;
pub use asking_all::ask_all;
pub use laws::{
    critical_pairs, decides, ends_join, facts_follow, no_goal_follows, one_reply, one_verdict,
    pair_joins, reply_is_right,
};
pub use reply::Reply;
