//! Overlaps of facts and their critical pairs (Baader and Nipkow, Term Rewriting and All That, chapter 6; for equations that
//! can't be oriented Bachmair, Dershowitz and Plaisted, Completion without failure).
#![tactic(auto)]

mod fitting;
mod formation;
mod formed;
mod instances;
mod judging;
mod laws;
mod listing;
mod numbering;
mod pairing;
mod reading;
mod space;
mod term_ref;

pub use formation::Formation;
pub use formed::{Formed, Size};
pub use laws::{nowhere_is_up, one_list, one_pair, too_large_by_size, up_is_never_down};
pub use listing::{overlaps, overlaps_by};
pub use pairing::pair_of;
pub use reading::way_of;
pub use space::Space;
