//! Matching and unification of first-order terms, and replacement of equals at one place (Baader and Nipkow, Term Rewriting
//! and All That, section 4.7 and chapters 3 and 4).
#![tactic(auto)]

mod closure;
mod ends;
mod firsts;
mod forest;
mod matching;
mod replacement;
mod sizes;
mod solution;
mod unification;
mod walking;
mod workspace;

pub use matching::{matches, matches_both, matches_in};
pub use replacement::replaces_at;
pub use unification::{Unified, UnifiedIn, unify, unify_in};
pub use workspace::Workspace;
