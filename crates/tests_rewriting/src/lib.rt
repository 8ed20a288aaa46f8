//! Tests of the public calls of matching and unification, the orders, facts, rewriting, what is found for a term,
//! overlaps, joinability and questions. The crate stands above those, so that each of them is proved once.
#![tactic(auto)]

#[cfg(test)]
mod ac_joining;
#[cfg(test)]
mod cases;
#[cfg(test)]
mod comparing;
#[cfg(test)]
mod deciding;
#[cfg(test)]
mod facts;
#[cfg(test)]
mod finding;
#[cfg(test)]
mod joining;
#[cfg(test)]
mod kbo;
#[cfg(test)]
mod lpo;
#[cfg(test)]
mod orders;
#[cfg(test)]
mod pairing;
#[cfg(test)]
mod replaying;
#[cfg(test)]
mod rewriting;
#[cfg(test)]
mod sharing;
#[cfg(test)]
mod terms;
#[cfg(test)]
mod unifying;
