//! Tests of the public calls of terms, the outside, clauses, formulas, problems, proofs, systems, words and the choice of an
//! order. The crate stands above those, so that each of them is proved once.
#![tactic(auto)]

#[cfg(test)]
mod edge;
#[cfg(test)]
mod formula_refusals;
#[cfg(test)]
mod formulas;
#[cfg(test)]
mod formulas_told;
#[cfg(test)]
mod orders;
#[cfg(test)]
mod problems;
#[cfg(test)]
mod proofs;
#[cfg(test)]
mod reading;
#[cfg(test)]
mod systems;
#[cfg(test)]
mod terms;
#[cfg(test)]
mod tokens;
#[cfg(test)]
mod words;
