//! Tests of the program as one call that are no table of words, files, statuses and texts; those are the cases of `trial_run`.
#![tactic(auto)]

#[cfg(test)]
mod damage;
#[cfg(test)]
mod drip;
#[cfg(test)]
mod given;
#[cfg(test)]
mod rounds;
#[cfg(test)]
mod systems;
#[cfg(test)]
mod workers;
