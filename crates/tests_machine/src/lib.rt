//! Tests of the public calls of the machine's crates: the ledger, the queue, the shelf, the bank, rows, tasks, the final pass,
//! the book and searches by several workers.
#![tactic(auto)]

#[cfg(test)]
mod alphabet;
#[cfg(test)]
mod bank;
#[cfg(test)]
mod books;
#[cfg(test)]
mod fronts;
#[cfg(test)]
mod ledger;
#[cfg(test)]
mod passes;
#[cfg(test)]
mod queue;
#[cfg(test)]
mod rows;
#[cfg(test)]
mod shelf;
#[cfg(test)]
mod tasks;
#[cfg(test)]
mod threads;
#[cfg(test)]
mod watched;
#[cfg(test)]
mod workers;
