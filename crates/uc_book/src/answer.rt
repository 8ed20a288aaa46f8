//! What the calls of a book answer.

use crate::token::Task;
use thiserror::Error;
use uc_machine::Verdict;

/// What a draw answers.
#[derive(Drop)]
pub enum Drawn {
    /// A task to compute.
    Task(Task),
    /// Nothing may be drawn now, and so many tasks are out.
    Idle(u32),
    /// Nothing waits, and no task is out.
    Drained,
    /// The book has this verdict.
    Closed(Verdict),
}

/// What a commit answers.
#[derive(Clone, Copy, PartialEq, Eq, Debug)]
pub struct Receipt {
    /// The number of the commit's event in the history, from 1.
    pub event: u64,
}

/// Why a result or a ticket wasn't taken.
#[derive(Clone, Copy, PartialEq, Eq, Debug, Error)]
pub enum CommitFault {
    /// No such task of this ticket is out to the worker.
    #[error("no such task of ticket {0} is out to this worker")]
    NotOut(u64),
    /// Memory is wanted; nothing changed.
    #[error("out of memory")]
    NoMemory,
}

/// What an audit answers.
#[derive(Clone, Copy, PartialEq, Eq, Debug)]
pub enum Audited {
    /// The missing fact was kept under this number.
    Kept(u32),
    /// The book has this verdict.
    Closed(Verdict),
}
