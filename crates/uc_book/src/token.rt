//! What goes out from a book: a worker's pass, tasks, and their results.

ghost use Rattle.std.specs.Prelude.{◌≡◌, ◌+◌, ◌-◌, ◌^◌, ◌<◌, min};

use crate::opened::Opened;
use std::marker::Model;
use uc_machine::{Finding, Job};
use uc_rows::WORKERS;
use uc_shelf::Front;

/// A worker's token, with its number and its count of commits. It has the opening of the book that enrolled it.
#[derive(Drop)]
pub struct Pass {
    worker: u32,
    commits: u64,
    opening: Opened,
}

impl Model for Pass {
    ghost use Rattle.std.specs.Prelude.{◌<◌};
    ghost use Rattle.std.specs.Coded.{codes};
    ghost use Rattle.uc_term.specs.Code.{tree_code};
    ghost use Rattle.boxcar.specs.Table.{shelves_coded};
    ghost use Rattle.uc_book.specs.Openings.{PassView};

    ghost Value = { PassView };

    ghost coded = { Prim.hlevel (codes, tree_code, shelves_coded) };

    ghost view = { λ p. record { worker = p.worker; commits = p.commits; opening = p.opening } };

    ghost invariant = { λ p. p.worker < 65 };
}

impl Pass {
    /// The token of a worker that made no commit yet.
    pub(crate) fn new(worker: u32, opening: Opened) -> Pass
        requires { worker < WORKERS }
        ensures worker { result.worker ≡ worker }
        ensures commits { result.commits ≡ 0 }
        ensures opening { result.opening ≡ opening }
    {
        Pass {
            worker,
            commits: 0,
            opening,
        }
    }

    /// The worker's number.
    pub fn worker(&self) -> u32
        ensures value { result ≡ self.now.worker }
        ensures few { result < WORKERS }
    {
        self.worker
    }

    /// How many commits it made. The count stands still at the greatest number of its type.
    pub fn commits(&self) -> u64
        ensures { result ≡ self.now.commits }
    {
        self.commits
    }

    /// One commit more.
    pub(crate) fn count(&mut self)
        ensures { self.new ≡ record self.old { commits = min (self.old.commits + 1) (2 ^ 64 - 1) } }
    {
        self.commits = self.commits.saturating_add(1);
    }
}

/// What a worker is to compute: what it is about, and a copy of the book's front when it was drawn. Its ticket is the number of
/// tasks that were drawn before it. It has the opening of the book from which it was drawn.
#[derive(Drop)]
pub struct Task {
    /// How many tasks were drawn before it.
    pub ticket: u64,
    /// What it is about.
    pub job: Job,
    /// The entries over which it is to be computed.
    pub front: Front,
    /// What its book was opened with.
    pub opening: Opened,
}

/// What was computed for a task: the task's ticket, job, front and opening, with what was found.
#[derive(Drop)]
pub struct Done {
    /// The task's ticket.
    pub ticket: u64,
    /// The task's job.
    pub job: Job,
    /// The task's front, over which it was computed.
    pub front: Front,
    /// What it came to.
    pub found: Finding,
    /// The task's opening.
    pub opening: Opened,
}
