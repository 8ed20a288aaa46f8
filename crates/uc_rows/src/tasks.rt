//! The tasks that are out.

ghost use Rattle.std.specs.Prelude.{◌≡◌, ◌↔◌, ⊤, map, IsTrue, IfOk, IfSome, MatchOption, None};
ghost use Rattle.uc_machine.specs.State.{Out, out_at};
ghost use Rattle.uc_machine.specs.Effects.{unit_of, draw_event, reclaim_event};
ghost use Rattle.uc_rows.specs.TaskRows.{out_of, StandsAt};

use std::alloc::{AllocError, Global};
use uc_machine::{Happening, Job};
use uc_shelf::Front;

/// A task that is out: its ticket, the worker that drew it, what it is about, and the front over which it is computed.
#[derive(Drop)]
pub struct TaskRow {
    pub ticket: u64,
    pub worker: u32,
    pub job: Job,
    pub front: Front,
}

/// Where the task of a ticket stands.
pub fn place_of(tasks: &[TaskRow], ticket: u64) -> Option<usize>
    ensures none { MatchOption result (out_at ticket (map out_of tasks.now) ≡ None) (λ _. ⊤) }
    ensures some { IfSome result (λ at. (t : Out) × (t.ticket ≡ ticket) × StandsAt tasks.now at t) }
{
    for k in 0..tasks.len() {
        if tasks[k].ticket == ticket {
            return Some(k);
        }
    }
    None
}

/// An equal job.
pub fn copy_job(alloc: Global, job: &Job) -> Result<Job, AllocError>
    ensures { IfOk result (λ copy. copy ≡ job.now) }
{
    match job {
        Job::Goal { goal, left, right } => Ok(Job::Goal {
            goal: *goal,
            left: left.copy(alloc)?,
            right: right.copy(alloc)?,
        }),
        Job::More { goal, left, right } => Ok(Job::More {
            goal: *goal,
            left: left.copy(alloc)?,
            right: right.copy(alloc)?,
        }),
        Job::Meet(fact) => Ok(Job::Meet(*fact)),
        Job::Join { pair, origin } => Ok(Job::Join {
            pair: *pair,
            origin: *origin,
        }),
    }
}

/// Whether the two jobs are equal.
pub fn same_job(a: &Job, b: &Job) -> bool
    ensures { IsTrue result ↔ (a.now ≡ b.now) }
{
    match (a, b) {
        (
            Job::Goal { goal, left, right },
            Job::Goal {
                goal: other,
                left: l,
                right: r,
            },
        ) => *goal == *other && left.same(l) && right.same(r),
        (
            Job::More { goal, left, right },
            Job::More {
                goal: other,
                left: l,
                right: r,
            },
        ) => *goal == *other && left.same(l) && right.same(r),
        (Job::Meet(fact), Job::Meet(other)) => *fact == *other,
        (
            Job::Join { pair, origin },
            Job::Join {
                pair: other,
                origin: from,
            },
        ) => *pair == *other && *origin == *from,
        _ => false,
    }
}

/// How many units the commit of a job counts.
pub fn units(job: &Job) -> u32
    ensures { result ≡ unit_of job.now }
{
    match job {
        Job::Goal { .. } | Job::Meet(_) => 0,
        Job::More { .. } | Job::Join { .. } => 1,
    }
}

/// The event of a job's draw, over so many entries.
pub fn draw_event(job: &Job, front: u32) -> Happening
    ensures { result ≡ draw_event job.now front }
{
    match job {
        Job::Goal { goal, .. } => Happening::DrawGoal { goal: *goal, front },
        Job::More { goal, .. } => Happening::DrawMore { goal: *goal, front },
        Job::Meet(fact) => Happening::DrawMeet { fact: *fact, front },
        Job::Join { pair, .. } => Happening::DrawJoin { pair: *pair, front },
    }
}

/// The event of a job that is put back.
pub fn reclaim_event(job: &Job) -> Happening
    ensures { result ≡ reclaim_event job.now }
{
    match job {
        Job::Goal { goal, .. } => Happening::ReclaimGoal { goal: *goal },
        Job::More { goal, .. } => Happening::ReclaimMore { goal: *goal },
        Job::Meet(fact) => Happening::ReclaimMeet { fact: *fact },
        Job::Join { pair, .. } => Happening::ReclaimJoin { pair: *pair },
    }
}
