//! What the book's own types say, in the slow machine's.

ghost use Rattle.uc_shelf.specs.Fronts.{IsOf};
ghost use Rattle.uc_book.specs.Answers.{IfTask};

use crate::machine::{Answer, Found, Leg, Line, Machine, Sides, Way, Work};
use std::alloc::{AllocError, Global};
use uc_book::Drawn;
use uc_fact::{By, Chain, Fact, Step};
use uc_machine::{Finding, Job};
use uc_shelf::{Entry, Front, Shelf};
use uc_term::{Node, Term};

// one number more, into a mark (Fowler, Noll and Vo)
fn marked(mark: u64, number: u64) -> u64 {
    (mark ^ number).wrapping_mul(1_099_511_628_211)
}

fn mark_of_node(node: Node) -> u64 {
    match node {
        Node::Var(x) => (x as u64).wrapping_mul(2),
        Node::App(f, _) => (f.0 as u64).wrapping_mul(2).wrapping_add(1),
    }
}

/// The mark of a term.
pub fn mark_of(term: &Term) -> u64 {
    let mut mark: u64 = 14_695_981_039_346_656_037;
    for node in term.as_nodes() {
        mark = marked(mark, mark_of_node(*node));
    }
    mark
}

pub fn work_of(job: &Job) -> Work {
    match job {
        Job::Goal { goal, left, right } => Work::Goal {
            goal: *goal,
            left: mark_of(left),
            right: mark_of(right),
        },
        Job::More { goal, left, right } => Work::More {
            goal: *goal,
            left: mark_of(left),
            right: mark_of(right),
        },
        Job::Meet(fact) => Work::Meet(*fact),
        Job::Join { pair, origin } => Work::Join {
            pair: *pair,
            origin: *origin,
        },
    }
}

pub fn sides_of(fact: &Fact) -> Sides {
    Sides {
        weight: fact.left.nodes().saturating_add(fact.right.nodes()),
        mark: marked(mark_of(&fact.left), mark_of(&fact.right)),
    }
}

fn line_of(entry: &Entry) -> Line {
    match entry {
        Entry::Born(fact) => Line::Born(sides_of(fact)),
        Entry::Dies { fact, killer } => Line::Dies {
            fact: *fact,
            killer: *killer,
        },
    }
}

/// The entries of a front.
pub fn lines_of(alloc: Global, shelf: &Shelf, front: &Front) -> Result<Vec<Line>, AllocError>
    requires { IsOf shelf.now front.now }
{
    let mut lines = Vec::new(alloc);
    for k in 0..front.len() {
        lines.push(line_of(shelf.read(front, k)))?;
    }
    Ok(lines)
}

/// Whether the front has the first entries of the machine, so many of them.
pub fn has_lines(shelf: &Shelf, front: &Front, machine: &Machine, count: usize) -> bool
    requires { IsOf shelf.now front.now }
{
    if front.len() as usize != count || count > machine.lines.len() {
        return false;
    }
    for k in 0..front.len() {
        if line_of(shelf.read(front, k)) != machine.lines[k as usize] {
            return false;
        }
    }
    true
}

fn mark_of_step(step: &Step) -> u64 {
    let by = match step.by {
        By::Axiom(axiom) => (axiom as u64).wrapping_mul(2),
        By::Fact(fact) => (fact as u64).wrapping_mul(2).wrapping_add(1),
    };
    let way = marked(by, step.left_to_right as u64);
    marked(way, step.position.0 as u64)
}

fn legs_of(alloc: Global, chain: &Chain) -> Result<Vec<Leg>, AllocError> {
    let steps = chain.steps.as_slice();
    let mut legs = Vec::new(alloc);
    for k in 0..steps.len() {
        legs.push(Leg {
            mark: mark_of_step(&steps[k]),
            to: mark_of(&steps[k].to),
        })?;
    }
    Ok(legs)
}

fn copied<T: Copy>(alloc: Global, list: &[T]) -> Result<Vec<T>, AllocError> {
    let mut items = Vec::new(alloc);
    for k in 0..list.len() {
        items.push(list[k])?;
    }
    Ok(items)
}

pub fn found_of(alloc: Global, found: &Finding) -> Result<Found, AllocError> {
    match found {
        Finding::Ends { left, right, stop } => Ok(Found::Ends {
            left: legs_of(alloc, left)?,
            right: legs_of(alloc, right)?,
            stop: *stop,
        }),
        Finding::Joined(_) => Ok(Found::Joined),
        Finding::Kept(fact) => Ok(Found::Kept(sides_of(fact))),
        Finding::Stale(killer) => Ok(Found::Stale(*killer)),
        Finding::Met { kills, overlaps } => Ok(Found::Met {
            kills: copied(alloc, kills.as_slice())?,
            overlaps: copied(alloc, overlaps.as_slice())?,
        }),
    }
}

/// Whether a draw was answered alike.
pub fn is_drawn(shelf: &Shelf, machine: &Machine, answer: &Answer, drawn: &Drawn) -> bool
    requires { IfTask drawn.now (λ task. IsOf shelf.now task.front) }
{
    match (answer, drawn) {
        (Answer::Task(out), Drawn::Task(task)) => {
            out.ticket == task.ticket
                && out.work == work_of(&task.job)
                && has_lines(shelf, &task.front, machine, out.front)
        }
        (Answer::Idle(n), Drawn::Idle(m)) => *n == *m as usize,
        (Answer::Drained, Drawn::Drained) => true,
        (Answer::Closed(verdict), Drawn::Closed(other)) => *verdict == *other,
        _ => false,
    }
}

/// Whether a chain is this way, from this start.
pub fn is_way(way: &Way, chain: &Chain, end: &Term, start: &Term) -> bool {
    let steps = chain.steps.as_slice();
    if steps.len() != way.marks.len() || !chain.start.same(start) || mark_of(end) != way.end {
        return false;
    }
    for k in 0..steps.len() {
        if mark_of_step(&steps[k]) != way.marks[k] {
            return false;
        }
    }
    true
}
