//! What a book is made over, and a book with its first worker.

ghost use Rattle.std.specs.Prelude.{◌≡◌, ◌∷◌, [], ◌<◌, ◌≤◌, IfOk};

use crate::alphabet::{A, Sides, equations, order};
use std::alloc::{AllocError, Global};
use std::test::Fail;
use uc_book::{Book, MAX_BUDGET, MAX_LIMIT, Pass, WORKERS};
use uc_kbo::Kbo;
use uc_order::Order;
use uc_problem::{Encoded, Signature};
use uc_shelf::Shelf;
use uc_term::{Seq, TermFault};

/// A problem, an order and an empty shelf.
#[derive(Drop)]
pub struct Setting {
    pub problem: Encoded,
    pub order: Kbo,
    pub shelf: Shelf,
}

// The problem of these axioms and goals.
fn problem(alloc: Global, axioms: &[Sides], goals: &[Sides]) -> Result<Encoded, TermFault> {
    let axioms = equations(alloc, axioms)?;
    let goals = equations(alloc, goals)?;
    Ok(Encoded {
        axioms: Seq::from_vec(axioms),
        sources: Seq::new(alloc),
        goals: Seq::from_vec(goals),
        goal_clauses: Seq::new(alloc),
        fresh: None,
        signature: Signature {
            symbols: Seq::new(alloc),
            least: A,
            least_is_fresh: false,
        },
    })
}

/// The setting of these axioms and goals.
pub fn set_up(alloc: Global, axioms: &[Sides], goals: &[Sides]) -> Result<Setting, Fail> {
    let problem = problem(alloc, axioms, goals)?;
    let order = order(alloc)?;
    let shelf = Shelf::new(alloc)?;
    Ok(Setting {
        problem,
        order,
        shelf,
    })
}

/// A book of the setting by an order, with a worker.
pub fn begin<'a, O: Order>(
    alloc: Global,
    at: &'a Setting,
    order: &'a O,
    budget: u32,
    pairs: u32,
    worker: u32,
) -> Result<(Book<'a, O>, Pass), AllocError>
    requires budget { budget ≤ MAX_BUDGET }
    requires pairs { pairs ≤ MAX_LIMIT }
    requires worker { worker < WORKERS }
    ensures problem { IfOk result (λ x. x.0.opening.problem ≡ at.entry.now.problem) }
    ensures order { IfOk result (λ x. x.0.order ≡ order.entry.now) }
    ensures shelf { IfOk result (λ x. x.0.opening.shelf ≡ at.entry.now.shelf) }
    ensures enrolled { IfOk result (λ x. x.0.enrolled ≡ worker ∷ []) }
    ensures none_out { IfOk result (λ x. x.0.state.out ≡ []) }
    ensures pass { IfOk result (λ x. x.1.opening ≡ x.0.opening) }
{
    let mut book = Book::start(alloc, &at.problem, order, &at.shelf, budget, pairs)?;
    let pass = book.enroll(alloc, worker)?;
    Ok((book, pass))
}
