//! The search of the commands that search.

ghost use Rattle.std.specs.Prelude.{◌≡◌, IfOk};
ghost use Rattle.uc_book.specs.Openings.{opening_of};
ghost use Rattle.uc_worker.specs.Commits.{shares_of};
ghost use Rattle.uc_worker.specs.Ends.{IsSearchedBy};
ghost use Rattle.uc_worker.specs.Hands.{hands_of};
ghost use Rattle.uc_top.specs.Limits.{SearchesWithin};

use std::alloc::{AllocError, Global};
use std::sync::Wait;
use std::thread::Threads;
use uc_edge::Gate;
use uc_order::Order;
use uc_problem::Encoded;
use uc_shelf::Shelf;
use uc_words::Command;
use uc_worker::{Searched, search};

/// Searches from these axioms and goals by this order, with the command's budget, limit on pairs and workers.
pub(crate) fn search_for<'a, R: Threads + Wait + Sync, O: Order + Sync, G: Gate + Sync>(
    rt: &R,
    alloc: Global,
    command: &Command,
    encoded: &'a Encoded,
    order: &'a O,
    shelf: &'a Shelf,
    gate: &G,
) -> Result<Searched<'a, O>, AllocError>
    requires { SearchesWithin command.now }
    ensures searched { IfOk result (λ r. IsSearchedBy (O.meaning order.entry.now) (opening_of r.book.opening) command.now.workers r.verdict r.book.state) }
    ensures shares { IfOk result (λ r. r.shares.items ≡ shares_of (hands_of command.now.workers) r.book.state.history) }
    ensures opening { IfOk result (λ r. r.book.opening ≡ record { problem = encoded.entry.now; shelf = shelf.entry.now; budget = command.now.budget; limit = command.now.pairs }) }
    ensures order { IfOk result (λ r. r.book.order ≡ order.entry.now) }
{
    search(
        rt,
        alloc,
        encoded,
        order,
        shelf,
        command.budget,
        command.pairs,
        command.workers,
        gate,
    )
}
