//! The name of a search: what its book was opened with, its order, and the ledger of its commits.

ghost use Rattle.std.specs.Prelude.{ℕ, [], false, None, Option};
ghost use Rattle.uc_book.specs.Openings.{Opened};

use std::marker::Brand;
use std::sync::ledger::Ledger;

/// What a book was opened with, but for its order, by a name that a call picks; and the ledger of its commits. Whoever gets the
/// lock knows nothing of what lies under it but its type, so the type names the book's opening.
pub trait Naming: Ledger {
    ghost opening: { Opened };
}

/// The order too, as a value.
pub trait NamesOrder<O>: Naming {
    ghost order: { Option O };
}

impl Naming for Brand {
    ghost opening = { record { problem = record { axioms = []; sources = []; goals = []; goal_clauses = []; fresh = None; signature = record { symbols = []; least = record { 0 = 0 }; least_is_fresh = false } }; shelf = record { tag = []; buckets = [] }; budget = 0; limit = 0 } };
}

impl<O> NamesOrder<O> for Brand {
    ghost order = { None };
}
