//! Clauses in flat order.

use uc_clause::{Clause, Place};
use uc_term::Text;

/// A clause in flat order: the file that it stands in, and, where it is the denial of a conjecture, the place of that word, its
/// role.
#[derive(Drop)]
pub struct FlatClause {
    pub file: Text,
    pub clause: Clause,
    pub conjecture: Option<Place>,
}
