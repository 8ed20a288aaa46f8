//! What a file with formulas gives.

use uc_clause::{Clause, Item, Place};

/// What a file with formulas is made of.
#[derive(Drop, Debug)]
pub enum FofItem {
    /// A clause or an include.
    Item(Item),
    /// A formula as the clause that it is, with its variables numbered from 0 by first occurrence; whether it is a
    /// conjecture, which is the clause of its denial; and where its role stands.
    Formula {
        clause: Clause,
        conjecture: bool,
        role_place: Place,
    },
}
