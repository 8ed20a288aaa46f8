//! Overlaps with the sizes of their pairs.

use uc_fact::Overlap;

/// How large an overlap's pair is.
#[derive(Clone, Copy, PartialEq, Eq, Debug)]
pub enum Size {
    /// The numbers of nodes of the pair's two sides together.
    Weight(u32),
    /// The two sides are equal.
    Same,
    /// The term from which both sides come, or one of the sides, has more than 4,096 nodes.
    Large,
}

/// An overlap, and how large its pair is.
#[derive(Clone, Copy, PartialEq, Eq, Debug)]
pub struct Formed {
    pub overlap: Overlap,
    pub size: Size,
}
