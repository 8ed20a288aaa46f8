//! How far loading has come.

/// How many clauses and how many included files there were so far.
#[derive(Clone, Copy, PartialEq, Eq, Debug)]
pub struct Counts {
    pub clauses: u32,
    pub files: u32,
}
