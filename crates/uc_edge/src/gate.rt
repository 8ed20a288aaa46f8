// A gate between a draw and its computation.

/// A gate that every worker passes between the draw of a task and its computation. A test may hold a worker there, so
/// nothing is promised of it but that a call returns.
pub trait Gate {
    /// Lets the worker of this number pass with the ticket that it has drawn.
    fn pass(&self, worker: u32, ticket: u64);
}

/// A gate that does nothing.
#[derive(Clone, Copy, Debug, PartialEq, Eq)]
pub struct NoGate;

impl Gate for NoGate {
    fn pass(&self, _worker: u32, _ticket: u64) {}
}
