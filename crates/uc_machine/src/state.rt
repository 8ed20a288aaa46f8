//! The small values of the book's state.

/// Whether a fact's meeting with the earlier facts is to come, is out, or was held or won't be held any more, since the fact
/// died.
#[derive(Clone, Copy, PartialEq, Eq, Debug)]
pub enum Meeting {
    Unmet,
    Visiting,
    Met,
}

/// What is to be done for a goal: it is to be normalised by the facts that live now; it is out; the normalising spent its
/// steps and goes on; both ends are normal; or a step from one of them would be too large.
#[derive(Clone, Copy, PartialEq, Eq, Debug)]
pub enum Stage {
    Due,
    Busy,
    Continued,
    Settled,
    Stuck,
}

/// How many tasks a worker drew, committed and had put back.
#[derive(Clone, Copy, PartialEq, Eq, Debug)]
pub struct Numbers {
    pub drawn: u64,
    pub commits: u64,
    pub reclaims: u64,
}
