//! What the history tells, and how a run ends.

use uc_fact::Overlap;

/// How a run ended.
#[derive(Clone, Copy, PartialEq, Eq, Debug)]
pub enum Verdict {
    /// The two ends of this goal are equal.
    Proved(u32),
    /// The facts that live are convergent on ground terms.
    Saturated,
    /// So many units were counted, which is the budget, and something waits.
    BudgetOut { counted: u32 },
    /// So many pairs wait, and with these new ones they are more than the limit.
    PairsOut { waiting: u32, new: u64 },
    /// The first overlap whose pair is too large, where nothing else is open.
    LargeOverlap(Overlap),
    /// The first goal whose next step is too large, where nothing else is open.
    LargeGoal(u32),
}

/// How the normalising of a goal ended: its ends met, or why it stopped.
#[derive(Clone, Copy, PartialEq, Eq, Debug)]
pub enum GoalEnd {
    Met,
    Full,
    Steps,
    Size,
}

/// The kind of a verdict.
#[derive(Clone, Copy, PartialEq, Eq, Debug)]
pub enum Ending {
    Proved,
    Saturated,
    Budget,
    Pairs,
    Size,
}

/// What happened: a task was drawn, over so many entries; its result was committed; a pair with a dead parent was dropped;
/// a task was put back; a missing equation was kept; or the book was closed. Of a commit that came after the verdict only
/// its ticket is told.
#[derive(Clone, Copy, PartialEq, Eq, Debug)]
pub enum Happening {
    DrawGoal { goal: u32, front: u32 },
    DrawMore { goal: u32, front: u32 },
    DrawMeet { fact: u32, front: u32 },
    DrawJoin { pair: u64, front: u32 },
    CommitGoal { goal: u32, steps: u32, end: GoalEnd },
    CommitMore { goal: u32, steps: u32, end: GoalEnd },
    CommitMeet { fact: u32, pairs: u64, kills: u32 },
    CommitJoined { pair: u64 },
    CommitKept { pair: u64, fact: u32 },
    CommitLate { ticket: u64 },
    Dropped { pair: u64 },
    ReclaimGoal { goal: u32 },
    ReclaimMore { goal: u32 },
    ReclaimMeet { fact: u32 },
    ReclaimJoin { pair: u64 },
    AuditKept { fact: u32 },
    Close(Ending),
}

/// One event: which worker brought it, and what happened.
#[derive(Clone, Copy, PartialEq, Eq, Debug)]
pub struct Event {
    pub worker: u32,
    pub what: Happening,
}
