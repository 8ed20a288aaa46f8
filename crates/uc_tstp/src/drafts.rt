//! Lines while their proof is read: other lines are named by the numbers of tokens until all names are known.

ghost use Rattle.std.specs.Prelude.{◌≡◌};
ghost use Rattle.uc_tstp.specs.Drafts.{sort_of_draft, belongs_draft};

use crate::Scope;
use uc_clause::Name;
use uc_term::{Seq, Term};

/// A step whose line is that of the name at a token.
#[derive(Drop)]
pub(crate) struct StepDraft {
    pub by: usize,
    pub left_to_right: bool,
    pub path: Seq<u32>,
    pub to: Term,
}

/// Where a line comes from.
#[derive(Drop)]
pub(crate) enum SourceDraft {
    File(Name),
    Chain {
        start: Term,
        steps: Seq<StepDraft>,
        parents: Seq<usize>,
    },
    Reflexive {
        parents: Seq<usize>,
    },
    EncodeGoal {
        parents: Seq<usize>,
    },
    Refute {
        parents: Seq<usize>,
    },
}

impl SourceDraft {
    /// Whether a line of this source may be one of these lines.
    pub(crate) fn belongs(&self, which: Scope) -> bool
        ensures { result ≡ belongs_draft which self.now }
    {
        match which {
            Scope::Proof => true,
            Scope::Derivation => !matches!(self, SourceDraft::Refute { .. }),
        }
    }
}

/// What a line says: an equation, or its denial where it isn't positive, or `$false`.
#[derive(Drop)]
pub(crate) enum BodyDraft {
    Sides {
        positive: bool,
        left: Term,
        right: Term,
    },
    Falsum,
}

/// What a body is to the sources that may stand behind it.
#[derive(Clone, Copy, PartialEq, Eq, Debug)]
pub(crate) enum Sort {
    Equation,
    Denial,
    Falsum,
}

impl BodyDraft {
    /// What the body is to the sources that may stand behind it.
    pub(crate) fn sort(&self) -> Sort
        ensures { result ≡ sort_of_draft self.now }
    {
        match self {
            BodyDraft::Sides {
                positive,
                left: _,
                right: _,
            } => {
                if *positive {
                    Sort::Equation
                } else {
                    Sort::Denial
                }
            }
            BodyDraft::Falsum => Sort::Falsum,
        }
    }
}

/// A line, by the token of its name.
#[derive(Drop)]
pub(crate) struct LineDraft {
    pub name: usize,
    pub body: BodyDraft,
    pub source: SourceDraft,
}
