//! From the tokens that name lines to the lines' numbers.

ghost use Rattle.std.specs.Prelude.{◌≡◌, ◌∷◌, [], length, IfOk, IfErr};
ghost use Rattle.uc_clause.specs.Tokens.{AreTokens};
ghost use Rattle.uc_tstp.specs.Meaning.{IsNamed, AreNamed};
ghost use Rattle.uc_tstp.specs.Resolving.{ResolvesBody, ResolvesStep, ResolveSteps, ResolvesSource, ResolvesLine, ResolveLines, source_mentions, steps_mention, lines_mention, Lacks};
ghost use Rattle.uc_tstp.specs.declared.resolving.Unresolved.{Unresolved};

use crate::drafts::{BodyDraft, LineDraft, SourceDraft, StepDraft};
use crate::names::Names;
use std::alloc::{AllocError, AllocFailed, Global};
use uc_check::{Line, LineSource, LineStep};
use uc_clause::{Token, spelling_at};
use uc_term::{Seq, Term, Text};

/// Why a token that names a line isn't replaced by the line's number.
#[derive(Clone, Copy, PartialEq, Eq, Debug, Drop)]
pub(crate) enum Unresolved {
    /// No line has the name at this token.
    Unknown(usize),
    NoMemory,
}

impl From<AllocError> for Unresolved {
    ghost from_gives = { λ _ e. e ≡ Unresolved.NoMemory };

    fn from(_: AllocError) -> Self {
        Unresolved::NoMemory
    }
}

impl<T: Drop> From<AllocFailed<T>> for Unresolved {
    ghost from_gives = { λ _ e. e ≡ Unresolved.NoMemory };

    fn from(_: AllocFailed<T>) -> Self {
        Unresolved::NoMemory
    }
}

/// The two sides of a line, and whether it is positive.
#[derive(Drop)]
pub(crate) struct Sides {
    positive: bool,
    left: Term,
    right: Term,
}

// The number of the line that a token names.
fn number_of(bytes: &[u8], tokens: &[Token], names: &Names, token: usize) -> Result<u32, Unresolved>
    requires { AreTokens bytes.now tokens.now }
    ensures named { IfOk result (IsNamed bytes.now tokens.now names.now token) }
    ensures lacks { IfErr result (Lacks bytes.now tokens.now names.now (token ∷ [])) }
{
    match names.number(spelling_at(bytes, tokens, token)) {
        Some(number) => Ok(number),
        None => Err(Unresolved::Unknown(token)),
    }
}

// The numbers of the parents of a line.
fn parents_of(
    alloc: Global,
    bytes: &[u8],
    tokens: &[Token],
    names: &Names,
    parents: &[usize],
) -> Result<Seq<u32>, Unresolved>
    requires { AreTokens bytes.now tokens.now }
    ensures named { IfOk result (AreNamed bytes.now tokens.now names.now parents.now) }
    ensures lacks { IfErr result (Lacks bytes.now tokens.now names.now parents.now) }
{
    let mut numbers = Seq::new(alloc);
    for token in parents {
        let number = number_of(bytes, tokens, names, *token)?;
        numbers.push(number)?;
    }
    Ok(numbers)
}

// A step with the number of its line.
fn step_of(
    bytes: &[u8],
    tokens: &[Token],
    names: &Names,
    draft: StepDraft,
) -> Result<LineStep, Unresolved>
    requires { AreTokens bytes.now tokens.now }
    ensures resolves { IfOk result (ResolvesStep bytes.now tokens.now names.now draft) }
    ensures lacks { IfErr result (Lacks bytes.now tokens.now names.now (draft.by ∷ [])) }
{
    let by = number_of(bytes, tokens, names, draft.by)?;
    Ok(LineStep {
        by,
        left_to_right: draft.left_to_right,
        path: draft.path,
        to: draft.to,
    })
}

// The steps of a chain with the numbers of their lines.
fn steps_of(
    alloc: Global,
    bytes: &[u8],
    tokens: &[Token],
    names: &Names,
    drafts: Seq<StepDraft>,
) -> Result<Seq<LineStep>, Unresolved>
    requires { AreTokens bytes.now tokens.now }
    ensures resolve { IfOk result (ResolveSteps bytes.now tokens.now names.now drafts) }
    ensures lacks { IfErr result (Lacks bytes.now tokens.now names.now (steps_mention drafts)) }
{
    let mut steps = Seq::new(alloc);
    for draft in drafts.into_vec() {
        let step = step_of(bytes, tokens, names, draft)?;
        steps.push(step)?;
    }
    Ok(steps)
}

// A chain with the numbers of the lines that it names.
fn chain_of(
    alloc: Global,
    bytes: &[u8],
    tokens: &[Token],
    names: &Names,
    start: Term,
    steps: Seq<StepDraft>,
    parents: Seq<usize>,
) -> Result<LineSource, Unresolved>
    requires { AreTokens bytes.now tokens.now }
    ensures resolves { IfOk result (ResolvesSource bytes.now tokens.now names.now (SourceDraft.Chain start steps parents)) }
    ensures lacks { IfErr result (Lacks bytes.now tokens.now names.now (source_mentions (SourceDraft.Chain start steps parents))) }
{
    let steps = steps_of(alloc, bytes, tokens, names, steps)?;
    let parents = parents_of(alloc, bytes, tokens, names, parents.as_slice())?;
    Ok(LineSource::Chain {
        start,
        steps,
        parents,
    })
}

// A source with the numbers of the lines that it names.
fn source_of(
    alloc: Global,
    bytes: &[u8],
    tokens: &[Token],
    names: &Names,
    draft: SourceDraft,
) -> Result<LineSource, Unresolved>
    requires { AreTokens bytes.now tokens.now }
    ensures resolves { IfOk result (ResolvesSource bytes.now tokens.now names.now draft) }
    ensures lacks { IfErr result (Lacks bytes.now tokens.now names.now (source_mentions draft)) }
{
    match draft {
        SourceDraft::File(name) => Ok(LineSource::File(name)),
        SourceDraft::Chain {
            start,
            steps,
            parents,
        } => chain_of(alloc, bytes, tokens, names, start, steps, parents),
        SourceDraft::Reflexive { parents } => {
            let parents = parents_of(alloc, bytes, tokens, names, parents.as_slice())?;
            Ok(LineSource::Reflexive { parents })
        }
        SourceDraft::EncodeGoal { parents } => {
            let parents = parents_of(alloc, bytes, tokens, names, parents.as_slice())?;
            Ok(LineSource::EncodeGoal { parents })
        }
        SourceDraft::Refute { parents } => {
            let parents = parents_of(alloc, bytes, tokens, names, parents.as_slice())?;
            Ok(LineSource::Refute { parents })
        }
    }
}

// What a body says as two sides: `$false` has the variable 0 on both, and is positive.
fn sides_of(alloc: Global, draft: BodyDraft) -> Result<Sides, AllocError>
    ensures { IfOk result (ResolvesBody draft) }
{
    match draft {
        BodyDraft::Sides {
            positive,
            left,
            right,
        } => Ok(Sides {
            positive,
            left,
            right,
        }),
        BodyDraft::Falsum => {
            let left = Term::var(alloc, 0)?;
            let right = Term::var(alloc, 0)?;
            Ok(Sides {
                positive: true,
                left,
                right,
            })
        }
    }
}

// A line with the numbers of the lines that it names.
fn line_of(
    alloc: Global,
    bytes: &[u8],
    tokens: &[Token],
    names: &Names,
    draft: LineDraft,
) -> Result<Line, Unresolved>
    requires { AreTokens bytes.now tokens.now }
    ensures resolves { IfOk result (ResolvesLine bytes.now tokens.now names.now draft) }
    ensures lacks { IfErr result (Lacks bytes.now tokens.now names.now (source_mentions draft.source)) }
{
    let name = Text::from_bytes(alloc, spelling_at(bytes, tokens, draft.name))?;
    let source = source_of(alloc, bytes, tokens, names, draft.source)?;
    let sides = sides_of(alloc, draft.body)?;
    Ok(Line {
        name,
        source,
        left: sides.left,
        right: sides.right,
        positive: sides.positive,
    })
}

/// The lines with the numbers of the lines that they name; or the first token that names no line, line by line, in a chain
/// its steps before its parents.
pub(crate) fn resolved(
    alloc: Global,
    bytes: &[u8],
    tokens: &[Token],
    names: &Names,
    drafts: Seq<LineDraft>,
) -> Result<Seq<Line>, Unresolved>
    requires { AreTokens bytes.now tokens.now }
    ensures resolve { IfOk result (ResolveLines bytes.now tokens.now names.now drafts) }
    ensures lacks { IfErr result (Lacks bytes.now tokens.now names.now (lines_mention drafts)) }
{
    let mut lines = Seq::new(alloc);
    for draft in drafts.into_vec() {
        let line = line_of(alloc, bytes, tokens, names, draft)?;
        lines.push(line)?;
    }
    Ok(lines)
}
