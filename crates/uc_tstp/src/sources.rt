//! Where lines come from.

ghost use Rattle.std.specs.Prelude.{◌≡◌, ◌<◌, IfOk, IfErr, length};
ghost use Rattle.uc_term.specs.Table.{Table, Grows};
ghost use Rattle.uc_clause.specs.Tokens.{AreTokens};
ghost use Rattle.uc_clause.specs.Rules.{read, Stops, Goes};
ghost use Rattle.uc_clause.specs.Meaning.{IsName};
ghost use Rattle.uc_tstp.specs.Parse.{Body, from_file};
ghost use Rattle.uc_tstp.specs.Lines as lines;
ghost use Rattle.uc_tstp.specs.Drafts.{ReadsSourceAt, sort_of};
ghost use Rattle.uc_tstp.specs.Parts.{ReadsSourceBy};

use crate::drafts::{Sort, SourceDraft};
use crate::lists::parents;
use crate::steps::steps;
use crate::words::{Inference, expect, functor, is_word, name, of_goal, rule_word, word};
use std::alloc::{AllocError, Global};
use uc_clause::{Name, Stop, Terminal, Token, Variables, Why, stands_at, term_at, word_at};
use uc_term::{Seq, Symbols};

// Whether a file line may have a body of this sort.
fn fits_file(sort: Sort) -> bool
    ensures { (b : Body) → sort_of b ≡ sort → result ≡ lines.fits_file b }
{
    match sort {
        Sort::Equation => true,
        Sort::Denial => true,
        Sort::Falsum => false,
    }
}

// Whether a line of an inference rule may have a body of this sort.
fn fits_rule(rule: Inference, sort: Sort) -> bool
    ensures { (b : Body) → sort_of b ≡ sort → result ≡ lines.fits_rule rule b }
{
    match rule {
        Inference::Chain => sort == Sort::Equation,
        Inference::Encode => sort == Sort::Equation,
        Inference::Refute => sort == Sort::Falsum,
    }
}

// Goes on where the body fits, or stops at its first token.
fn fitting(fits: bool, first: usize, at: usize) -> Result<usize, Stop>
    ensures { Goes (lines.body_fits fits first at) result }
{
    if fits {
        Ok(at)
    } else {
        Err(Stop::At(Why::NoToken, first))
    }
}

// Reads `file ( functor , name )`, whose value is the number of the name.
fn file_source(
    bytes: &[u8],
    tokens: &[Token],
    sort: Sort,
    first: usize,
    from: usize,
) -> Result<(usize, usize), Stop>
    requires { AreTokens bytes.now tokens.now }
    ensures reads { IfOk result (λ r. (b : Body) → sort_of b ≡ sort → lines.file_source bytes.now tokens.now b first from (read (from_file r.0) r.1)) }
    ensures stops { IfErr result (λ e. (b : Body) → sort_of b ≡ sort → Stops (lines.file_source bytes.now tokens.now b first from) e) }
    ensures within { IfOk result (λ r. r.0 < length tokens.now) }
{
    let at = word(bytes, tokens, from, b"file")?;
    let at = fitting(fits_file(sort), first, at)?;
    let at = expect(bytes, tokens, at, Terminal::Open)?;
    let (_, at) = functor(bytes, tokens, at)?;
    let at = expect(bytes, tokens, at, Terminal::Comma)?;
    let (name, at) = name(bytes, tokens, at)?;
    let end = expect(bytes, tokens, at, Terminal::Close)?;
    Ok((name, end))
}

// The name that a token is.
fn name_of(alloc: Global, bytes: &[u8], tokens: &[Token], at: usize) -> Result<Name, AllocError>
    requires tokens { AreTokens bytes.now tokens.now }
    requires within { at < length tokens.now }
    ensures { IfOk result (IsName bytes.now tokens.now at) }
{
    let text = word_at(alloc, bytes, tokens, at)?;
    Ok(Name {
        text,
        integer: stands_at(bytes, tokens, at, Terminal::Integer),
    })
}

// Reads the parents behind the square brackets of an inference.
fn rest_of_inference(
    alloc: Global,
    bytes: &[u8],
    tokens: &[Token],
    from: usize,
) -> Result<(Seq<usize>, usize), Stop>
    requires { AreTokens bytes.now tokens.now }
    ensures reads { IfOk result (λ r. lines.rest_of_inference bytes.now tokens.now from (read r.0 r.1)) }
    ensures stops { IfErr result (Stops (lines.rest_of_inference bytes.now tokens.now from)) }
{
    let at = expect(bytes, tokens, from, Terminal::Comma)?;
    let (parents, at) = parents(alloc, bytes, tokens, at)?;
    let end = expect(bytes, tokens, at, Terminal::Close)?;
    Ok((parents, end))
}

// Reads what stands in the square brackets of a chain, and behind them.
fn chain_source(
    alloc: Global,
    bytes: &[u8],
    tokens: &[Token],
    from: usize,
    variables: &mut Variables,
    symbols: &mut Symbols,
) -> Result<(SourceDraft, usize), Stop>
    requires { AreTokens bytes.now tokens.now }
    ensures reads { IfOk result (λ r. ReadsSourceBy bytes.now tokens.now (lines.chain_source bytes.now tokens.now) from r.1 variables.old variables.new symbols.old symbols.new r.0) }
    ensures stops { IfErr result (Stops (lines.chain_source bytes.now tokens.now from)) }
    ensures grows { Grows symbols.old symbols.new }
{
    let (start, at) = term_at(alloc, bytes, tokens, from, variables, symbols)?;
    let (steps, at) = steps(alloc, bytes, tokens, at, variables, symbols)?;
    let (parents, end) = rest_of_inference(alloc, bytes, tokens, at)?;
    Ok((
        SourceDraft::Chain {
            start,
            steps,
            parents,
        },
        end,
    ))
}

// Reads what stands in the square brackets of an encode line, and behind them.
fn encode_source(
    alloc: Global,
    bytes: &[u8],
    tokens: &[Token],
    from: usize,
) -> Result<(SourceDraft, usize), Stop>
    requires { AreTokens bytes.now tokens.now }
    ensures reads { IfOk result (λ r. (seen : Variables) (table : Table) → ReadsSourceBy bytes.now tokens.now (lines.encode_source bytes.now tokens.now) from r.1 seen seen table table r.0) }
    ensures stops { IfErr result (Stops (lines.encode_source bytes.now tokens.now from)) }
{
    let (goal, at) = of_goal(bytes, tokens, from)?;
    let at = expect(bytes, tokens, at, Terminal::CloseSquare)?;
    let (parents, end) = rest_of_inference(alloc, bytes, tokens, at)?;
    if goal {
        Ok((SourceDraft::EncodeGoal { parents }, end))
    } else {
        Ok((SourceDraft::Reflexive { parents }, end))
    }
}

// Reads what stands behind the opening square bracket of a refute line.
fn refute_source(
    alloc: Global,
    bytes: &[u8],
    tokens: &[Token],
    from: usize,
) -> Result<(SourceDraft, usize), Stop>
    requires { AreTokens bytes.now tokens.now }
    ensures reads { IfOk result (λ r. (seen : Variables) (table : Table) → ReadsSourceBy bytes.now tokens.now (lines.refute_source bytes.now tokens.now) from r.1 seen seen table table r.0) }
    ensures stops { IfErr result (Stops (lines.refute_source bytes.now tokens.now from)) }
{
    let at = expect(bytes, tokens, from, Terminal::CloseSquare)?;
    let (parents, end) = rest_of_inference(alloc, bytes, tokens, at)?;
    Ok((SourceDraft::Refute { parents }, end))
}

// Reads what stands behind the opening square bracket of an inference by this rule.
fn source_of_rule(
    alloc: Global,
    bytes: &[u8],
    tokens: &[Token],
    rule: Inference,
    from: usize,
    variables: &mut Variables,
    symbols: &mut Symbols,
) -> Result<(SourceDraft, usize), Stop>
    requires { AreTokens bytes.now tokens.now }
    ensures reads { IfOk result (λ r. ReadsSourceBy bytes.now tokens.now (lines.source_of_rule bytes.now tokens.now rule) from r.1 variables.old variables.new symbols.old symbols.new r.0) }
    ensures stops { IfErr result (Stops (lines.source_of_rule bytes.now tokens.now rule from)) }
    ensures grows { Grows symbols.old symbols.new }
{
    match rule {
        Inference::Chain => chain_source(alloc, bytes, tokens, from, variables, symbols),
        Inference::Encode => encode_source(alloc, bytes, tokens, from),
        Inference::Refute => refute_source(alloc, bytes, tokens, from),
    }
}

// Reads an inference behind a body of this sort that begins at its first token.
fn inference_source(
    alloc: Global,
    bytes: &[u8],
    tokens: &[Token],
    sort: Sort,
    first: usize,
    from: usize,
    variables: &mut Variables,
    symbols: &mut Symbols,
) -> Result<(SourceDraft, usize), Stop>
    requires { AreTokens bytes.now tokens.now }
    ensures reads { IfOk result (λ r. (b : Body) → sort_of b ≡ sort → ReadsSourceBy bytes.now tokens.now (lines.inference_source bytes.now tokens.now b first) from r.1 variables.old variables.new symbols.old symbols.new r.0) }
    ensures stops { IfErr result (λ e. (b : Body) → sort_of b ≡ sort → Stops (lines.inference_source bytes.now tokens.now b first from) e) }
    ensures grows { Grows symbols.old symbols.new }
{
    let at = word(bytes, tokens, from, b"inference")?;
    let at = expect(bytes, tokens, at, Terminal::Open)?;
    let (rule, at) = rule_word(bytes, tokens, at)?;
    let at = fitting(fits_rule(rule, sort), first, at)?;
    let at = expect(bytes, tokens, at, Terminal::Comma)?;
    let at = expect(bytes, tokens, at, Terminal::OpenSquare)?;
    source_of_rule(alloc, bytes, tokens, rule, at, variables, symbols)
}

/// Reads the source of a line behind a body of this sort that begins at its first token.
pub(crate) fn source_at(
    alloc: Global,
    bytes: &[u8],
    tokens: &[Token],
    sort: Sort,
    first: usize,
    from: usize,
    variables: &mut Variables,
    symbols: &mut Symbols,
) -> Result<(SourceDraft, usize), Stop>
    requires { AreTokens bytes.now tokens.now }
    ensures reads { IfOk result (λ r. (b : Body) → sort_of b ≡ sort → ReadsSourceAt bytes.now tokens.now b first from r.1 variables.old variables.new symbols.old symbols.new r.0) }
    ensures stops { IfErr result (λ e. (b : Body) → sort_of b ≡ sort → Stops (lines.source bytes.now tokens.now b first from) e) }
    ensures grows { Grows symbols.old symbols.new }
{
    if !is_word(bytes, tokens, from, b"file") {
        return inference_source(alloc, bytes, tokens, sort, first, from, variables, symbols);
    }
    let (name, end) = file_source(bytes, tokens, sort, first, from)?;
    let name = name_of(alloc, bytes, tokens, name)?;
    Ok((SourceDraft::File(name), end))
}
