//! The lines of a proof.

ghost use Rattle.std.specs.Prelude.{◌≡◌, ◌≢◌, ◌<◌, ◌^◌, [], false, length, bytes_eq, IfOk, IfErr};
ghost use Rattle.std.specs.List.{list_any};
ghost use Rattle.uc_term.specs.Table.{Grows};
ghost use Rattle.uc_clause.specs.Tokens.{AreTokens};
ghost use Rattle.uc_clause.specs.Terminals.{terminal_at, bytes_at};
ghost use Rattle.uc_clause.specs.Rules.{Outcome, read, Stops};
ghost use Rattle.uc_tstp.specs.Parse.{Body, Line};
ghost use Rattle.uc_tstp.specs.Lines as rules;
ghost use Rattle.uc_tstp.specs.Drafts.{sort_of, ReadsLineAt, AreLines};
ghost use Rattle.uc_tstp.specs.Parts as parts;
ghost use Rattle.uc_tstp.specs.Parts.{ReadsSourceBy, ReadsContentsAt, TakesLine};

use crate::Scope;
use crate::bodies::body_at;
use crate::drafts::{LineDraft, Sort, SourceDraft};
use crate::names::Names;
use crate::sources::source_at;
use crate::words::{expect, lower, word};
use std::alloc::Global;
use uc_clause::{Stop, Terminal, Token, Variables, Why, spelling_at, stands_at};
use uc_term::{Seq, Symbols};

// Reads the name of a line, which no earlier line has: the number of its token, and of the token behind it.
fn line_name(
    bytes: &[u8],
    tokens: &[Token],
    at: usize,
    names: &Names,
) -> Result<(usize, usize), Stop>
    requires { AreTokens bytes.now tokens.now }
    ensures reads { IfOk result (λ r. rules.LineName bytes.now tokens.now names.now at (read r.0 r.1)) }
    ensures stops { IfErr result (Stops (rules.LineName bytes.now tokens.now names.now at)) }
{
    if !stands_at(bytes, tokens, at, Terminal::Lower) {
        return Err(Stop::At(Why::NoToken, at));
    }
    if names.contains(spelling_at(bytes, tokens, at)) {
        return Err(Stop::At(Why::Repeated, at));
    }
    Ok((at, at + 1))
}

// Reads `cnf ( name , role ,`: the number of the name's token, and of the token behind the last comma.
fn heading_at(
    bytes: &[u8],
    tokens: &[Token],
    from: usize,
    names: &Names,
) -> Result<(usize, usize), Stop>
    requires { AreTokens bytes.now tokens.now }
    ensures leads { IfOk result (λ r. (outcome : Outcome Line) → rules.rest_of_line bytes.now tokens.now r.0 r.1 outcome → rules.line bytes.now tokens.now names.now from outcome) }
    ensures new { IfOk result (λ r. list_any (bytes_eq (bytes_at bytes.now tokens.now r.0)) names.now ≡ false) }
    ensures stops { IfErr result (Stops (rules.line bytes.now tokens.now names.now from)) }
{
    let at = word(bytes, tokens, from, b"cnf")?;
    let at = expect(bytes, tokens, at, Terminal::Open)?;
    let (name, at) = line_name(bytes, tokens, at, names)?;
    let at = expect(bytes, tokens, at, Terminal::Comma)?;
    let (_, at) = lower(bytes, tokens, at)?;
    let end = expect(bytes, tokens, at, Terminal::Comma)?;
    Ok((name, end))
}

// Reads the comma behind a body of this sort that begins at its first token, and the source behind the comma.
fn comma_source(
    alloc: Global,
    bytes: &[u8],
    tokens: &[Token],
    sort: Sort,
    first: usize,
    from: usize,
    variables: &mut Variables,
    symbols: &mut Symbols,
) -> Result<(SourceDraft, usize), Stop>
    requires { AreTokens bytes.now tokens.now }
    ensures reads { IfOk result (λ r. (b : Body) → sort_of b ≡ sort → ReadsSourceBy bytes.now tokens.now (parts.comma_source bytes.now tokens.now b first) from r.1 variables.old variables.new symbols.old symbols.new r.0) }
    ensures stops { IfErr result (λ e. (b : Body) → sort_of b ≡ sort → Stops (parts.comma_source bytes.now tokens.now b first from) e) }
    ensures grows { Grows symbols.old symbols.new }
{
    let at = expect(bytes, tokens, from, Terminal::Comma)?;
    source_at(alloc, bytes, tokens, sort, first, at, variables, symbols)
}

// Reads the body and the source of the line of this name. The variables of both are numbered together.
fn contents_at(
    alloc: Global,
    bytes: &[u8],
    tokens: &[Token],
    name: usize,
    first: usize,
    symbols: &mut Symbols,
) -> Result<(LineDraft, usize), Stop>
    requires { AreTokens bytes.now tokens.now }
    ensures reads { IfOk result (λ r. ReadsContentsAt bytes.now tokens.now name first r.1 symbols.old symbols.new r.0) }
    ensures stops { IfErr result (Stops (rules.rest_of_line bytes.now tokens.now name first)) }
    ensures grows { Grows symbols.old symbols.new }
{
    let mut variables = Variables::new(alloc);
    let (body, at) = body_at(alloc, bytes, tokens, first, &mut variables, symbols)?;
    let sort = body.sort();
    let (source, end) = comma_source(
        alloc,
        bytes,
        tokens,
        sort,
        first,
        at,
        &mut variables,
        symbols,
    )?;
    Ok((LineDraft { name, body, source }, end))
}

// Reads `) .`, and answers the number of the token behind it.
fn line_end(bytes: &[u8], tokens: &[Token], from: usize) -> Result<usize, Stop>
    ensures ok { IfOk result (λ end. parts.line_end bytes.now tokens.now from (read tt end)) }
    ensures stops { IfErr result (Stops (parts.line_end bytes.now tokens.now from)) }
{
    let at = expect(bytes, tokens, from, Terminal::Close)?;
    expect(bytes, tokens, at, Terminal::Dot)
}

// Reads a line behind lines of these names.
fn line_at(
    alloc: Global,
    bytes: &[u8],
    tokens: &[Token],
    from: usize,
    names: &Names,
    symbols: &mut Symbols,
) -> Result<(LineDraft, usize), Stop>
    requires { AreTokens bytes.now tokens.now }
    ensures reads { IfOk result (λ r. ReadsLineAt bytes.now tokens.now names.now from r.1 symbols.old symbols.new r.0) }
    ensures new { IfOk result (λ r. list_any (bytes_eq (bytes_at bytes.now tokens.now r.0.name)) names.now ≡ false) }
    ensures stops { IfErr result (Stops (rules.line bytes.now tokens.now names.now from)) }
    ensures grows { Grows symbols.old symbols.new }
{
    let (name, first) = heading_at(bytes, tokens, from, names)?;
    let (draft, at) = contents_at(alloc, bytes, tokens, name, first, symbols)?;
    let end = line_end(bytes, tokens, at)?;
    Ok((draft, end))
}

/// The lines read so far: their names, and their drafts.
#[derive(Drop)]
struct LinesRead {
    names: Names,
    drafts: Seq<LineDraft>,
}

impl LinesRead {
    // Reads one line more, and answers the number of the token behind it.
    fn take_line(
        &mut self,
        alloc: Global,
        bytes: &[u8],
        tokens: &[Token],
        at: usize,
        which: Scope,
        symbols: &mut Symbols,
    ) -> Result<usize, Stop>
        requires tokens { AreTokens bytes.now tokens.now }
        requires more { terminal_at bytes.now tokens.now at ≢ Terminal.End }
        ensures takes { IfOk result (λ end. TakesLine bytes.now tokens.now which at end symbols.old symbols.new self.old.names self.old.drafts self.new.names self.new.drafts) }
        ensures few { IfOk result (λ _. length self.new.names < 2 ^ 31) }
        ensures stops { IfErr result (Stops (rules.LinesAt bytes.now tokens.now which self.old.names at)) }
        ensures grows { Grows symbols.old symbols.new }
    {
        let (draft, end) = line_at(alloc, bytes, tokens, at, &self.names, symbols)?;
        if !draft.source.belongs(which) {
            return Err(Stop::At(Why::NoToken, at));
        }
        self.names
            .insert(alloc, spelling_at(bytes, tokens, draft.name))?;
        self.drafts.push(draft)?;
        Ok(end)
    }
}

/// Reads lines up to the end of the tokens: their names, and their drafts.
pub(crate) fn lines_in(
    alloc: Global,
    bytes: &[u8],
    tokens: &[Token],
    which: Scope,
    symbols: &mut Symbols,
) -> Result<(Names, Seq<LineDraft>), Stop>
    requires { AreTokens bytes.now tokens.now }
    ensures reads { IfOk result (λ r. AreLines bytes.now tokens.now which symbols.old symbols.new r.0 r.1) }
    ensures few { IfOk result (λ r. length r.1 < 2 ^ 31) }
    ensures stops { IfErr result (Stops (rules.LinesAt bytes.now tokens.now which [] 0)) }
    ensures grows { Grows symbols.old symbols.new }
{
    let mut read = LinesRead {
        names: Names::new(alloc),
        drafts: Seq::new(alloc),
    };
    let mut at = 0;
    'lines: while !stands_at(bytes, tokens, at, Terminal::End) {
        at = read.take_line(alloc, bytes, tokens, at, which, symbols)?;
    }
    Ok((read.names, read.drafts))
}
