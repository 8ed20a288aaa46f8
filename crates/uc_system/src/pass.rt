//! Going over the tokens of a printed term of any size, without a `Term`.

ghost use Rattle.std.specs.Prelude.{◌≡◌, ◌<◌, ◌≤◌, ◌+◌, ◌^◌, ◌++◌, ◌∷◌, length, reverse, decimal, IfOk, OnOk, MatchBool};
ghost use Rattle.std.specs.List.{list_any};
ghost use Rattle.uc_term.specs.Table.{Has};
ghost use Rattle.uc_term.specs.Signatures.{same_symbol};
ghost use Rattle.uc_clause.specs.Names.{spelling};
ghost use Rattle.uc_clause.specs.Tokens.{AreTokens};
ghost use Rattle.uc_clause.specs.Terms.{head_at};
ghost use Rattle.uc_clause.specs.Terminals.{terminal_at, bytes_at, word_at};
ghost use Rattle.uc_order.specs.Members.{Each};
ghost use Rattle.uc_system.specs.Passing.{state_of, start, IsNext, IsNear, IsWhole, EndsAt, number_of, numbered, is_symbol, on_variable, behind_constant, on_functor, in_functor, on_head, on_comma, on_close, behind, step};

use crate::numerals::number;
use indexmap::IndexSet;
use itoa::Buffer;
use std::alloc::{AllocError, Global};
use uc_clause::{Terminal, Token, print_word, spelling_at, stands_at, terminal_at, word_at};
use uc_term::{Sym, Symbols, Text};

/// The most arguments of a symbol.
const MAX_ARITY: u32 = 255;

/// A functor whose bracket is open: the number of its token, and of the present argument.
#[derive(Clone, Copy, Debug)]
pub(crate) struct Pending {
    functor: usize,
    arguments: u32,
}

/// What is kept of a term at a token.
#[derive(Drop)]
pub(crate) struct Pass {
    /// The next token.
    pub(crate) at: usize,
    /// Whether a subterm ends before it; if not, a term is called for.
    behind_term: bool,
    /// The functors whose brackets are open, the innermost last.
    pending: Vec<Pending>,
    /// How many variables are seen.
    pub(crate) seen: usize,
    /// How many nodes.
    pub(crate) nodes: usize,
    /// The text so far, as it is printed.
    pub(crate) again: Text,
}

impl Pass {
    /// Goes over the term that begins at a token, behind so many variables: what is kept of it at its end; none where the tokens
    /// are no term of these symbols with variables in order.
    pub(crate) fn over(
        alloc: Global,
        text: &[u8],
        tokens: &[Token],
        from: usize,
        seen: usize,
        known: &IndexSet<Sym>,
        symbols: &Symbols,
    ) -> Result<Option<Pass>, AllocError>
        requires tokens { AreTokens text.now tokens.now }
        requires few { length tokens.now < 2 ^ 31 }
        requires known { Each (Has symbols.now) known.now.keys }
        requires within { from ≤ length tokens.now }
        requires seen { seen ≤ from }
        ensures ends { IfOk result (EndsAt symbols.now known.now.keys text.now tokens.now (start from seen)) }
        ensures near { IfOk result (IsNear (length tokens.now)) }
    {
        let mut pass = Pass::start(alloc, from, seen);
        'steps: while !pass.is_whole() {
            if pass.at >= tokens.len() {
                return Ok(None);
            }
            if !pass.step(alloc, text, tokens, known, symbols)? {
                return Ok(None);
            }
        }
        Ok(Some(pass))
    }

    fn start(alloc: Global, from: usize, seen: usize) -> Pass
        ensures { state_of result ≡ start from seen }
    {
        Pass {
            at: from,
            behind_term: false,
            pending: Vec::new(alloc),
            seen,
            nodes: 0,
            again: Text::new(alloc),
        }
    }

    // Whether a whole term is read.
    fn is_whole(&self) -> bool
        ensures { MatchBool result (IsWhole (state_of self.now)) (IsWhole (state_of self.now) → ⊥) }
    {
        self.behind_term && self.pending.is_empty()
    }

    // Goes on by one token, or by a functor and its bracket, if that is called for.
    fn step(
        &mut self,
        alloc: Global,
        text: &[u8],
        tokens: &[Token],
        known: &IndexSet<Sym>,
        symbols: &Symbols,
    ) -> Result<bool, AllocError>
        requires tokens { AreTokens text.now tokens.now }
        requires few { length tokens.now < 2 ^ 31 }
        requires known { Each (Has symbols.now) known.now.keys }
        requires inside { self.old.at < length tokens.now }
        requires nodes { self.old.nodes ≤ self.old.at }
        requires seen { self.old.seen ≤ self.old.at }
        ensures { IfOk result (λ goes. IsNext (step symbols.now known.now.keys text.now tokens.now (state_of self.old)) goes self.new) }
    {
        if self.behind_term {
            self.behind(alloc, text, tokens, known, symbols)
        } else {
            self.begin(alloc, text, tokens, known, symbols)
        }
    }

    // Goes on where a term is called for.
    fn begin(
        &mut self,
        alloc: Global,
        text: &[u8],
        tokens: &[Token],
        known: &IndexSet<Sym>,
        symbols: &Symbols,
    ) -> Result<bool, AllocError>
        requires tokens { AreTokens text.now tokens.now }
        requires few { length tokens.now < 2 ^ 31 }
        requires known { Each (Has symbols.now) known.now.keys }
        requires inside { self.old.at < length tokens.now }
        requires nodes { self.old.nodes ≤ self.old.at }
        requires seen { self.old.seen ≤ self.old.at }
        ensures { IfOk result (λ goes. IsNext (on_head symbols.now known.now.keys text.now tokens.now (state_of self.old) (head_at text.now tokens.now self.old.at)) goes self.new) }
    {
        match terminal_at(text, tokens, self.at) {
            Terminal::Upper => self.pass_variable(text, tokens),
            Terminal::Lower => self.pass_functor(alloc, text, tokens, known, symbols),
            Terminal::Quoted => self.pass_functor(alloc, text, tokens, known, symbols),
            _ => Ok(false),
        }
    }

    fn pass_variable(&mut self, text: &[u8], tokens: &[Token]) -> Result<bool, AllocError>
        requires tokens { AreTokens text.now tokens.now }
        requires few { self.old.at < 2 ^ 31 }
        requires nodes { self.old.nodes ≤ self.old.at }
        requires seen { self.old.seen ≤ self.old.at }
        ensures { IfOk result (λ goes. IsNext (on_variable (state_of self.old) (number_of (bytes_at text.now tokens.now self.old.at))) goes self.new) }
    {
        let Some(n) = number_of(spelling_at(text, tokens, self.at), self.seen) else {
            return Ok(false);
        };
        write_variable(&mut self.again, n)?;
        self.seen = self.seen.max(n);
        self.nodes += 1;
        self.at += 1;
        self.behind_term = true;
        Ok(true)
    }

    // Goes on at a functor, which is a constant where no bracket follows.
    fn pass_functor(
        &mut self,
        alloc: Global,
        text: &[u8],
        tokens: &[Token],
        known: &IndexSet<Sym>,
        symbols: &Symbols,
    ) -> Result<bool, AllocError>
        requires tokens { AreTokens text.now tokens.now }
        requires few { length tokens.now < 2 ^ 31 }
        requires known { Each (Has symbols.now) known.now.keys }
        requires inside { self.old.at < length tokens.now }
        requires nodes { self.old.nodes ≤ self.old.at }
        ensures { IfOk result (λ goes. IsNext (on_functor symbols.now known.now.keys text.now tokens.now (state_of self.old) (terminal_at text.now tokens.now (self.old.at + 1))) goes self.new) }
    {
        let word = word_at(alloc, text, tokens, self.at)?;
        if stands_at(text, tokens, self.at + 1, Terminal::Open) {
            self.enter_functor(alloc, word.as_bytes())?;
            return Ok(true);
        }
        if !is_symbol(word.as_bytes(), 0, known, symbols) {
            return Ok(false);
        }
        self.pass_constant(alloc, word.as_bytes())?;
        Ok(true)
    }

    fn enter_functor(&mut self, alloc: Global, word: &[u8]) -> Result<(), AllocError>
        requires few { self.old.at < 2 ^ 31 }
        requires nodes { self.old.nodes ≤ self.old.at }
        ensures { OnOk result (state_of self.new ≡ in_functor word.now (state_of self.old)) }
    {
        write_word(alloc, &mut self.again, word)?;
        self.again.push(b'(')?;
        self.pending.push(Pending {
            functor: self.at,
            arguments: 1,
        })?;
        self.nodes += 1;
        self.at += 2;
        Ok(())
    }

    fn pass_constant(&mut self, alloc: Global, word: &[u8]) -> Result<(), AllocError>
        requires few { self.old.at < 2 ^ 31 }
        requires nodes { self.old.nodes ≤ self.old.at }
        ensures { OnOk result (state_of self.new ≡ behind_constant word.now (state_of self.old)) }
    {
        write_word(alloc, &mut self.again, word)?;
        self.nodes += 1;
        self.at += 1;
        self.behind_term = true;
        Ok(())
    }

    // Goes on where a subterm ends.
    fn behind(
        &mut self,
        alloc: Global,
        text: &[u8],
        tokens: &[Token],
        known: &IndexSet<Sym>,
        symbols: &Symbols,
    ) -> Result<bool, AllocError>
        requires tokens { AreTokens text.now tokens.now }
        requires known { Each (Has symbols.now) known.now.keys }
        requires few { self.old.at < 2 ^ 31 }
        ensures { IfOk result (λ goes. IsNext (behind symbols.now known.now.keys text.now tokens.now (state_of self.old) (reverse self.old.pending.items)) goes self.new) }
    {
        let Some(top) = self.pending.pop() else {
            return Ok(false);
        };
        match terminal_at(text, tokens, self.at) {
            Terminal::Comma => self.pass_comma(top),
            Terminal::Close => self.pass_close(alloc, text, tokens, top, known, symbols),
            _ => Ok(false),
        }
    }

    fn pass_comma(&mut self, top: Pending) -> Result<bool, AllocError>
        requires few { self.old.at < 2 ^ 31 }
        ensures { IfOk result (λ goes. IsNext (on_comma (state_of self.old) top (reverse self.old.pending.items)) goes self.new) }
    {
        if top.arguments >= MAX_ARITY {
            return Ok(false);
        }
        self.again.push(b',')?;
        self.pending.push(Pending {
            functor: top.functor,
            arguments: top.arguments + 1,
        })?;
        self.at += 1;
        self.behind_term = false;
        Ok(true)
    }

    fn pass_close(
        &mut self,
        alloc: Global,
        text: &[u8],
        tokens: &[Token],
        top: Pending,
        known: &IndexSet<Sym>,
        symbols: &Symbols,
    ) -> Result<bool, AllocError>
        requires tokens { AreTokens text.now tokens.now }
        requires known { Each (Has symbols.now) known.now.keys }
        requires few { self.old.at < 2 ^ 31 }
        ensures { IfOk result (λ goes. IsNext (on_close symbols.now known.now.keys text.now tokens.now (state_of self.old) top (reverse self.old.pending.items)) goes self.new) }
    {
        let word = named_at(alloc, text, tokens, top.functor)?;
        if !is_symbol(word.as_bytes(), top.arguments, known, symbols) {
            return Ok(false);
        }
        self.again.push(b')')?;
        self.at += 1;
        Ok(true)
    }
}

// The word that the token of this number stands for, none behind the last one.
fn named_at(alloc: Global, text: &[u8], tokens: &[Token], at: usize) -> Result<Text, AllocError>
    requires { AreTokens text.now tokens.now }
    ensures { IfOk result (λ word. word ≡ word_at text.now tokens.now at) }
{
    if at < tokens.len() {
        word_at(alloc, text, tokens, at)
    } else {
        Ok(Text::new(alloc))
    }
}

// Whether one of these symbols has this name and so many arguments.
fn is_symbol(name: &[u8], arguments: u32, known: &IndexSet<Sym>, symbols: &Symbols) -> bool
    requires { Each (Has symbols.now) known.now.keys }
    ensures { result ≡ is_symbol symbols.now known.now.keys name.now arguments }
{
    // The entries of the table are all different, so the symbol that is found is the only one.
    let _ = symbols.len();
    match symbols.find(name, arguments) {
        Some(f) => is_known(f, known),
        None => false,
    }
}

fn is_known(f: Sym, known: &IndexSet<Sym>) -> bool
    ensures { result ≡ list_any (same_symbol f) known.now.keys }
{
    known.contains(&f)
}

// The number of a variable that is spelled so, where it is one of those so far or the next one.
fn number_of(bytes: &[u8], seen: usize) -> Option<usize>
    requires { seen < 2 ^ 31 }
    ensures { result ≡ numbered seen (number_of bytes.now) }
{
    let [_, digits @ ..] = bytes else {
        return None;
    };
    let n = number(digits)? as usize;
    if n >= 1 && n <= seen + 1 {
        Some(n)
    } else {
        None
    }
}

// Prints variable n - 1.
fn write_variable(out: &mut Text, n: usize) -> Result<(), AllocError>
    ensures { OnOk result (out.new ≡ out.old ++ 88 ∷ decimal n) }
{
    out.push(b'X')?;
    let mut buffer = Buffer::new();
    out.extend(buffer.format(n).as_bytes())
}

fn write_word(alloc: Global, out: &mut Text, word: &[u8]) -> Result<(), AllocError>
    ensures { OnOk result (out.new ≡ out.old ++ spelling word.now) }
{
    let spelled = print_word(alloc, word)?;
    out.extend(spelled.as_bytes())
}
