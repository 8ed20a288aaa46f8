//! Printing of terms, names and clauses.

ghost use Rattle.std.specs.Prelude.{◌≤◌, length, ◌≡◌, ◌++◌, ◌∷◌, [], IfOk, OnOk, reverse};
ghost use Rattle.uc_term.specs.Table.{IsOf};
ghost use Rattle.uc_clause.specs.Bytes.{is_name};
ghost use Rattle.uc_clause.specs.Marks.{closing, marks_behind, node_text, arguments_of, HasSymbol};
ghost use Rattle.uc_clause.specs.Names.{spelling, quoted, escaped, name_spelling};
ghost use Rattle.uc_term.specs.Tree.{nodes};
ghost use Rattle.uc_term.specs.Variables.{variables, renumbered};
ghost use Rattle.uc_clause.specs.Reading.{ReadsTerm};
ghost use Rattle.uc_clause.specs.Printable.{IsPrintable, IsPrintableClause, ReadsAgain, IsNumbered, AreNumbered, IsNumberedNode};
ghost use Rattle.uc_clause.specs.Printing.{variable_text, term_text, sign_text, equation_text, role_text, clause_text};

use crate::bytes::{is_lower, word_len};
use crate::{Clause, Name, Role};
use itoa::Buffer;
use std::alloc::{AllocError, Global};
use uc_term::{Node, Symbols, Term, Text};

/// A term in the syntax that it is read in: variable `n` is `X` and `n + 1`, names stand bare where they are lower-case
/// words and else in quotes, and there are no spaces. Where a token can spell each name and no symbol has more than 255
/// arguments, the text is read again as the same term with its variables numbered by first occurrence.
pub fn print_term(alloc: Global, term: &Term, symbols: &Symbols) -> Result<Text, AllocError>
    requires { IsOf symbols.now term.now }
    ensures text { IfOk result (λ text. text ≡ term_text symbols.now term.now) }
    ensures read_again { IsPrintable symbols.now term.now → IfOk result (λ text. ReadsTerm text symbols.now (renumbered term.now)) }
{
    let mut out = Text::new(alloc);
    write_term(alloc, &mut out, term, symbols)?;
    Ok(out)
}

/// A clause on one line, without its line feed: `cnf(NAME, ROLE, EQUATION).` with `s = t` or `s != t`. Where a token can
/// spell each name and no symbol has more than 255 arguments, a text of no more than 16,777,216 bytes is read again as the
/// same clause with its variables numbered by first occurrence and the places of the text.
pub fn print_clause(alloc: Global, clause: &Clause, symbols: &Symbols) -> Result<Text, AllocError>
    requires left { IsOf symbols.now clause.now.left }
    requires right { IsOf symbols.now clause.now.right }
    ensures text { IfOk result (λ text. text ≡ clause_text symbols.now clause.now) }
    ensures read_again { IsPrintableClause symbols.now clause.now → IfOk result (λ text. length text ≤ 16777216 → ReadsAgain text symbols.now clause.now) }
{
    let mut out = Text::new(alloc);
    write_clause(alloc, &mut out, clause, symbols)?;
    Ok(out)
}

/// An equation, `s = t`, or its denial, `s != t`.
pub fn print_equation(
    alloc: Global,
    positive: bool,
    left: &Term,
    right: &Term,
    symbols: &Symbols,
) -> Result<Text, AllocError>
    requires left { IsOf symbols.now left.now }
    requires right { IsOf symbols.now right.now }
    ensures { IfOk result (λ text. text ≡ equation_text symbols.now positive left.now right.now) }
{
    let mut out = Text::new(alloc);
    write_term(alloc, &mut out, left, symbols)?;
    out.extend(sign_text(positive))?;
    write_term(alloc, &mut out, right, symbols)?;
    Ok(out)
}

/// The name of a clause: an integer as it was written, any other as a word.
pub fn print_name(alloc: Global, name: &Name) -> Result<Text, AllocError>
    ensures { IfOk result (λ text. text ≡ name_spelling name.now) }
{
    let mut out = Text::new(alloc);
    write_name(&mut out, name)?;
    Ok(out)
}

/// A word: bare where it is a lower-case word, else in single quotes, with a `\` before each `\` and each quote.
pub fn print_word(alloc: Global, word: &[u8]) -> Result<Text, AllocError>
    ensures { IfOk result (λ text. text ≡ spelling word.now) }
{
    let mut out = Text::new(alloc);
    write_word(&mut out, word)?;
    Ok(out)
}

// The word of a role.
fn role_text(role: Role) -> &'static [u8]
    ensures { result.now ≡ role_text role }
{
    match role {
        Role::Axiom => b"axiom",
        Role::Hypothesis => b"hypothesis",
        Role::Definition => b"definition",
        Role::Assumption => b"assumption",
        Role::Lemma => b"lemma",
        Role::Theorem => b"theorem",
        Role::Corollary => b"corollary",
        Role::Plain => b"plain",
        Role::NegatedConjecture => b"negated_conjecture",
    }
}

fn sign_text(positive: bool) -> &'static [u8]
    ensures { result.now ≡ sign_text positive }
{
    if positive { b" = " } else { b" != " }
}

fn write_clause(
    alloc: Global,
    out: &mut Text,
    clause: &Clause,
    symbols: &Symbols,
) -> Result<(), AllocError>
    requires left { IsOf symbols.now clause.now.left }
    requires right { IsOf symbols.now clause.now.right }
    ensures text { OnOk result (out.new ≡ out.old ++ clause_text symbols.now clause.now) }
    ensures left { OnOk result ((nodes clause.now.left ≤ 4096) × AreNumbered (variables clause.now.left)) }
    ensures right { OnOk result ((nodes clause.now.right ≤ 4096) × AreNumbered (variables clause.now.right)) }
{
    out.extend(b"cnf(")?;
    write_name(out, &clause.name)?;
    out.extend(b", ")?;
    out.extend(role_text(clause.role))?;
    out.extend(b", ")?;
    write_term(alloc, out, &clause.left, symbols)?;
    out.extend(sign_text(clause.positive))?;
    write_term(alloc, out, &clause.right, symbols)?;
    out.extend(b").")
}

fn write_name(out: &mut Text, name: &Name) -> Result<(), AllocError>
    ensures { OnOk result (out.new ≡ out.old ++ name_spelling name.now) }
{
    if name.integer {
        out.extend(name.text.as_bytes())
    } else {
        write_word(out, name.text.as_bytes())
    }
}

fn write_word(out: &mut Text, word: &[u8]) -> Result<(), AllocError>
    ensures { OnOk result (out.new ≡ out.old ++ spelling word.now) }
{
    if is_name(word) {
        out.extend(word)
    } else {
        write_quoted(out, word)
    }
}

// Whether the word is a lower-case letter, then letters, digits and `_`.
fn is_name(word: &[u8]) -> bool
    ensures { result ≡ is_name word.now }
{
    match word {
        [b, rest @ ..] => is_lower(*b) && word_len(rest) == rest.len(),
        [] => false,
    }
}

fn write_quoted(out: &mut Text, word: &[u8]) -> Result<(), AllocError>
    ensures { OnOk result (out.new ≡ out.old ++ quoted word.now) }
{
    out.push(b'\'')?;
    for b in word {
        write_escaped(out, *b)?;
    }
    out.push(b'\'')
}

fn write_escaped(out: &mut Text, b: u8) -> Result<(), AllocError>
    ensures { OnOk result (out.new ≡ out.old ++ escaped (b ∷ [])) }
{
    if b == b'\\' || b == b'\'' {
        out.extend(&[b'\\', b])
    } else {
        out.push(b)
    }
}

// It goes once over the nodes, with the number of the arguments that are still to come for each open bracket; so a deep
// term takes no stack.
fn write_term(
    alloc: Global,
    out: &mut Text,
    term: &Term,
    symbols: &Symbols,
) -> Result<(), AllocError>
    requires { IsOf symbols.now term.now }
    ensures text { OnOk result (out.new ≡ out.old ++ term_text symbols.now term.now) }
    ensures small { OnOk result (nodes term.now ≤ 4096) }
    ensures numbered { OnOk result (AreNumbered (variables term.now)) }
{
    let mut pending = Vec::new(alloc);
    let nodes = term.as_nodes();
    for node in nodes {
        write_node(out, *node, symbols)?;
        write_marks(out, arguments_of(*node), &mut pending)?;
    }
    Ok(())
}

fn write_node(out: &mut Text, node: Node, symbols: &Symbols) -> Result<(), AllocError>
    requires { HasSymbol symbols.now node }
    ensures text { OnOk result (out.new ≡ out.old ++ node_text symbols.now node) }
    ensures numbered { OnOk result (IsNumberedNode node) }
{
    match node {
        Node::Var(n) => write_variable(out, n),
        Node::App(f, _) => write_word(out, symbols.name(f)),
    }
}

fn write_variable(out: &mut Text, n: u32) -> Result<(), AllocError>
    ensures text { OnOk result (out.new ≡ out.old ++ variable_text n) }
    ensures numbered { IsNumbered n }
{
    out.push(b'X')?;
    let mut buffer = Buffer::new();
    out.extend(buffer.format(n as u64 + 1).as_bytes())
}

fn arguments_of(node: Node) -> u32
    ensures { result ≡ arguments_of node }
{
    match node {
        Node::Var(_) => 0,
        Node::App(_, arity) => arity,
    }
}

// The marks behind a node with so many arguments. `pending` has the number of the arguments that are still to come for each
// pending bracket, the innermost last.
fn write_marks(out: &mut Text, arguments: u32, pending: &mut Vec<u32>) -> Result<(), AllocError>
    ensures text { OnOk result (out.new ≡ out.old ++ (marks_behind arguments (reverse pending.old.items)).text) }
    ensures pending { OnOk result (reverse pending.new.items ≡ (marks_behind arguments (reverse pending.old.items)).pending) }
{
    if arguments == 0 {
        return write_closing(out, pending);
    }
    out.push(b'(')?;
    pending.push(arguments - 1)?;
    Ok(())
}

// The marks behind a whole term.
fn write_closing(out: &mut Text, pending: &mut Vec<u32>) -> Result<(), AllocError>
    ensures text { OnOk result (out.new ≡ out.old ++ (closing (reverse pending.old.items)).text) }
    ensures pending { OnOk result (reverse pending.new.items ≡ (closing (reverse pending.old.items)).pending) }
{
    while let Some(left) = pending.pop() {
        if left > 0 {
            out.push(b',')?;
            pending.push(left - 1)?;
            return Ok(());
        }
        out.push(b')')?;
    }
    Ok(())
}
