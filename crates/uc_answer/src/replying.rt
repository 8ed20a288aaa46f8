//! The replies to questions, and their lines.

ghost use Rattle.std.specs.Prelude.{◌≡◌, ◌<◌, ◌≤◌, ◌^◌, ◌++◌, codes, decimal, List, length, IfOk, OnOk, OnErr};
ghost use Rattle.std.specs.List.{list_any};
ghost use Rattle.uc_term.specs.declared.equation.Equation.{Equation as AnyEquation};
ghost use Rattle.uc_term.specs.Table.{IsOf};
ghost use Rattle.uc_order.specs.Laws.{HasSym};
ghost use Rattle.uc_fact.specs.Live.{numbered};
ghost use Rattle.uc_fact.specs.Ground.{AreOfSignature};
ghost use Rattle.uc_clause.specs.Printing.{term_text};
ghost use Rattle.uc_decide.specs.Deciding.{Decides};
ghost use Rattle.uc_decide.specs.declared.reply.Reply.TheVariants as answered;
ghost use Rattle.uc_answer.specs.Lines.{joined};
ghost use Rattle.uc_answer.specs.ReplyLines.{reply_line, reply_lines, is_open, replies_status, IsReplyOf, AreRepliesOf, AreReplies};
ghost use Rattle.uc_answer.specs.RightReplies.{AreGroundQuestions, AreRight};

use crate::answer::{DONE, STOPPED};
use crate::chaining::{term_line, write_number};
use crate::question_word::Question;
use std::alloc::{AllocError, Global};
use std::thread::Threads;
use uc_clause::print_term;
use uc_decide::{Reply, ask_all};
use uc_edge::Gate;
use uc_fact::System;
use uc_order::Order;
use uc_term::{Seq, Symbols, Term, Text};

const MOST_FACTS: usize = 2_147_483_648;

// Refuses a system of facts that can't be numbered, and no other; a search keeps at most 10,000,000 of them.
fn are_few(system: &System) -> Result<(), AllocError>
    ensures few { OnOk result (length system.now.facts < 2 ^ 31) }
    ensures refused { OnErr result (2 ^ 31 ≤ length system.now.facts) }
{
    if system.facts.len() < MOST_FACTS {
        Ok(())
    } else {
        Err(AllocError)
    }
}

/// Returns the replies to questions by a system, each with at most so many steps, given by so many workers.
pub fn replies<O: Order + Sync, G: Gate + Sync, R: Threads + Sync>(
    rt: &R,
    alloc: Global,
    system: &System,
    order: &O,
    questions: &[Question],
    steps: u32,
    workers: u32,
    gate: &G,
) -> Result<Seq<Reply>, AllocError>
    requires some_workers { 1 ≤ workers }
    requires few_workers { workers ≤ 64 }
    ensures replies { IfOk result (AreReplies (O.meaning order.now) (numbered system.now.facts) steps questions.now) }
    // what follows for questions of ground terms, by a system that decides what follows from axioms
    ensures right { IfOk result (λ replies. (axioms : List AnyEquation) → Decides (O.meaning order.now) system.now.facts axioms → AreGroundQuestions (O.meaning order.now) questions.now → AreOfSignature (HasSym (O.meaning order.now)) (O.meaning order.now).arity system.now.facts → AreRight (O.meaning order.now) axioms questions.now replies) }
{
    are_few(system)?;
    ask_all(rt, alloc, system, order, questions, steps, workers, gate)
}

// The line of a reply that two terms have one normal form.
fn equal_line(alloc: Global, term: &Term, symbols: &Symbols) -> Result<Text, AllocError>
    requires { IsOf symbols.now term.now }
    ensures { IfOk result (λ text. text ≡ reply_line symbols.now (answered.Equal term.now)) }
{
    let term = term_line(alloc, term, symbols)?;
    let mut line = Text::from_bytes(alloc, b"equal ")?;
    line.extend(term.as_bytes())?;
    Ok(line)
}

// The line of a reply that they have these two.
fn different_line(
    alloc: Global,
    left: &Term,
    right: &Term,
    symbols: &Symbols,
) -> Result<Text, AllocError>
    requires left { IsOf symbols.now left.now }
    requires right { IsOf symbols.now right.now }
    ensures { IfOk result (λ text. text ≡ reply_line symbols.now (answered.Different left.now right.now)) }
{
    let left = print_term(alloc, left, symbols)?;
    let right = term_line(alloc, right, symbols)?;
    let mut line = Text::from_bytes(alloc, b"different ")?;
    line.extend(left.as_bytes())?;
    line.extend(b" ")?;
    line.extend(right.as_bytes())?;
    Ok(line)
}

// The line of a reply that so many steps are spent.
fn spent_line(alloc: Global, steps: u32) -> Result<Text, AllocError>
    ensures { IfOk result (λ text. text ≡ codes "spent " ++ decimal steps ++ codes "\n") }
{
    let mut line = Text::from_bytes(alloc, b"spent ")?;
    write_number(&mut line, steps)?;
    line.extend(b"\n")?;
    Ok(line)
}

// The line of a reply.
fn reply_line(alloc: Global, reply: &Reply, symbols: &Symbols) -> Result<Text, AllocError>
    requires { IsReplyOf symbols.now reply.now }
    ensures { IfOk result (λ text. text ≡ reply_line symbols.now reply.now) }
{
    match reply {
        Reply::Equal(term) => equal_line(alloc, term, symbols),
        Reply::Different(left, right) => different_line(alloc, left, right, symbols),
        Reply::Spent(steps) => spent_line(alloc, *steps),
        Reply::Grown => Text::from_bytes(alloc, b"grown\n"),
    }
}

/// Returns the lines of replies, in order.
pub fn reply_lines(
    alloc: Global,
    replies: &[Reply],
    symbols: &Symbols,
) -> Result<Seq<Text>, AllocError>
    requires { AreRepliesOf symbols.now replies.now }
    ensures { IfOk result (λ lines. joined lines ≡ reply_lines symbols.now replies.now) }
{
    let mut lines = Seq::new(alloc);
    for reply in replies {
        lines.push(reply_line(alloc, reply, symbols)?)?;
    }
    Ok(lines)
}

// Whether a reply says nothing of its question.
fn is_open(reply: &Reply) -> bool
    ensures { result ≡ is_open reply.now }
{
    match reply {
        Reply::Equal(_) | Reply::Different(_, _) => false,
        Reply::Spent(_) | Reply::Grown => true,
    }
}

// Whether one of the replies says nothing of its question.
fn is_one_open(replies: &[Reply]) -> bool
    ensures { result ≡ list_any is_open replies.now }
{
    replies.iter().any(|reply| is_open(reply))
}

/// Returns the status of an answer with these replies: 2 where one says nothing of its question, else 0.
pub fn replies_status(replies: &[Reply]) -> u8
    ensures { result ≡ replies_status replies.now }
{
    if is_one_open(replies) { STOPPED } else { DONE }
}
