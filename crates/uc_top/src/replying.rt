//! The replies to questions, as they are answered.

ghost use Rattle.std.specs.Prelude.{◌≡◌, List, IfOk};
ghost use Rattle.uc_term.specs.declared.equation.Equation.{Equation as AnyEquation};
ghost use Rattle.uc_order.specs.Laws.{HasSym};
ghost use Rattle.uc_fact.specs.Ground.{AreOfSignature};
ghost use Rattle.uc_fact.specs.Live.{numbered};
ghost use Rattle.uc_decide.specs.declared.reply.Reply.{Reply as AnyReply};
ghost use Rattle.uc_decide.specs.Deciding.{Decides};
ghost use Rattle.uc_answer.specs.Lines.{joined};
ghost use Rattle.uc_answer.specs.ReplyLines.{AreReplies, replies_status, reply_lines};
ghost use Rattle.uc_answer.specs.RightReplies.{AreGroundQuestions, AreRight};
ghost use Rattle.uc_top.specs.Limits.{WorksWithin};
ghost use Rattle.uc_top.specs.DecideTold.{AreGroundOfTable};

use std::alloc::{AllocError, Global};
use std::thread::Threads;
use uc_answer::{Answer, Question, replies, replies_status, reply_lines};
use uc_edge::Gate;
use uc_fact::System;
use uc_order::Order;
use uc_term::Symbols;
use uc_words::Command;

/// The answer by a system that decides what follows from axioms: a reply to each question, with the command's steps and workers.
pub(crate) fn replied_answer<R: Threads + Sync, O: Order + Sync, G: Gate + Sync>(
    rt: &R,
    alloc: Global,
    command: &Command,
    questions: &[Question],
    symbols: &Symbols,
    order: &O,
    system: &System,
    gate: &G,
) -> Result<Answer, AllocError>
    requires workers { WorksWithin command.now }
    requires over { AreOfSignature (HasSym (O.meaning order.now)) (O.meaning order.now).arity system.now.facts }
    requires ground { AreGroundQuestions (O.meaning order.now) questions.now }
    requires of_table { AreGroundOfTable symbols.now (O.meaning order.now) }
    requires decides { (axioms : List AnyEquation) × Decides (O.meaning order.now) system.now.facts axioms }
    ensures { (axioms : List AnyEquation) → Decides (O.meaning order.now) system.now.facts axioms → IfOk result (λ answer. (replies : List AnyReply) × AreReplies (O.meaning order.now) (numbered system.now.facts) command.now.steps questions.now replies × AreRight (O.meaning order.now) axioms questions.now replies × (answer.status ≡ replies_status replies) × (joined answer.lines ≡ reply_lines symbols.now replies)) }
{
    let replies = replies(
        rt,
        alloc,
        system,
        order,
        questions,
        command.steps,
        command.workers,
        gate,
    )?;
    let lines = reply_lines(alloc, replies.as_slice(), symbols)?;
    Ok(Answer {
        status: replies_status(replies.as_slice()),
        lines,
    })
}
