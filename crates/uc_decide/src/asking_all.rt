//! Several questions about ground terms, shared out among workers.

ghost use Rattle.std.specs.Prelude.{ℕ, ◌≡◌, List, length, vec_len, slice_index_or, ◌-◌, ◌<◌, ◌≤◌, ◌^◌, IfOk};
ghost use Rattle.std.specs.Vec.Iter.{into_iter_items};
ghost use Rattle.uc_term.specs.declared.equation.Equation.{Equation};
ghost use Rattle.uc_fact.specs.Live.{numbered};
ghost use Rattle.uc_fact.specs.Ground.{AreOfSignature};
ghost use Rattle.uc_order.specs.Laws.{HasSym};
ghost use Rattle.uc_decide.specs.Deciding.{Decides};
ghost use Rattle.uc_decide.specs.AskingAll.{AreReplies, AreGroundQuestions, AreRight, share_of};

use crate::Reply;
use crate::asking::ask;
use std::alloc::{AllocError, Global};
use std::collections::VecDeque;
use std::thread;
use std::thread::Threads;
use std::vec::IntoIter;
use uc_edge::Gate;
use uc_fact::System;
use uc_order::Order;
use uc_term::{Seq, Term};

/// The replies of a worker to its questions, in order, or a refusal of memory.
type Hand = Result<IntoIter<Reply>, AllocError>;

/// The replies to questions by the facts of a system, in order, each as `ask` gives it with at most so many steps. They are the
/// same for every number of workers.
///
/// With two or more workers question `k`, from 0, belongs to worker `k mod workers + 1`, which passes the gate with its number
/// and the ticket `k` before it answers, each in a thread of its own where one can be made. One worker is the calling thread,
/// which passes no gate. `AllocError` comes where any worker's memory is refused.
pub fn ask_all<O: Order + Sync, G: Gate + Sync, R: Threads + Sync>(
    rt: &R,
    alloc: Global,
    system: &System,
    order: &O,
    questions: &[(Term, Term)],
    steps: u32,
    workers: u32,
    gate: &G,
) -> Result<Seq<Reply>, AllocError>
    requires few { length system.now.facts < 2 ^ 31 }
    requires some_workers { 1 ≤ workers }
    requires few_workers { workers ≤ 64 }
    ensures replies { IfOk result (AreReplies (O.meaning order.now) (numbered system.now.facts) steps questions.now) }
    // what follows for questions of ground terms, by a system that decides what follows from axioms
    ensures right { IfOk result (λ replies. (axioms : List Equation) → Decides (O.meaning order.now) system.now.facts axioms → AreGroundQuestions (O.meaning order.now) questions.now → AreOfSignature (HasSym (O.meaning order.now)) (O.meaning order.now).arity system.now.facts → AreRight (O.meaning order.now) axioms questions.now replies) }
{
    if workers == 1 {
        ask_alone(alloc, system, order, questions, steps)
    } else {
        // Makes no thread for a worker to whom no question belongs.
        let workers = questions.len().min(workers as usize).max(1);
        ask_together(rt, alloc, system, order, questions, steps, workers, gate)
    }
}

/// The replies, given one after another on the calling thread.
fn ask_alone<O: Order>(
    alloc: Global,
    system: &System,
    order: &O,
    questions: &[(Term, Term)],
    steps: u32,
) -> Result<Seq<Reply>, AllocError>
    requires few { length system.now.facts < 2 ^ 31 }
    ensures { IfOk result (AreReplies (O.meaning order.now) (numbered system.now.facts) steps questions.now) }
{
    let mut replies = Seq::new(alloc);
    for question in questions {
        replies.push(ask(alloc, system, order, &question.0, &question.1, steps)?)?;
    }
    Ok(replies)
}

/// The replies by several workers at once. They are gathered in the order of the questions: the worker in front has the next
/// one, and then goes to the end.
fn ask_together<O: Order + Sync, G: Gate + Sync, R: Threads + Sync>(
    rt: &R,
    alloc: Global,
    system: &System,
    order: &O,
    questions: &[(Term, Term)],
    steps: u32,
    workers: usize,
    gate: &G,
) -> Result<Seq<Reply>, AllocError>
    requires few { length system.now.facts < 2 ^ 31 }
    requires some_workers { 1 ≤ workers }
    requires few_workers { workers ≤ 64 }
    ensures { IfOk result (AreReplies (O.meaning order.now) (numbered system.now.facts) steps questions.now) }
{
    let hands = all_hands(rt, alloc, system, order, questions, steps, workers, gate)?;
    let mut hands = VecDeque::from(hands);
    let mut replies = Seq::new(alloc);
    while let Some(hand) = hands.pop_front() {
        let mut hand = hand?;
        let Some(reply) = hand.next() else {
            return Ok(replies);
        };
        replies.push(reply)?;
        hands.push_back(Ok(hand))?;
    }
    Ok(replies)
}

/// What each of so many workers answers, at once where there are threads.
fn all_hands<O: Order + Sync, G: Gate + Sync, R: Threads + Sync>(
    rt: &R,
    alloc: Global,
    system: &System,
    order: &O,
    questions: &[(Term, Term)],
    steps: u32,
    workers: usize,
    gate: &G,
) -> Result<Vec<Hand>, AllocError>
    requires few { length system.now.facts < 2 ^ 31 }
    requires few_workers { workers ≤ 64 }
    ensures len { IfOk result (λ hands. vec_len hands ≡ workers) }
    ensures each { IfOk result (λ hands. (place : ℕ) (d : _) → place < workers → IfOk (slice_index_or hands.items place d) (λ hand. AreReplies (O.meaning order.now) (numbered system.now.facts) steps (share_of (workers - 1) place questions.now) (into_iter_items hand))) }
{
    thread::map_indices(
        rt,
        alloc,
        workers,
        &|place| hand_at(alloc, place, system, order, questions, steps, workers, gate),
    )
}

/// The replies of the worker at this place among so many to its questions, before each of which it passes the gate.
fn hand_at<O: Order, G: Gate>(
    alloc: Global,
    place: usize,
    system: &System,
    order: &O,
    questions: &[(Term, Term)],
    steps: u32,
    workers: usize,
    gate: &G,
) -> Hand
    requires few { length system.now.facts < 2 ^ 31 }
    requires place { place < workers }
    requires few_workers { workers ≤ 64 }
    ensures { IfOk result (λ hand. AreReplies (O.meaning order.now) (numbered system.now.facts) steps (share_of (workers - 1) place questions.now) (into_iter_items hand)) }
{
    let mut replies = Seq::new(alloc);
    let mut ticket = place;
    while ticket < questions.len() {
        gate.pass(place as u32 + 1, ticket as u64);
        let question = &questions[ticket];
        replies.push(ask(alloc, system, order, &question.0, &question.1, steps)?)?;
        ticket += workers;
    }
    Ok(replies.into_vec().into_iter())
}
