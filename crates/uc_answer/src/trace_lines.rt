//! The lines of a book's history.

ghost use Rattle.std.specs.Prelude.{◌≡◌, ◌++◌, decimal, IfOk, OnOk};
ghost use Rattle.uc_machine.specs.declared.event.Happening.TheVariants.{CommitMeet};
ghost use Rattle.uc_answer.specs.Lines.{joined};
ghost use Rattle.uc_answer.specs.TraceLines.{named, draw_text, goal_text, event_text, event_line, event_lines, share_text, share_lines, end_word, ending_word};

use crate::chaining::write_number;
use itoa::Buffer;
use std::alloc::{AllocError, Global};
use uc_machine::{Ending, Event, GoalEnd, Happening};
use uc_term::{Seq, Text};

/// A number in decimal digits.
pub(crate) fn write_count(out: &mut Text, number: u64) -> Result<(), AllocError>
    ensures { OnOk result (out.new ≡ out.old ++ decimal number) }
{
    let mut buffer = Buffer::new();
    out.extend(buffer.format(number).as_bytes())
}

/// The lines of the events, and of how many commits each worker made, from worker 0 on.
pub(crate) fn trace_lines(
    alloc: Global,
    history: &[Event],
    shares: &[u64],
) -> Result<Seq<Text>, AllocError>
    ensures { IfOk result (λ lines. joined lines ≡ event_lines 1 history.now ++ share_lines 0 shares.now) }
{
    let mut lines = event_lines(alloc, history)?;
    lines.append(share_lines(alloc, shares)?)?;
    Ok(lines)
}

/// The lines of the events.
fn event_lines(alloc: Global, history: &[Event]) -> Result<Seq<Text>, AllocError>
    ensures { IfOk result (λ lines. joined lines ≡ event_lines 1 history.now) }
{
    let mut lines = Seq::new(alloc);
    for (number, event) in history.iter().enumerate() {
        lines.push(event_line(alloc, number as u64 + 1, *event)?)?;
    }
    Ok(lines)
}

/// The lines of how many commits each worker made.
fn share_lines(alloc: Global, shares: &[u64]) -> Result<Seq<Text>, AllocError>
    ensures { IfOk result (λ lines. joined lines ≡ share_lines 0 shares.now) }
{
    let mut lines = Seq::new(alloc);
    for (worker, commits) in shares.iter().enumerate() {
        lines.push(share_line(alloc, worker as u64, *commits)?)?;
    }
    Ok(lines)
}

/// The line of an event of this number.
fn event_line(alloc: Global, number: u64, event: Event) -> Result<Text, AllocError>
    ensures { IfOk result (λ text. text ≡ event_line number event) }
{
    let mut line = Text::from_bytes(alloc, b"% ")?;
    write_count(&mut line, number)?;
    line.extend(b" w")?;
    write_number(&mut line, event.worker)?;
    line.extend(b" ")?;
    write_happening(&mut line, event.what)?;
    line.extend(b"\n")?;
    Ok(line)
}

/// How many commits a worker made.
fn share_line(alloc: Global, worker: u64, commits: u64) -> Result<Text, AllocError>
    ensures { IfOk result (λ text. text ≡ share_text worker commits) }
{
    let mut line = Text::from_bytes(alloc, b"% share w")?;
    write_count(&mut line, worker)?;
    line.extend(b" ")?;
    write_count(&mut line, commits)?;
    line.extend(b"\n")?;
    Ok(line)
}

/// Words with a number behind them.
fn write_named(out: &mut Text, words: &[u8], number: u64) -> Result<(), AllocError>
    ensures { OnOk result (out.new ≡ out.old ++ named words.now number) }
{
    out.extend(words)?;
    out.extend(b" ")?;
    write_count(out, number)
}

/// What happened.
fn write_happening(out: &mut Text, what: Happening) -> Result<(), AllocError>
    ensures { OnOk result (out.new ≡ out.old ++ event_text what) }
{
    match what {
        Happening::DrawGoal { goal, front } => write_draw(out, b"draw goal", goal as u64, front),
        Happening::DrawMore { goal, front } => write_draw(out, b"draw more", goal as u64, front),
        Happening::DrawMeet { fact, front } => write_draw(out, b"draw meet", fact as u64, front),
        Happening::DrawJoin { pair, front } => write_draw(out, b"draw join", pair, front),
        Happening::CommitGoal { goal, steps, end } => {
            write_goal(out, b"commit goal", goal, steps, end)
        }
        Happening::CommitMore { goal, steps, end } => {
            write_goal(out, b"commit more", goal, steps, end)
        }
        Happening::CommitMeet { fact, pairs, kills } => write_meet(out, fact, pairs, kills),
        Happening::CommitJoined { pair } => {
            write_named(out, b"commit join", pair)?;
            out.extend(b" joined")
        }
        Happening::CommitKept { pair, fact } => {
            write_named(out, b"commit join", pair)?;
            write_named(out, b" kept", fact as u64)
        }
        Happening::CommitLate { .. } => out.extend(b"commit late"),
        Happening::Dropped { pair } => write_named(out, b"drop", pair),
        Happening::ReclaimGoal { goal } => write_named(out, b"reclaim goal", goal as u64),
        Happening::ReclaimMore { goal } => write_named(out, b"reclaim more", goal as u64),
        Happening::ReclaimMeet { fact } => write_named(out, b"reclaim meet", fact as u64),
        Happening::ReclaimJoin { pair } => write_named(out, b"reclaim join", pair),
        Happening::AuditKept { fact } => write_named(out, b"audit kept", fact as u64),
        Happening::Close(ending) => {
            out.extend(b"close ")?;
            out.extend(ending_word(ending))
        }
    }
}

/// A task that was drawn, over so many entries.
fn write_draw(out: &mut Text, words: &[u8], number: u64, front: u32) -> Result<(), AllocError>
    ensures { OnOk result (out.new ≡ out.old ++ draw_text words.now number front) }
{
    write_named(out, words, number)?;
    write_named(out, b" front", front as u64)
}

/// The commit of a goal.
fn write_goal(
    out: &mut Text,
    words: &[u8],
    goal: u32,
    steps: u32,
    end: GoalEnd,
) -> Result<(), AllocError>
    ensures { OnOk result (out.new ≡ out.old ++ goal_text words.now goal steps end) }
{
    write_named(out, words, goal as u64)?;
    write_named(out, b" steps", steps as u64)?;
    out.extend(b" ")?;
    out.extend(end_word(end))
}

/// The commit of a meeting.
fn write_meet(out: &mut Text, fact: u32, pairs: u64, kills: u32) -> Result<(), AllocError>
    ensures { OnOk result (out.new ≡ out.old ++ event_text (CommitMeet fact pairs kills)) }
{
    write_named(out, b"commit meet", fact as u64)?;
    write_named(out, b" pairs", pairs)?;
    write_named(out, b" kills", kills as u64)
}

/// The word for how the normalising of a goal ended.
fn end_word(end: GoalEnd) -> &'static [u8]
    ensures { result.now ≡ end_word end }
{
    match end {
        GoalEnd::Met => b"met",
        GoalEnd::Full => b"full",
        GoalEnd::Steps => b"steps",
        GoalEnd::Size => b"size",
    }
}

/// The word for the kind of a verdict.
fn ending_word(ending: Ending) -> &'static [u8]
    ensures { result.now ≡ ending_word ending }
{
    match ending {
        Ending::Proved => b"proved",
        Ending::Saturated => b"saturated",
        Ending::Budget => b"budget",
        Ending::Pairs => b"pairs",
        Ending::Size => b"size",
    }
}
