//! Where the lines of a proof stand in a text.

ghost use Rattle.std.specs.Prelude.{◌≡◌, ◌<◌, ◌≤◌, ◌+◌, ◌-◌, ◌^◌, length, take, drop, IfSome, IfOk, Some, true, false, MatchBool};
ghost use Rattle.std.specs.List.{prefix_len};
ghost use Rattle.uc_clause.specs.Bytes.{in_line};
ghost use Rattle.uc_tstp.specs.Framing.{line_length, is_border, FirstLine, IsFrame, is_same_name};

use crate::ProofFault;
use uc_clause::{Place, What, place_behind};

/// The most bytes of a text that is read as a proof.
pub const MAX_PROOF: usize = 268_435_456;

// The words before the name in a start line, and in an end line.
pub(crate) const START: &[u8] = b"% SZS output start CNFRefutation for ";

pub(crate) const END: &[u8] = b"% SZS output end CNFRefutation for ";

/// Where the lines of a proof stand: from the byte behind the start line to the first byte of the end line.
#[derive(Clone, Copy, PartialEq, Eq, Debug)]
pub struct Frame {
    pub from: usize,
    pub to: usize,
}

/// A line of a text: the number of its first byte, and that of its line feed.
#[derive(Clone, Copy, Debug)]
pub(crate) struct Span {
    first: usize,
    feed: usize,
}

/// The two lines between which a proof stands.
#[derive(Clone, Copy, Debug)]
pub(crate) enum Border {
    Start,
    End,
}

// How many bytes stand before the first line feed, or before the end.
fn line_len(text: &[u8]) -> usize
    ensures longest { result ≡ prefix_len in_line text.now }
    ensures within { result ≤ length text.now }
{
    text.iter().take_while(|byte| **byte != b'\n').count()
}

// The length of the first line without its line feed.
fn line_length(text: &[u8]) -> Option<usize>
    ensures value { result ≡ line_length text.now }
    ensures within { IfSome result (λ n. n < length text.now) }
{
    let n = line_len(text);
    if n < text.len() { Some(n) } else { None }
}

// Whether a line without its line feed is a start line, or an end line.
fn is_border(border: Border, line: &[u8]) -> bool
    ensures { result ≡ is_border border line.now }
{
    match border {
        Border::Start => line.starts_with(START) && line.len() > START.len(),
        Border::End => line.starts_with(END),
    }
}

// The first start line, or end line, from a byte on.
fn find(border: Border, text: &[u8], from: usize) -> Option<Span>
    requires { from ≤ length text.now }
    ensures found { FirstLine (is_border border) text.now from result }
    ensures within { IfSome result (λ s. (s.first ≤ s.feed) × (s.feed < length text.now) × (from ≤ s.first)) }
{
    let mut at = from;
    'lines: while let Some(n) = line_length(text.split_at(at).1) {
        if is_border(border, &text[at..at + n]) {
            return Some(Span {
                first: at,
                feed: at + n,
            });
        }
        at = at + n + 1;
    }
    None
}

// The bytes behind the first ones of a line.
fn behind(line: &[u8], words: usize) -> &[u8]
    ensures { result.now ≡ drop words line.now }
{
    if words <= line.len() {
        line.split_at(words).1
    } else {
        &line[line.len()..]
    }
}

// Whether the names of a start line and an end line are the same.
fn is_same_name(text: &[u8], start: Span, end: Span) -> bool
    requires start { (start.first ≤ start.feed) × (start.feed < length text.now) }
    requires end { (end.first ≤ end.feed) × (end.feed < length text.now) }
    ensures { result ≡ is_same_name text.now start end }
{
    let start = &text[start.first..start.feed];
    let end = &text[end.first..end.feed];
    behind(end, END.len()) == behind(start, START.len())
}

/// Where the lines of a proof stand in a text.
///
/// The refusals, in this order: `Limit` at 1:1 past 268,435,456 bytes; `Syntax` at the end of a text without a start line;
/// `Truncated` where no end line stands behind the start line; `Syntax` at an end line with another name. It takes no
/// memory, and looks at each byte once, and at those before a refusal twice.
pub fn frame_of(text: &[u8]) -> Result<Frame, ProofFault>
    ensures framed { IsFrame text.now result }
    ensures within { IfOk result (λ f. (f.from ≤ f.to) × (f.to ≤ length text.now) × (length text.now ≤ MAX_PROOF)) }
{
    if text.len() > MAX_PROOF {
        return Err(ProofFault::Limit(What::Bytes, Place { line: 1, column: 1 }));
    }
    let Some(start) = find(Border::Start, text, 0) else {
        return Err(ProofFault::Syntax(place_behind(text)));
    };
    let from = start.feed + 1;
    let Some(end) = find(Border::End, text, from) else {
        return Err(ProofFault::Truncated);
    };
    if !is_same_name(text, start, end) {
        return Err(ProofFault::Syntax(place_behind(text.split_at(end.first).0)));
    }
    Ok(Frame {
        from,
        to: end.first,
    })
}
