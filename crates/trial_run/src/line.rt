//! The lines of a file of cases.

use std::alloc::{AllocError, Global};
use uc_term::Text;

/// The byte that stands for a number.
const NUMBER: u8 = b'@';

/// Numbers from one to another, both of them counted.
#[derive(Clone, Copy)]
pub struct Span {
    pub from: u32,
    pub to: u32,
}

impl Span {
    /// Reads `FROM-TO`, or `TO` for the numbers from 1 on.
    pub fn of(text: &str) -> Option<Span> {
        let (from, to) = text.split_once('-').unwrap_or(("1", text));
        Some(Span {
            from: from.parse::<u32>().ok()?,
            to: to.parse::<u32>().ok()?,
        })
    }
}

/// A piece of a text.
#[derive(Clone, Copy)]
pub struct Piece<'a> {
    text: &'a str,
    is_line: bool,
    span: Option<Span>,
}

impl Piece<'_> {
    /// Puts the piece at the end of a text, once for each number of its span, which stands there in place of `@`.
    pub fn put(&self, alloc: Global, out: &mut Text) -> Result<(), AllocError> {
        let Some(span) = self.span else {
            return self.put_once(out);
        };
        if self.text.as_bytes().contains(&NUMBER) {
            self.put_numbers(alloc, out, span)
        } else {
            self.put_often(out, span)
        }
    }

    fn put_numbers(&self, alloc: Global, out: &mut Text, span: Span) -> Result<(), AllocError> {
        for number in span.from..=span.to {
            put_numbered(alloc, out, self.text.as_bytes(), number)?;
            self.put_end(out)?;
        }
        Ok(())
    }

    fn put_once(&self, out: &mut Text) -> Result<(), AllocError> {
        out.extend(self.text.as_bytes())?;
        self.put_end(out)
    }

    fn put_often(&self, out: &mut Text, span: Span) -> Result<(), AllocError> {
        for _ in span.from..=span.to {
            self.put_once(out)?;
        }
        Ok(())
    }

    fn put_end(&self, out: &mut Text) -> Result<(), AllocError> {
        if self.is_line {
            out.push(b'\n')
        } else {
            Ok(())
        }
    }
}

/// Puts bytes at the end of a text, with the number in place of each `@`.
pub fn put_numbered(
    alloc: Global,
    out: &mut Text,
    bytes: &[u8],
    number: u32,
) -> Result<(), AllocError> {
    let digits = format!(in alloc; "{number}")?;
    for byte in bytes {
        if *byte == NUMBER {
            out.extend(digits.as_bytes())?;
        } else {
            out.push(*byte)?;
        }
    }
    Ok(())
}

/// A line of a file of cases.
#[derive(Clone, Copy)]
pub enum Line<'a> {
    /// An empty line, or a comment.
    Nothing,
    /// A piece of the text that is being read.
    Piece(Piece<'a>),
    /// The text of this name, as a piece.
    Named(&'a str),
    /// A line that a change takes out.
    Old(&'a str),
    /// A line that a change puts in.
    New(&'a str),
    /// A word, and what stands behind it.
    Word(&'a str, &'a str),
    /// Anything else.
    Unread,
}

impl<'a> Line<'a> {
    /// Reads a line; a backslash at its end marks the end alone.
    pub fn of(line: &'a str) -> Line<'a> {
        let line = line.strip_suffix('\\').unwrap_or(line);
        let Some(sign) = line.chars().next() else {
            return Line::Nothing;
        };
        let rest = line.strip_prefix(sign).unwrap_or("");
        match sign {
            '#' => Line::Nothing,
            '|' => piece_of(rest, true, None),
            ':' => piece_of(rest, false, None),
            '&' => repeated(rest, true),
            '*' => repeated(rest, false),
            '=' => Line::Named(rest),
            '-' => Line::Old(rest),
            '+' => Line::New(rest),
            _ => {
                let (word, rest) = line.split_once(' ').unwrap_or((line, ""));
                Line::Word(word, rest)
            }
        }
    }
}

fn piece_of(text: &str, is_line: bool, span: Option<Span>) -> Line<'_> {
    Line::Piece(Piece {
        text,
        is_line,
        span,
    })
}

// A piece with its numbers in front of it.
fn repeated(rest: &str, is_line: bool) -> Line<'_> {
    let (numbers, text) = rest.split_once(' ').unwrap_or((rest, ""));
    match Span::of(numbers) {
        Some(span) => piece_of(text, is_line, Some(span)),
        None => Line::Unread,
    }
}
