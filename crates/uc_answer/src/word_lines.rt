//! The lines of words that are no terms, or no questions.

ghost use Rattle.std.specs.Prelude.{◌≡◌, IfOk};
ghost use Rattle.uc_answer.specs.Lines.{joined};
ghost use Rattle.uc_answer.specs.WordLines.{word_name, word_line};

use crate::answer::{Answer, REFUSED, of_line};
use crate::lines::{clause_line, located, word_line as line_at};
use crate::term_word::WordFault;
use itoa::Buffer;
use std::alloc::{AllocError, Global};
use uc_clause::print_word;
use uc_term::Text;

// What stands for a file's name where the word of a number is refused.
fn word_name(alloc: Global, number: usize) -> Result<Text, AllocError>
    ensures { IfOk result (λ text. text ≡ word_name number) }
{
    let mut buffer = Buffer::new();
    let mut name = Text::from_bytes(alloc, b"word ")?;
    name.extend(buffer.format(number).as_bytes())?;
    Ok(name)
}

// The line of the word of a number that is no term, or no question; for want of memory, no bytes.
fn word_line(alloc: Global, number: usize, fault: &WordFault) -> Result<Text, AllocError>
    ensures { IfOk result (λ text. text ≡ word_line number fault.now) }
{
    let word = word_name(alloc, number)?;
    match fault {
        WordFault::Unread(why) => clause_line(alloc, word.as_bytes(), why),
        WordFault::UnknownSymbol(place, name) => {
            let name = print_word(alloc, name.as_bytes())?;
            line_at(
                alloc,
                word.as_bytes(),
                *place,
                b"UnknownSymbol",
                name.as_bytes(),
            )
        }
        WordFault::NotGround(place) => located(alloc, word.as_bytes(), *place, b"NotGround", b""),
        WordFault::NoMemory => Ok(Text::new(alloc)),
    }
}

/// Returns the answer for the word of a number, from 0 on, that is no term, or no question, with status 3. Fails also where the
/// word is refused for want of memory.
pub fn word_answer(alloc: Global, number: usize, fault: &WordFault) -> Result<Answer, AllocError>
    ensures answer { IfOk result (λ answer. (answer.status ≡ 3) × (joined answer.lines ≡ word_line number fault.now)) }
    ensures not_memory { IfOk result (λ _. fault.now ≡ WordFault.NoMemory → ⊥) }
{
    match fault {
        WordFault::NoMemory => Err(AllocError),
        _ => of_line(alloc, REFUSED, word_line(alloc, number, fault)?),
    }
}
