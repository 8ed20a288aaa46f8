//! The answer where an order is refused.

ghost use Rattle.std.specs.Prelude.{◌≡◌, IfOk};
ghost use Rattle.uc_answer.specs.Lines.{joined};
ghost use Rattle.uc_answer.specs.ChoiceLines.{about_order, choice_line};

use crate::answer::{Answer, USAGE, of_line};
use crate::lines::spaced;
use itoa::Buffer;
use std::alloc::{AllocError, Global};
use uc_clause::print_word;
use uc_ordering::ChoiceFault;
use uc_term::Text;

// A line about the order.
fn about_order(alloc: Global, kind: &[u8], name: &Text, more: &[u8]) -> Result<Text, AllocError>
    ensures { IfOk result (λ text. text ≡ about_order kind.now name.now more.now) }
{
    let name = print_word(alloc, name.as_bytes())?;
    let mut line = Text::from_bytes(alloc, b"% order ")?;
    line.extend(kind)?;
    line.extend(b" ")?;
    line.extend(name.as_bytes())?;
    line.extend(more)?;
    line.extend(b"\n")?;
    Ok(line)
}

// The line of an order that is refused; for want of memory, no bytes.
fn choice_line(alloc: Global, fault: &ChoiceFault) -> Result<Text, AllocError>
    ensures { IfOk result (λ text. text ≡ choice_line fault.now) }
{
    match fault {
        ChoiceFault::UnknownSymbol(name) => about_order(alloc, b"UnknownSymbol", name, b""),
        ChoiceFault::NotTotal(name) => about_order(alloc, b"NotTotal", name, b""),
        ChoiceFault::BadWeight(name, weight) => {
            let mut buffer = Buffer::new();
            let weight = spaced(alloc, buffer.format(*weight).as_bytes())?;
            about_order(alloc, b"BadWeight", name, weight.as_bytes())
        }
        ChoiceFault::NoMemory => Ok(Text::new(alloc)),
    }
}

/// Returns the answer for an order that is refused: its line, with status 4. Fails also where the refusal is itself for want of
/// memory.
pub fn choice_answer(alloc: Global, fault: &ChoiceFault) -> Result<Answer, AllocError>
    ensures answer { IfOk result (λ answer. (answer.status ≡ 4) × (joined answer.lines ≡ choice_line fault.now)) }
    ensures not_memory { IfOk result (λ _. fault.now ≡ ChoiceFault.NoMemory → ⊥) }
{
    match fault {
        ChoiceFault::NoMemory => Err(AllocError),
        _ => of_line(alloc, USAGE, choice_line(alloc, fault)?),
    }
}
