//! An axiom of a generated problem.

ghost use Rattle.std.specs.Prelude.{◌≡◌, ◌+◌, ◌<◌, ◌≤◌, ◌∷◌, ◌++◌, [], length, decimal, IfOk};
ghost use Rattle.uc_term.specs.Tree.{app, of_list, nodes};
ghost use Rattle.uc_gen.specs.Generated.{axiom_of, constant_name, clause_name, place_of};

use itoa::Buffer;
use std::alloc::{AllocError, Global};
use uc_clause::{Clause, Name, Place, Role, Sourced};
use uc_term::{Seq, Sym, Term, TermFault, Text};

/// Returns the axiom of this number, by which the function takes the first constant to the second.
pub(crate) fn axiom(
    alloc: Global,
    number: u32,
    function: Sym,
    from: Sym,
    to: Sym,
) -> Result<Sourced, AllocError>
    requires { number < 2000 }
    ensures { IfOk result (λ sourced. sourced ≡ axiom_of function number from to) }
{
    let place = Place {
        line: number + 1,
        column: 1,
    };
    let from = [term_of(alloc, from, &[])?];
    let clause = Clause {
        name: Name {
            text: named(alloc, b"g", number)?,
            integer: false,
        },
        role: Role::Axiom,
        positive: true,
        left: term_of(alloc, function, &from)?,
        right: term_of(alloc, to, &[])?,
        places: three_times(alloc, place)?,
        place,
    };
    Ok(Sourced {
        file: Text::from_bytes(alloc, b"gen")?,
        clause,
    })
}

/// Returns a letter and a number in decimal digits.
pub(crate) fn named(alloc: Global, letter: &[u8], number: u32) -> Result<Text, AllocError>
    ensures { IfOk result (λ name. name ≡ letter.now ++ decimal number) }
{
    let mut buffer = Buffer::new();
    let mut name = Text::from_bytes(alloc, letter)?;
    name.extend(buffer.format(number).as_bytes())?;
    Ok(name)
}

fn three_times(alloc: Global, place: Place) -> Result<Seq<Place>, AllocError>
    ensures { IfOk result (λ places. places ≡ place ∷ place ∷ place ∷ []) }
{
    let mut places = Seq::new(alloc);
    places.push(place)?;
    places.push(place)?;
    places.push(place)?;
    Ok(places)
}

/// Returns a symbol with these arguments.
pub(crate) fn term_of(alloc: Global, sym: Sym, args: &[Term]) -> Result<Term, AllocError>
    requires few { length args.now ≤ 255 }
    requires small { nodes (app sym (of_list args.now)) ≤ 4096 }
    ensures { IfOk result (λ term. term ≡ app sym (of_list args.now)) }
{
    match Term::app(alloc, sym, args) {
        Ok(term) => Ok(term),
        Err(TermFault::NoMemory) => Err(AllocError),
        Err(TermFault::TooLarge) => unreachable!(),
        Err(TermFault::NoSuchPosition) => unreachable!(),
        Err(TermFault::ArityClash { .. }) => unreachable!(),
        Err(TermFault::TooMany { .. }) => unreachable!(),
    }
}
