//! Where a fault of the signature stands in the clauses.

ghost use Rattle.std.specs.Prelude.{◌≡◌, ◌<◌, ◌≤◌, length, slice_get, Some, IfOk};
ghost use Rattle.uc_term.specs.Signatures.{IsSignatureFault};
ghost use Rattle.uc_problem.specs.Holds.{terms_of, located, StandsAt, HasNoSignature};
ghost use Rattle.uc_problem.specs.Sound.{AreSound};
ghost use Rattle.uc_problem.specs.Assembly.{HasSymbolAt, HasPlaceAt, first_place};

use crate::LoadFault;
use std::alloc::{AllocError, Global};
use uc_clause::{Place, Sourced, What};
use uc_term::{Node, Pos, Sym, Symbols, Term, TermFault, Text};

// Why the clauses have no signature, with the file and the place where the fault stands.
pub(crate) fn refusal(
    alloc: Global,
    clauses: &[Sourced],
    symbols: &Symbols,
    fault: TermFault,
) -> Result<LoadFault, AllocError>
    requires sound { AreSound symbols.now clauses.now }
    requires fault { IsSignatureFault symbols.now (terms_of clauses.now) fault }
    ensures { IfOk result (HasNoSignature symbols.now clauses.now) }
{
    match fault {
        TermFault::ArityClash {
            term,
            pos,
            first,
            second,
        } => {
            let (file, place) = spot(alloc, clauses, term, pos.0)?;
            let name = symbols.name(symbol_at(clauses, term, pos));
            Ok(LoadFault::ArityClash {
                file,
                place,
                name: Text::from_bytes(alloc, name)?,
                first,
                second,
            })
        }
        TermFault::TooMany { term, pos } => {
            let (file, place) = spot(alloc, clauses, term, pos.0)?;
            Ok(LoadFault::Limit {
                file,
                place,
                what: What::Symbols,
            })
        }
        TermFault::NoMemory => Err(AllocError),
        TermFault::TooLarge | TermFault::NoSuchPosition => unreachable!(),
    }
}

// The file and the place of a node of the term of this number.
fn spot(
    alloc: Global,
    clauses: &[Sourced],
    term: u32,
    node: u32,
) -> Result<(Text, Place), AllocError>
    requires { HasPlaceAt clauses.now term node }
    ensures { IfOk result (λ spot. located clauses.now term node ≡ Some spot) }
{
    let sourced = &clauses[(term / 2) as usize];
    let first = first_place(sourced, term);
    let place = sourced.clause.places.as_slice()[first + node as usize];
    Ok((sourced.file.copy(alloc)?, place))
}

// The number of the first place of the term's side among the places of its clause.
fn first_place(sourced: &Sourced, term: u32) -> usize
    ensures value { result ≡ first_place sourced.now term }
    ensures small { result ≤ 4096 }
{
    if term % 2 == 0 {
        0
    } else {
        sourced.clause.left.nodes() as usize
    }
}

// The symbol that stands at a place of the term of this number.
fn symbol_at(clauses: &[Sourced], term: u32, pos: Pos) -> Sym
    requires { HasSymbolAt clauses.now term pos }
    ensures { StandsAt clauses.now term pos result }
{
    match side_of(clauses, term).as_nodes()[pos.0 as usize] {
        Node::App(f, _) => f,
        Node::Var(_) => unreachable!(),
    }
}

// The term of this number.
fn side_of(clauses: &[Sourced], term: u32) -> &Term
    requires { term < length (terms_of clauses.now) }
    ensures { slice_get (terms_of clauses.now) term ≡ Some result.now }
{
    let clause = &clauses[(term / 2) as usize].clause;
    if term % 2 == 0 {
        &clause.left
    } else {
        &clause.right
    }
}
