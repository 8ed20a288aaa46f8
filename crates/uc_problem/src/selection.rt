//! The clauses of an included file that are kept.

ghost use Rattle.std.specs.Prelude.{◌≡◌, IfOk, List, MatchOption, Some, None, filter};
ghost use Rattle.uc_clause.specs.declared.clause.Name.{Name};
ghost use Rattle.uc_problem.specs.declared.flat.FlatClause.{FlatClause};
ghost use Rattle.uc_problem.specs.Loading.{gives_name, lists_name, first_missing};
ghost use Rattle.uc_problem.specs.NameSets.{has_name};
ghost use Rattle.uc_problem.specs.Parts.{IsSelection};

use crate::names::Names;
use crate::{FlatClause, LoadFault};
use std::alloc::{AllocError, Global};
use uc_clause::{Include, Name, Place};
use uc_term::{Seq, Text};

// The clauses that an include of the file of this name keeps of those that the included file gives.
pub(crate) fn select(
    alloc: Global,
    name: &Text,
    include: &Include,
    given: Seq<FlatClause>,
) -> Result<Seq<FlatClause>, LoadFault>
    ensures { IsSelection name.now include.now given result }
{
    let Some(names) = &include.names else {
        return Ok(given);
    };
    if let Some(missing) = first_missing(alloc, given.as_slice(), names.as_slice())? {
        return Err(LoadFault::NoSuchName {
            file: name.copy(alloc)?,
            place: missing.1,
            name: copy_of(alloc, &missing.0)?,
        });
    }
    Ok(kept_of(alloc, names.as_slice(), given)?)
}

// The first listed name that no clause has.
fn first_missing<'a>(
    alloc: Global,
    clauses: &[FlatClause],
    names: &'a [(Name, Place)],
) -> Result<Option<&'a (Name, Place)>, AllocError>
    ensures { IfOk result (λ first. MatchOption first (first_missing clauses.now names.entry.now ≡ None) (λ missing. first_missing clauses.now names.entry.now ≡ Some missing.now)) }
{
    let given = names_of(alloc, clauses)?;
    Ok(first_outside(&given, names))
}

// The first listed name that isn't in a set.
fn first_outside<'a>(given: &Names, names: &'a [(Name, Place)]) -> Option<&'a (Name, Place)>
    ensures { (clauses : List FlatClause) → ((name : Name) → has_name given.now.words.keys given.now.integers.keys name ≡ gives_name clauses name) → MatchOption result (first_missing clauses names.entry.now ≡ None) (λ missing. first_missing clauses names.entry.now ≡ Some missing.now) }
{
    for listed in names {
        if !given.contains(&listed.0) {
            return Some(listed);
        }
    }
    None
}

// The clauses of listed names, in order.
fn kept_of(
    alloc: Global,
    names: &[(Name, Place)],
    given: Seq<FlatClause>,
) -> Result<Seq<FlatClause>, AllocError>
    ensures { IfOk result (λ kept. kept ≡ filter (λ s. lists_name names.now s.clause.name) given) }
{
    let listed = names_listed(alloc, names)?;
    kept_among(alloc, &listed, given)
}

// The clauses whose names are in a set, in order.
fn kept_among(
    alloc: Global,
    listed: &Names,
    given: Seq<FlatClause>,
) -> Result<Seq<FlatClause>, AllocError>
    ensures { IfOk result (λ kept. kept ≡ filter (λ s. has_name listed.now.words.keys listed.now.integers.keys s.clause.name) given) }
{
    let mut kept = Seq::new(alloc);
    for flat in given.into_vec() {
        if listed.contains(&flat.clause.name) {
            kept.push(flat)?;
        }
    }
    Ok(kept)
}

// The names of the clauses.
fn names_of(alloc: Global, clauses: &[FlatClause]) -> Result<Names, AllocError>
    ensures { IfOk result (λ set. (name : Name) → has_name set.words.keys set.integers.keys name ≡ gives_name clauses.now name) }
{
    let mut given = Names::new(alloc);
    for flat in clauses {
        given.insert(alloc, &flat.clause.name)?;
    }
    Ok(given)
}

// The names that are listed.
fn names_listed(alloc: Global, names: &[(Name, Place)]) -> Result<Names, AllocError>
    ensures { IfOk result (λ set. (name : Name) → has_name set.words.keys set.integers.keys name ≡ lists_name names.now name) }
{
    let mut listed = Names::new(alloc);
    for (name, _) in names {
        listed.insert(alloc, name)?;
    }
    Ok(listed)
}

// An equal name.
fn copy_of(alloc: Global, name: &Name) -> Result<Name, AllocError>
    ensures { IfOk result (λ copied. copied ≡ name.now) }
{
    Ok(Name {
        text: name.text.copy(alloc)?,
        integer: name.integer,
    })
}
