//! Loading files with the files that they include.

ghost use Rattle.std.specs.Prelude.{◌≡◌, ◌≤◌, List, ℕ, IfOk};
ghost use Rattle.std.specs.Option.{option_copied};
ghost use Rattle.uc_term.specs.Table.{Grows};
ghost use Rattle.uc_problem.specs.Fetching.{cut, IsFaulted};
ghost use Rattle.uc_problem.specs.Holds.{ReadsAs};
ghost use Rattle.uc_problem.specs.Filling.{WhereTold, FillsFile, FillsItem, FillsInclude};
ghost use Rattle.uc_problem.specs.Loading.{LoadsFile, place_if};
ghost use Rattle.uc_problem.specs.Parts.{IsPart, ItemComesTo, IsNotRead, IsTaken, IsSelection};
ghost use Rattle.uc_problem.specs.Sound.{IsSoundItem, IsSoundPart};

use crate::candidates::candidates;
use crate::fetch::fetch_first;
use crate::selection::select;
use crate::{Counts, FlatClause, LoadFault};
use std::alloc::{AllocError, Global};
use uc_clause::{Clause, ClauseFault, Include, Item, Place, What};
use uc_edge::Library;
use uc_fof::{FofItem, read_formulas};
use uc_term::{Seq, Symbols, Text};

const MAX_DEPTH: u32 = 16;

const MAX_FILES: u32 = 256;

const MAX_CLAUSES: u32 = 10_000;

/// Where included files are looked for: the problem's folder, and the root where one is given.
#[derive(Clone, Copy)]
pub(crate) struct Search<'a> {
    pub folder: &'a [u8],
    pub root: Option<&'a [u8]>,
}

// A file that was found: its clauses, and those of the files that it includes.
#[cycle(files)]
pub(crate) fn load_file<L: Library>(
    alloc: Global,
    library: &mut L,
    search: Search<'_>,
    symbols: &mut Symbols,
    counts: &mut Counts,
    name: &Text,
    bytes: &[u8],
    depth: u32,
) -> Result<Seq<FlatClause>, LoadFault>
    ensures part { IsPart (L.holds library.old) (L.faults library.old) (L.faults library.new) symbols.new counts.new (λ files T failing loaded. (whole : List ℕ) → bytes.now ≡ cut whole → LoadsFile (ReadsAs T) files failing search.entry.folder.now (option_copied search.entry.root) depth name.now whole counts.old loaded) result }
    ensures sound { IfOk result (IsSoundPart symbols.new counts.old counts.new) }
    ensures grows { Grows symbols.old symbols.new }
    ensures fills { IfOk result (λ _. WhereTold (L.holds library.old) (λ files. (whole : List ℕ) → bytes.now ≡ cut whole → FillsFile files search.entry.folder.now (option_copied search.entry.root) whole symbols.old symbols.new)) }
    ensures same { L.holds library.new ≡ L.holds library.old }
    ensures later { L.faults library.old ≤ L.faults library.new }
    ensures counted { IsFaulted result (L.faults library.old) (L.faults library.new) (L.failed_at library.old) (L.failed_at library.new) }
{
    let items = match read_formulas(alloc, bytes, symbols) {
        Ok(items) => items,
        Err(fault) => return Err(not_read(alloc, name, fault)),
    };
    let mut clauses = Seq::new(alloc);
    for item in items.into_vec() {
        let more = load_item(alloc, library, search, symbols, counts, name, depth, item)?;
        clauses.append(more)?;
    }
    Ok(clauses)
}

// The refusal of a file that isn't read.
fn not_read(alloc: Global, name: &Text, fault: ClauseFault) -> LoadFault
    ensures { IsNotRead name.now fault result }
{
    if let ClauseFault::NoMemory = fault {
        return LoadFault::NoMemory;
    }
    match name.copy(alloc) {
        Ok(file) => LoadFault::Clause { file, fault },
        Err(_) => LoadFault::NoMemory,
    }
}

// The clauses of an item.
#[cycle(files)]
fn load_item<L: Library>(
    alloc: Global,
    library: &mut L,
    search: Search<'_>,
    symbols: &mut Symbols,
    counts: &mut Counts,
    name: &Text,
    depth: u32,
    item: FofItem,
) -> Result<Seq<FlatClause>, LoadFault>
    ensures part { IsPart (L.holds library.old) (L.faults library.old) (L.faults library.new) symbols.new counts.new (ItemComesTo search.entry.folder.now (option_copied search.entry.root) depth name.now counts.old item) result }
    ensures sound { IsSoundItem symbols.old item → IfOk result (IsSoundPart symbols.new counts.old counts.new) }
    ensures grows { Grows symbols.old symbols.new }
    ensures fills { IfOk result (λ _. WhereTold (L.holds library.old) (λ files. FillsItem files search.entry.folder.now (option_copied search.entry.root) item symbols.old symbols.new)) }
    ensures same { L.holds library.new ≡ L.holds library.old }
    ensures later { L.faults library.old ≤ L.faults library.new }
    ensures counted { IsFaulted result (L.faults library.old) (L.faults library.new) (L.failed_at library.old) (L.failed_at library.new) }
{
    match item {
        FofItem::Item(Item::Clause(clause)) => take_clause(alloc, counts, name, clause, None),
        FofItem::Item(Item::Include(include)) => {
            load_include(
                alloc, library, search, symbols, counts, name, depth, &include,
            )
        }
        FofItem::Formula {
            clause,
            conjecture,
            role_place,
        } => take_clause(
            alloc,
            counts,
            name,
            clause,
            place_if(conjecture, role_place),
        ),
    }
}

// Where a conjecture says so.
fn place_if(conjecture: bool, place: Place) -> Option<Place>
    ensures { result ≡ place_if conjecture place }
{
    if conjecture { Some(place) } else { None }
}

// A clause of the file of this name, and where it says `conjecture`, if it does.
fn take_clause(
    alloc: Global,
    counts: &mut Counts,
    name: &Text,
    clause: Clause,
    conjecture: Option<Place>,
) -> Result<Seq<FlatClause>, LoadFault>
    ensures { IsTaken name.now clause conjecture counts.old counts.new result }
{
    if counts.clauses >= MAX_CLAUSES {
        return Err(LoadFault::Limit {
            file: name.copy(alloc)?,
            place: clause.place,
            what: What::Clauses,
        });
    }
    counts.clauses += 1;
    let mut clauses = Seq::new(alloc);
    clauses.push(FlatClause {
        file: name.copy(alloc)?,
        clause,
        conjecture,
    })?;
    Ok(clauses)
}

// The clauses that an include gives.
#[cycle(files)]
fn load_include<L: Library>(
    alloc: Global,
    library: &mut L,
    search: Search<'_>,
    symbols: &mut Symbols,
    counts: &mut Counts,
    name: &Text,
    depth: u32,
    include: &Include,
) -> Result<Seq<FlatClause>, LoadFault>
    ensures part { IsPart (L.holds library.old) (L.faults library.old) (L.faults library.new) symbols.new counts.new (ItemComesTo search.entry.folder.now (option_copied search.entry.root) depth name.now counts.old (FofItem.Item (Item.Include include.now))) result }
    ensures sound { IfOk result (IsSoundPart symbols.new counts.old counts.new) }
    ensures grows { Grows symbols.old symbols.new }
    ensures fills { IfOk result (λ _. WhereTold (L.holds library.old) (λ files. FillsInclude files search.entry.folder.now (option_copied search.entry.root) include.now symbols.old symbols.new)) }
    ensures same { L.holds library.new ≡ L.holds library.old }
    ensures later { L.faults library.old ≤ L.faults library.new }
    ensures counted { IsFaulted result (L.faults library.old) (L.faults library.new) (L.failed_at library.old) (L.failed_at library.new) }
{
    if depth >= MAX_DEPTH {
        return Err(LoadFault::TooDeep {
            file: name.copy(alloc)?,
            place: include.place,
        });
    }
    if counts.files >= MAX_FILES {
        return Err(LoadFault::Limit {
            file: name.copy(alloc)?,
            place: include.place,
            what: What::Files,
        });
    }
    let names = candidates(alloc, search.folder, search.root, include.file.as_bytes())?;
    let Some(found) = fetch_first(alloc, library, names.as_slice())? else {
        return Err(LoadFault::Absent {
            file: include.file.copy(alloc)?,
            from: Some((name.copy(alloc)?, include.place)),
        });
    };
    counts.files += 1;
    let bytes = found.bytes.as_bytes();
    let given = load_file(
        alloc,
        library,
        search,
        symbols,
        counts,
        &found.name,
        bytes,
        depth + 1,
    )?;
    select(alloc, name, include, given)
}
