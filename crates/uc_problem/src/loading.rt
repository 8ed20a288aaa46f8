//! Loading a problem.

ghost use Rattle.std.specs.Prelude.{◌≡◌, ◌≤◌, None, IfOk, IfErr};
ghost use Rattle.std.specs.Option.{option_copied};
ghost use Rattle.uc_term.specs.Table.{Grows, IsDistinct};
ghost use Rattle.uc_problem.specs.Holds.{IsProblem, IsLoadFault, Agrees};
ghost use Rattle.uc_problem.specs.Filling.{WhereTold, FillsProblem, IsFilled};
ghost use Rattle.uc_problem.specs.Refusing.{IsStopped};
ghost use Rattle.uc_problem.specs.Fetching.{IsFaulted};
ghost use Rattle.uc_problem.specs.Assembly.{IsFlat, AreSoundFewFlats};

use crate::assembly::assemble;
use crate::candidates::folder_of;
use crate::closing::close;
use crate::fetch::fetch_text;
use crate::files::{Search, load_file};
use crate::{Counts, FlatClause, LoadFault, Problem};
use std::alloc::Global;
use uc_edge::Library;
use uc_term::{Seq, Symbols, Text};

/// Loads the problem that the library has under a name: the clauses of the file with those of the files that it includes in
/// place, which of them are axioms and which goals, and their signature. A conjecture is the goal that denies it, with a fresh
/// constant in the place of each of its variables.
///
/// A file is fetched and read whole, and then its items are taken in order. An include's file is looked for in the folder of
/// the problem file and then in the root, where one is given, and under a name that begins with a slash as it stands. A
/// selection keeps the clauses of the listed names in the file's order. The constants of a conjecture are named `sk_1`, `sk_2`
/// and so on by the variable's number; a name that a symbol of the clauses has, of whatever arity, is passed over.
///
/// The first refusal in the order of loading is answered. A fetch answers `ReadFault` where the library failed at this very
/// file, the only failure of the call, and `Absent` where there is no such file. Every other answer comes with no failure, but
/// for want of memory, which may also follow one. A file that isn't read answers `Clause` before all its items. A clause
/// answers `Limit` where it is the 10,001st. An include answers `TooDeep` in a file that is nested 16 deep, then `Limit` where
/// it is the 257th included file, then what its fetches answer, one after the other up to the first file that is there, then
/// what the included file answers, and then `NoSuchName` at the first listed name that the file doesn't give. A second
/// conjecture among the clauses answers `Clause` with `Unsupported` at its role. At last the signature answers `ArityClash` at
/// the first name with two arities or `Limit` at the 60,001st symbol, constants of a conjecture among them, whichever is first.
pub fn load<L: Library>(
    alloc: Global,
    library: &mut L,
    root: Option<&[u8]>,
    name: &[u8],
    symbols: &mut Symbols,
) -> Result<Problem, LoadFault>
    ensures problem { IfOk result (IsProblem symbols.new (L.holds library.old) (option_copied root.entry) name.now) }
    ensures agrees { IfOk result (Agrees symbols.new) }
    ensures refused { IfErr result (IsLoadFault symbols.new (L.holds library.old) (L.faults library.old) (L.faults library.new) (option_copied root.entry) name.now) }
    ensures grows { Grows symbols.old symbols.new }
    ensures filled { IfOk result (λ problem. WhereTold (L.holds library.old) (λ files. IsFilled files (option_copied root.entry) name.now symbols.old symbols.new problem)) }
    ensures distinct { IfOk result (λ _. IsDistinct symbols.new) }
    ensures stopped { IfErr result (λ why. WhereTold (L.holds library.old) (λ files. IsStopped files (option_copied root.entry) name.now symbols.old why)) }
    ensures same { L.holds library.new ≡ L.holds library.old }
    ensures later { L.faults library.old ≤ L.faults library.new }
    ensures counted { IsFaulted result (L.faults library.old) (L.faults library.new) (L.failed_at library.old) (L.failed_at library.new) }
{
    let flats = flat_clauses(alloc, library, root, name, symbols)?;
    let closed = close(alloc, flats, symbols)?;
    let problem = assemble(alloc, closed.clauses, closed.conjecture, symbols);
    // The entries of the table are all different, so the files make one table and are one problem.
    let _ = symbols.len();
    problem
}

// The clauses of the problem in flat order.
fn flat_clauses<L: Library>(
    alloc: Global,
    library: &mut L,
    root: Option<&[u8]>,
    name: &[u8],
    symbols: &mut Symbols,
) -> Result<Seq<FlatClause>, LoadFault>
    ensures flat { IsFlat symbols.new (L.holds library.old) (L.faults library.old) (L.faults library.new) (option_copied root.entry) name.now result }
    ensures sound { IfOk result (AreSoundFewFlats symbols.new) }
    ensures grows { Grows symbols.old symbols.new }
    ensures fills { IfOk result (λ _. WhereTold (L.holds library.old) (λ files. FillsProblem files (option_copied root.entry) name.now symbols.old symbols.new)) }
    ensures stopped { IfErr result (λ why. WhereTold (L.holds library.old) (λ files. IsStopped files (option_copied root.entry) name.now symbols.old why)) }
    ensures same { L.holds library.new ≡ L.holds library.old }
    ensures later { L.faults library.old ≤ L.faults library.new }
    ensures counted { IsFaulted result (L.faults library.old) (L.faults library.new) (L.failed_at library.old) (L.failed_at library.new) }
{
    let file = Text::from_bytes(alloc, name)?;
    let Some(bytes) = fetch_text(alloc, library, &file)? else {
        return Err(LoadFault::Absent { file, from: None });
    };
    let search = Search {
        folder: folder_of(name),
        root,
    };
    let mut counts = Counts {
        clauses: 0,
        files: 0,
    };
    load_file(
        alloc,
        library,
        search,
        symbols,
        &mut counts,
        &file,
        bytes.as_bytes(),
        0,
    )
}
