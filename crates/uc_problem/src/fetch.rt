//! Fetching the first of several files that a library has.

ghost use Rattle.std.specs.Prelude.{◌≡◌, ◌≤◌, Some};
ghost use Rattle.uc_problem.specs.Fetching.{IsFirst, IsAnswer, IsFaulted};

use crate::LoadFault;
use std::alloc::Global;
use uc_edge::{Fetched, Library};
use uc_term::Text;

/// The most bytes of a problem file.
pub const MAX_FILE: usize = 16_777_216;

/// A file that was fetched: the name under which it was found, and its bytes, cut behind the first that is too many.
#[derive(Drop)]
pub(crate) struct Found {
    pub name: Text,
    pub bytes: Text,
}

// The first of these files that the library has.
pub(crate) fn fetch_first<L: Library>(
    alloc: Global,
    library: &mut L,
    names: &[Text],
) -> Result<Option<Found>, LoadFault>
    ensures first { IsFirst (L.holds library.old) (L.faults library.old) (L.faults library.new) names.now result }
    ensures same { L.holds library.new ≡ L.holds library.old }
    ensures later { L.faults library.old ≤ L.faults library.new }
    ensures counted { IsFaulted result (L.faults library.old) (L.faults library.new) (L.failed_at library.old) (L.failed_at library.new) }
{
    for name in names {
        if let Some(bytes) = fetch_text(alloc, library, name)? {
            return Ok(Some(Found {
                name: name.copy(alloc)?,
                bytes,
            }));
        }
    }
    Ok(None)
}

// A file of this name, if the library has it.
pub(crate) fn fetch_text<L: Library>(
    alloc: Global,
    library: &mut L,
    name: &Text,
) -> Result<Option<Text>, LoadFault>
    ensures answer { IsAnswer (L.holds library.old) (L.faults library.old) (L.faults library.new) name.now result }
    ensures same { L.holds library.new ≡ L.holds library.old }
    ensures later { L.faults library.old ≤ L.faults library.new }
    ensures counted { IsFaulted result (L.faults library.old) (L.faults library.new) (L.failed_at library.old) (L.failed_at library.new) }
{
    let Ok(text) = str::from_utf8(name.as_bytes()) else {
        return Ok(None);
    };
    match library.fetch(alloc, text, MAX_FILE + 1)? {
        Fetched::Found(bytes) => Ok(Some(bytes)),
        Fetched::Absent => Ok(None),
        Fetched::Failed => Err(LoadFault::ReadFault {
            file: name.copy(alloc)?,
        }),
    }
}
