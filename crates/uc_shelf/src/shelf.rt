//! The shelf: the table of entries that all fronts share.

ghost use Rattle.std.specs.Prelude.{◌≡◌, IfOk};
ghost use Rattle.boxcar.specs.Table.{Shows};

use crate::Entry;
use boxcar::Pushed;
use std::alloc::{AllocError, Global};
use std::marker::Model;
use std::sync::Wait;

/// Entries that workers share. It only grows, and an entry stays where it was put. A contract sees which shelf it is, and
/// not what stands on it.
#[derive(Drop)]
pub struct Shelf {
    slots: boxcar::Vec<Entry>,
}

impl Model for Shelf {
    ghost use Rattle.boxcar.specs.Table.{Shelves, shelves_coded};

    ghost Value = { Shelves };

    ghost coded = { shelves_coded };

    ghost view = { λ s. s.slots };
}

impl Shelf {
    /// A shelf with nothing on it.
    pub fn new(alloc: Global) -> Result<Shelf, AllocError> {
        Ok(Shelf {
            slots: boxcar::Vec::new(alloc)?,
        })
    }

    /// Puts an entry on the shelf, by one push, and returns its place.
    pub(crate) fn put<R: Wait>(&self, rt: &R, entry: Entry) -> Result<Pushed<Entry>, AllocError>
        ensures here { IfOk result (λ place. Shows self.now place) }
        ensures value { IfOk result (λ place. place.value ≡ entry) }
    {
        match self.slots.push_shown(rt, entry) {
            Ok(place) => Ok(place),
            Err(_) => Err(AllocError),
        }
    }

    /// Lends the entry at a place.
    pub(crate) fn entry_at<'a>(&'a self, place: &Pushed<Entry>) -> &'a Entry
        requires { Shows self.now place.now }
        ensures { result.now ≡ place.now.value }
    {
        self.slots.value(place)
    }

    /// Tells that the same entry stands at two places of one index. It does nothing.
    pub(crate) fn agree(&self, a: &Pushed<Entry>, b: &Pushed<Entry>)
        requires here { Shows self.now a.now × Shows self.now b.now }
        requires same { a.now.index ≡ b.now.index }
        ensures { a.now.value ≡ b.now.value }
    {
        self.slots.agrees(a, b);
    }
}
