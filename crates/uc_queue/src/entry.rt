// Entries, and the two keys by which they are drawn.

ghost use Rattle.std.specs.Prelude.{◌≡◌};
ghost use Rattle.uc_queue.specs.Trees.{before, key_of, loses};

use std::mem::size_of;

/// What waits: a number, with its weight.
#[derive(Clone, Copy, Debug, PartialEq, Eq)]
pub struct Entry {
    pub weight: u32,
    pub number: u64,
}

// with its two places in the trees, of four bytes each, an entry takes 24
const _: () = prove!(size_of::<Entry>() <= 16);

#[derive(Clone, Copy)]
pub(crate) enum Key {
    Number,
    Weight,
}

impl Key {
    // each fifth draw goes by number
    pub(crate) fn of(draws: u8) -> Key
        ensures { result ≡ key_of draws }
    {
        if draws == 4 { Key::Number } else { Key::Weight }
    }

    fn is_before(self, a: Entry, b: Entry) -> bool
        ensures { result ≡ before self a b }
    {
        match self {
            Key::Number => a.number < b.number,
            Key::Weight => a.weight < b.weight || (a.weight == b.weight && a.number < b.number),
        }
    }

    // an entry wins over none
    pub(crate) fn loses(self, a: Option<Entry>, b: Option<Entry>) -> bool
        ensures { result ≡ loses self a b }
    {
        match (a, b) {
            (_, None) => false,
            (None, Some(_)) => true,
            (Some(a), Some(b)) => self.is_before(b, a),
        }
    }
}
