// What contracts alone remember of the calls of an object of the outside.

ghost use Rattle.std.specs.Prelude.{◌≡◌, ◌++◌, ◌∷◌, ℕ, List, []};
ghost use Rattle.std.specs.Borrow.{ftrue};

use std::marker::Model;

/// A list of byte strings that contracts alone see, for an object of the outside to keep what its trait remembers. It takes no
/// memory, and its calls do nothing at run time.
#[derive(Drop)]
pub struct Log {
    pub ghost items: { List (List ℕ) },
}

impl Model for Log {
    ghost also_owns = { λ _. ftrue };
}

/// Bytes for a log.
#[derive(Clone, Copy, Drop)]
pub struct Logged<'a> {
    /// The bytes.
    pub bytes: &'a [u8],
}

impl Log {
    /// Starts a log with nothing in it.
    pub fn new() -> Log
        ensures { result.items ≡ [] }
    {
        Log {}
    }

    /// Adds the bytes at the end.
    pub fn with(&self, _logged: &Logged<'_>) -> Log
        ensures { result.items ≡ self.now.items ++ _logged.now.bytes.now ∷ [] }
    {
        Log {}
    }
}
