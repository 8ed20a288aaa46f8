// Where files come from.

ghost use Rattle.std.specs.Prelude.{◌≡◌, ◌≤◌, ℕ, List, IfOk};

use std::alloc::{AllocError, Global};
use uc_term::Text;

/// What a library answers when it is asked for a file.
#[derive(Debug, Drop)]
pub enum Fetched {
    /// The first bytes of the file, as many as were asked for or all that there are.
    Found(Text),
    /// There is no file of this name.
    Absent,
    /// The library failed, and says nothing of the file.
    Failed,
}

/// A place from which files come by name. What it holds never changes.
pub trait Library {
    ghost use Rattle.std.specs.Prelude.{Option};
    ghost use Rattle.uc_edge.specs.Files.{Files, IsFetched, failing};
    ghost use Rattle.uc_edge.specs.Faults.{Rose, IsCounted};
    ghost use Rattle.uc_edge.specs.declared.library.Fetched.TheVariants.{Failed};

    /// The files that it holds, where it tells them.
    ghost holds: { Self → Option Files };

    /// How often it has failed, up to the greatest `u64`.
    ghost faults: { Self → ℕ };

    /// The names at which it has failed, in order.
    ghost failed_at: { Self → List (List ℕ) };

    /// The first `most` bytes of the file of this name, or the whole file where it has no more. It fails only where its
    /// count of faults rose in this call, by one, and this name came to those at which it failed. Every other answer, and
    /// want of memory, leaves both as they were.
    fn fetch(&mut self, alloc: Global, name: &str, most: usize) -> Result<Fetched, AllocError>
        ensures answer { IfOk result (λ answer. IsFetched (holds self.old) name.now most answer) }
        ensures same { holds self.new ≡ holds self.old }
        ensures later { faults self.old ≤ faults self.new }
        ensures failed { IfOk result (λ answer. answer ≡ Failed → Rose (faults self.old) (faults self.new)) }
        ensures counted { IsCounted (failing name.now result) (faults self.old) (faults self.new) (failed_at self.old) (failed_at self.new) };
}
