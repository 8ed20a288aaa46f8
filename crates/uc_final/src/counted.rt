//! The count of final passes.

ghost use Rattle.std.specs.Prelude.{◌≡◌, ◌+◌, ◌-◌, ◌<◌, ◌^◌, min};

use std::marker::Model;

/// A count of final passes: each pass takes one and counts itself there. It stands still at the greatest number of its type.
#[derive(Drop)]
pub struct FinalPasses {
    made: u64,
}

impl Model for FinalPasses {
    ghost use Rattle.std.specs.Prelude.{ℕ};

    ghost Value = { ℕ };

    ghost view = { λ p. p.made };
}

impl FinalPasses {
    /// Returns a count of no pass.
    pub fn none() -> FinalPasses
        ensures { result ≡ 0 }
    {
        FinalPasses { made: 0 }
    }

    /// Returns how many passes were made.
    pub fn made(&self) -> u64
        ensures value { result ≡ self.now }
        ensures few { self.now < 2 ^ 64 }
    {
        self.made
    }

    /// Counts a pass.
    pub(crate) fn count(&mut self)
        ensures { self.new ≡ min (self.old + 1) (2 ^ 64 - 1) }
    {
        self.made = self.made.saturating_add(1);
    }
}
