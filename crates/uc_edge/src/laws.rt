//! Laws over the definitions, the contract of a function that does nothing.

ghost use Rattle.std.specs.Prelude.{◌<◌, ◌-◌, ◌^◌, ℕ};
ghost use Rattle.uc_edge.specs.Faults.{Rose, next};

/// Below the greatest `u64` a count that stays hasn't risen, and one that rose is greater than before. One more is a rise
/// everywhere. So what comes "only where the count rose" comes with no call that leaves the count as it was.
pub fn counts_rise()
    ensures stays { (count : ℕ) → count < 2 ^ 64 - 1 → Rose count count → ⊥ }
    ensures greater { (before now : ℕ) → before < 2 ^ 64 - 1 → Rose before now → before < now }
    ensures one_more { (count : ℕ) → Rose count (next count) }
{}
