//! The places of a tree.

ghost use Rattle.std.specs.Prelude.{◌≡◌, ℕ};
ghost use Rattle.uc_disc.specs.declared.place.Label.TheVariants.{Leaf};

/// What a place tests, or the rule that ends there:
///
/// - a variable, by the depth at which its first occurrence in the side stands;
/// - a symbol by its number, with the number of its arguments;
/// - the number of a rule whose side is spelled to its end.
#[derive(Clone, Copy, PartialEq, Eq, PartialOrd, Ord)]
pub enum Label {
    Variable(u32),
    Head(u32, u32),
    Leaf(u32),
}

/// A place, with the number of labels on the way to it, and its mark: the next place that isn't below it, and a number below which no
/// rule at it or below is.
#[derive(Clone, Copy)]
pub struct Place {
    pub label: Label,
    pub depth: u32,
    pub skip: usize,
    pub least: u32,
}

/// Returns the rule of a leaf; for another label a number that no rule has.
#[inline]
pub fn leaf_rule(label: Label) -> u32
    ensures { (r : ℕ) → label ≡ Leaf r → result ≡ r }
{
    match label {
        Label::Leaf(rule) => rule,
        Label::Variable(_) => u32::MAX,
        Label::Head(_, _) => u32::MAX,
    }
}
