//! Laws over the definitions, each the contract of a function that does nothing.

ghost use Rattle.std.specs.Prelude.{◌≡◌, ◌↔◌, ◌⊎◌, ℕ, List};
ghost use Rattle.uc_term.specs.declared.equation.Equation.{Equation};
ghost use Rattle.uc_fact.specs.declared.fact.Overlap.{Overlap};
ghost use Rattle.uc_fact.specs.Live.{Rule};
ghost use Rattle.uc_pair.specs.declared.formed.Formed.{Formed};
ghost use Rattle.uc_pair.specs.declared.formed.Size.TheVariants.{Large};
ghost use Rattle.uc_pair.specs.declared.formation.Formation.{Formation};
ghost use Rattle.uc_pair.specs.declared.formation.Formation.TheVariants.{TooLarge};
ghost use Rattle.uc_pair.specs.Overlapping.{Overlapping, IsFormedOf};
ghost use Rattle.uc_pair.specs.Listing.{AreOverlaps, NeverDown, LeadsUp};
ghost use Rattle.uc_pair.specs.Pairs.{IsPairOf};
ghost use Rattle.uc_pair.specs.Peaks.{LeadsDownTwice};

use uc_order::Order;

/// The overlaps of two facts are one list, though a most general unifier is determined only up to renaming.
pub fn one_list<O: Order>(order: &O)
    ensures { (i : ℕ) (a : Equation) (j : ℕ) (b : Equation) (x y : List Formed) → AreOverlaps (O.meaning order.now).greater i a j b x → AreOverlaps (O.meaning order.now).greater i a j b y → x ≡ y }
{}

/// The pair of an overlap is one, with its chain.
pub fn one_pair()
    ensures { (a b : Equation) (overlap : Overlap) (x y : Formation) → IsPairOf a b overlap x → IsPairOf a b overlap y → x ≡ y }
{}

/// A pair is too large exactly where the overlap's size is.
pub fn too_large_by_size()
    ensures { (a b : Equation) (formed : Formed) (x : Formation) → IsFormedOf a b formed → IsPairOf a b formed.overlap x → (x ≡ TooLarge) ↔ (formed.size ≡ Large) }
{}

/// Where one of the facts leads down nowhere, each overlap leads up: so nothing else is left out for it.
pub fn nowhere_is_up<O: Order>(order: &O)
    ensures { (outer inner : Rule) (place : ℕ) (o : Overlapping outer inner place) → NeverDown (O.meaning order.now).greater outer ⊎ NeverDown (O.meaning order.now).greater inner → LeadsUp (O.meaning order.now).greater o }
{}

/// From no instance of the peak of an overlap that leads up do both rules lead down.
pub fn up_is_never_down<O: Order>(order: &O)
    ensures up { (outer inner : Rule) (place : ℕ) (o : Overlapping outer inner place) → LeadsUp (O.meaning order.now).greater o → LeadsDownTwice (O.meaning order.now).greater outer inner place → ⊥ }
    // the same where there need be no overlap, since one of the rules leads down nowhere
    ensures nowhere { (outer inner : Rule) (place : ℕ) → NeverDown (O.meaning order.now).greater outer ⊎ NeverDown (O.meaning order.now).greater inner → LeadsDownTwice (O.meaning order.now).greater outer inner place → ⊥ }
{}
