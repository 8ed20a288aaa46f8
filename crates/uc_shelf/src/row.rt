//! Places that stand one behind another on the shelf.

ghost use Rattle.std.specs.Prelude.{◌≡◌, All, IfSome, length};
ghost use Rattle.boxcar.specs.Table.{Shows};
ghost use Rattle.uc_shelf.specs.Rows.{AreInRow, HaveSameIndexes};
ghost use Rattle.uc_shelf.specs.Sights.{entries_at};

use crate::{Entry, Shelf};
use boxcar::Pushed;

/// The index of the first place, where each further place has the next index.
pub fn start_of(places: &[Pushed<Entry>]) -> Option<usize>
    ensures { IfSome result (λ n. AreInRow n places.now) }
{
    let start = places.first()?.index();
    for k in 0..places.len() {
        if start.checked_add(k) != Some(places[k].index()) {
            return None;
        }
    }
    Some(start)
}

/// Tells that the same entries stand at places of the same indexes. Nothing is left of it in the program.
#[inline]
pub fn agree_in_row(shelf: &Shelf, a: &[Pushed<Entry>], b: &[Pushed<Entry>])
    requires a_here { All (Shows shelf.now) a.now }
    requires b_here { All (Shows shelf.now) b.now }
    requires long { length a.now ≡ length b.now }
    requires same { HaveSameIndexes a.now b.now }
    ensures { entries_at a.now ≡ entries_at b.now }
{
    for k in 0..a.len() {
        shelf.agree(&a[k], &b[k]);
    }
}
