//! Lists of values and their places, the first value slowest.

ghost use Rattle.std.specs.Prelude.{◌≡◌, ◌<◌, ◌≤◌, ◌^◌, length, MatchOption};
ghost use Rattle.uc_table.specs.Algebras.{place_of};
ghost use Rattle.uc_table.specs.Tables.{AreValues, IsRow, MOST_ASSIGNMENTS};

use crate::MAX_ASSIGNMENTS;

/// The place of a list of values among the lists of its length.
pub(crate) fn place_of(size: u32, values: &[u32]) -> usize
    requires values { AreValues size values.now }
    requires small { size ^ length values.now < 2 ^ 64 }
    ensures place { result ≡ place_of size values.now }
    ensures within { result < size ^ length values.now }
{
    let mut place: usize = 0;
    for value in values {
        place = place * size as usize + *value as usize;
    }
    place
}

/// Writes the list of values at a place.
pub(crate) fn write_place(size: u32, place: u32, values: &mut [u32])
    requires some { 1 ≤ size }
    requires within { place < size ^ length values.old }
    ensures row { IsRow size (length values.old) values.new }
    ensures place { place_of size values.new ≡ place }
{
    let mut left = place;
    let mut at = values.len();
    while at > 0 {
        at -= 1;
        values[at] = left % size;
        left /= size;
    }
}

/// How many lists of so many values there are. None exactly where there are more than 16,777,216.
pub(crate) fn lists_of(size: u32, count: usize) -> Option<u32>
    requires { 1 ≤ size }
    ensures { MatchOption result (MOST_ASSIGNMENTS < size ^ count) (λ n. (n ≡ size ^ count) × (n ≤ MOST_ASSIGNMENTS)) }
{
    let mut lists: u64 = 1;
    for _ in 0..count {
        lists *= u64::from(size);
        if lists > u64::from(MAX_ASSIGNMENTS) {
            return None;
        }
    }
    Some(lists as u32)
}
