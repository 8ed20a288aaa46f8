//! Fronts: lists of entries that stand on the shelf.

ghost use Rattle.std.specs.Prelude.{◌≡◌, ◌↔◌, ◌+◌, ◌<◌, ◌≤◌, ◌^◌, ◌++◌, ◌∷◌, [], All, drop, take, length, slice_get, Some, None, IsTrue, IfOk, OnOk, OnErr, MatchOption};
ghost use Rattle.boxcar.specs.Table.{Shows};
ghost use Rattle.uc_shelf.specs.Entries.{born, is_dead};
ghost use Rattle.uc_shelf.specs.Fronts.{IsOf, AreAt};
ghost use Rattle.uc_shelf.specs.Segments.{AreBased, Falls, IsIn, Merges, entries_of, homes_in, sizes_of};
ghost use Rattle.uc_shelf.specs.Sights.{entries_at, homes_of};

use crate::segment::Segment;
use crate::{Entry, Shelf};
use boxcar::Pushed;
use std::alloc::{AllocError, Global};
use std::marker::Model;
use std::sync::{Arc, Wait};
use uc_fact::Fact;

/// A list of entries, by their places on a shelf. No other front's entries are changed by what is put on it, and it isn't
/// changed by what is put on others.
///
/// It has at most 32 segments, each a power of two long, the longest first, and shares them with its copies. A copy takes
/// time and memory for the segments alone.
#[derive(Drop)]
pub struct Front {
    segments: Vec<Arc<Segment>>,
    /// How many entries there are.
    count: u32,
}

impl Model for Front {
    ghost use Rattle.std.specs.Prelude.{◌≡◌, ◌≤◌, ◌^◌, length};
    ghost use Rattle.std.specs.Coded.{codes};
    ghost use Rattle.uc_term.specs.Code.{tree_code};
    ghost use Rattle.uc_shelf.specs.Sights.{Sight};
    ghost use Rattle.uc_shelf.specs.Segments.{AreBased, Falls, entries_of, homes_in, sizes_of};

    ghost Value = { Sight };

    ghost coded = { Prim.hlevel (codes, tree_code) };

    ghost view = { λ f. record { entries = entries_of f.segments.items; homes = homes_in f.segments.items } };

    ghost invariant = { λ f. (f.count ≡ length (entries_of f.segments.items)) × (f.count ≤ 2 ^ 31) × AreBased 0 f.segments.items × Falls 32 0 (sizes_of f.segments.items) };
}

impl Shelf {
    /// Puts one more entry on the shelf, at the end of the front, by one push. On an error the entry is dropped and the front is
    /// unchanged; the shelf may then hold an entry that no front has. Memory is wanting, or all of 2^31 entries would be births.
    pub fn publish<R: Wait>(
        &self,
        rt: &R,
        alloc: Global,
        front: &mut Front,
        entry: Entry,
    ) -> Result<(), AllocError>
        requires of { IsOf self.now front.old }
        requires room { length front.old.entries < 2 ^ 31 }
        ensures ok { OnOk result (front.new.entries ≡ front.old.entries ++ entry ∷ []) }
        ensures err { OnErr result (front.new ≡ front.old) }
        ensures of { IsOf self.now front.new }
    {
        front.segments.reserve(1)?;
        let place = self.put(rt, entry)?;
        let keep = kept(front.segments.as_slice());
        let segment = self.merged(alloc, front.segments.as_slice(), keep, place)?;
        let segment = Arc::new(alloc, segment)?;
        front.segments.truncate(keep);
        front.segments.push_reserved(segment);
        front.count += 1;
        Ok(())
    }

    /// Makes one segment of the last segments, from a number on, and one more entry.
    fn merged(
        &self,
        alloc: Global,
        segments: &[Arc<Segment>],
        keep: usize,
        place: Pushed<Entry>,
    ) -> Result<Segment, AllocError>
        requires of { AreAt self.now (homes_in segments.now) }
        requires here { Shows self.now place }
        requires within { keep ≤ length segments.now }
        requires based { AreBased 0 segments.now }
        requires few { length (entries_of segments.now) < 2 ^ 31 }
        ensures { IfOk result (Merges segments.now keep place.value (place.bucket, place.row)) }
    {
        let base = base_of(segments, keep);
        let (_, late) = segments.split_at(keep);
        let mut places = places_of(alloc, late)?;
        places.push(place)?;
        Segment::of(alloc, self, base, places)
    }

    /// The entry of a number, from 0, of the front.
    pub fn read<'a>(&'a self, front: &Front, k: u32) -> &'a Entry
        requires of { IsOf self.now front.now }
        requires inside { k < length front.now.entries }
        ensures { Some result.now ≡ slice_get front.now.entries k }
    {
        self.find(front.segments.as_slice(), k as usize)
    }

    /// Finds the entry of a number among those of some segments.
    fn find<'a>(&'a self, segments: &[Arc<Segment>], k: usize) -> &'a Entry
        requires of { AreAt self.now (homes_in segments.now) }
        requires inside { k < length (entries_of segments.now) }
        ensures { Some result.now ≡ slice_get (entries_of segments.now) k }
    {
        let mut left = k;
        for i in 0..segments.len() {
            let size = segments[i].len();
            if left < size {
                return self.entry_at(segments[i].place(left));
            }
            left -= size;
        }
        unreachable!()
    }

    /// The fact of a number, from 0 in the order of births, that is born in the front, whether it is dead or not. It is found at
    /// once.
    pub fn fact<'a>(&'a self, front: &Front, number: u32) -> &'a Fact
        requires of { IsOf self.now front.now }
        requires born { number < length (born front.now.entries) }
        ensures { slice_get (born front.now.entries) number ≡ Some result.now }
    {
        match front.home(number) {
            Some(segment) => self.fact_in(segment, number - segment.base()),
            None => unreachable!(),
        }
    }

    /// The fact of a number, from 0, that is born in a segment.
    fn fact_in<'a>(&'a self, segment: &Segment, number: u32) -> &'a Fact
        requires of { AreAt self.now segment.now.homes }
        requires born { number < length (born segment.now.entries) }
        ensures { slice_get (born segment.now.entries) number ≡ Some result.now }
    {
        let k = segment.birth(number).unwrap();
        match self.entry_at(segment.place(k as usize)) {
            Entry::Born(fact) => fact,
            Entry::Dies { .. } => unreachable!(),
        }
    }

    /// Whether the two lists of entries are equal. Equal places show it without a look at the entries.
    pub fn same(&self, a: &Front, b: &Front) -> bool
        requires a_of { IsOf self.now a.now }
        requires b_of { IsOf self.now b.now }
        ensures { IsTrue result ↔ (a.now.entries ≡ b.now.entries) }
    {
        if a.count != b.count {
            return false;
        }
        if self.same_places(a.segments.as_slice(), b.segments.as_slice()) {
            return true;
        }
        self.same_entries(a, b)
    }

    /// Whether the entries of two fronts that are equally long are equal, one by one.
    fn same_entries(&self, a: &Front, b: &Front) -> bool
        requires a_of { IsOf self.now a.now }
        requires b_of { IsOf self.now b.now }
        requires long { length a.now.entries ≡ length b.now.entries }
        ensures { IsTrue result ↔ (a.now.entries ≡ b.now.entries) }
    {
        for k in 0..a.len() {
            if !self.read(a, k).same(self.read(b, k)) {
                return false;
            }
        }
        true
    }

    /// Tells that the segments have the same places, one by one, so that their entries are equal.
    fn same_places(&self, a: &[Arc<Segment>], b: &[Arc<Segment>]) -> bool
        requires a_of { AreAt self.now (homes_in a.now) }
        requires b_of { AreAt self.now (homes_in b.now) }
        ensures { IsTrue result → entries_of a.now ≡ entries_of b.now }
    {
        if a.len() != b.len() {
            return false;
        }
        for k in 0..a.len() {
            if !self.same_segment(&*a[k], &*b[k]) {
                return false;
            }
        }
        true
    }

    /// Tells that two segments have the same places, so that their entries are equal: at once where the places of each stand
    /// one behind another on the shelf, and else by each of them.
    fn same_segment(&self, a: &Segment, b: &Segment) -> bool
        requires a_of { AreAt self.now a.now.homes }
        requires b_of { AreAt self.now b.now.homes }
        ensures { IsTrue result → a.now.entries ≡ b.now.entries }
    {
        if a.starts_like(self, b) {
            true
        } else {
            self.same_one_by_one(a, b)
        }
    }

    /// Tells that two segments have the same places, by a look at each of them.
    fn same_one_by_one(&self, a: &Segment, b: &Segment) -> bool
        requires a_of { AreAt self.now a.now.homes }
        requires b_of { AreAt self.now b.now.homes }
        ensures { IsTrue result → a.now.entries ≡ b.now.entries }
    {
        if a.len() != b.len() {
            return false;
        }
        for k in 0..a.len() {
            let place = a.place(k);
            let other = b.place(k);
            if place.index() != other.index() {
                return false;
            }
            self.agree(place, other);
        }
        true
    }
}

impl Front {
    /// The front with no entry. It takes no memory.
    pub fn empty(alloc: Global) -> Front
        ensures entries { result.entries ≡ [] }
        ensures homes { result.homes ≡ [] }
    {
        Front {
            segments: Vec::new(alloc),
            count: 0,
        }
    }

    /// How many entries there are.
    pub fn len(&self) -> u32
        ensures value { result ≡ length self.now.entries }
        ensures few { result ≤ 2 ^ 31 }
    {
        self.count
    }

    /// How many facts are born in it, whether they are dead or not. It takes no memory.
    pub fn births(&self) -> u32
        ensures value { result ≡ length (born self.now.entries) }
        ensures few { result ≤ 2 ^ 31 }
    {
        base_of(self.segments.as_slice(), self.segments.len())
    }

    /// Whether there is no entry.
    pub fn is_empty(&self) -> bool
        ensures { IsTrue result ↔ (self.now.entries ≡ []) }
    {
        self.count == 0
    }

    /// Its segments.
    pub(crate) fn segments(&self) -> &[Arc<Segment>]
        ensures entries { entries_of result.now ≡ self.now.entries }
        ensures homes { homes_in result.now ≡ self.now.homes }
        ensures based { AreBased 0 result.now }
    {
        self.segments.as_slice()
    }

    /// Whether the front says that the fact of a number dies. Its segments are asked one by one, and it takes no memory.
    pub fn is_dead(&self, number: u32) -> bool
        ensures { result ≡ is_dead self.now.entries number }
    {
        for segment in &self.segments {
            if segment.is_dead(number) {
                return true;
            }
        }
        false
    }

    /// The segment in which the fact of a number is born.
    pub(crate) fn home(&self, number: u32) -> Option<&Segment>
        ensures { MatchOption result (length (born self.now.entries) ≤ number) (λ s. IsIn self.now.entries self.now.homes number s.now) }
    {
        for segment in &self.segments {
            if number < segment.base() + segment.births() {
                return Some(&**segment);
            }
        }
        None
    }

    /// A front of the same entries, at the same places. It shares the segments.
    pub fn copy(&self, alloc: Global) -> Result<Front, AllocError>
        ensures { IfOk result (λ front. front ≡ self.now) }
    {
        let mut segments = Vec::new(alloc);
        segments.reserve(self.segments.len())?;
        for segment in &self.segments {
            segments.push(Arc::try_clone(segment)?)?;
        }
        Ok(Front {
            segments,
            count: self.count,
        })
    }
}

/// Counts the segments that stay where one more entry comes: those behind them are as long as what is merged before them, one
/// after another from the last.
fn kept(segments: &[Arc<Segment>]) -> usize
    requires falls { Falls 32 0 (sizes_of segments.now) }
    requires room { length (entries_of segments.now) < 2 ^ 31 }
    ensures within { result ≤ length segments.now }
    ensures falls { Falls 32 0 (sizes_of (take result segments.now) ++ (length (entries_of (drop result segments.now)) + 1) ∷ []) }
{
    let mut keep = segments.len();
    let mut size = 1;
    while keep > 0 && segments[keep - 1].len() == size {
        keep -= 1;
        size *= 2;
    }
    keep
}

/// Counts the facts that are born in the first so many segments.
fn base_of(segments: &[Arc<Segment>], keep: usize) -> u32
    requires within { keep ≤ length segments.now }
    requires based { AreBased 0 segments.now }
    ensures { result ≡ length (born (entries_of (take keep segments.now))) }
{
    if keep == 0 {
        return 0;
    }
    let last = &segments[keep - 1];
    last.base() + last.births()
}

/// Lists the places of segments.
fn places_of(alloc: Global, segments: &[Arc<Segment>]) -> Result<Vec<Pushed<Entry>>, AllocError>
    ensures entries { IfOk result (λ places. entries_at places.items ≡ entries_of segments.now) }
    ensures homes { IfOk result (λ places. homes_of places.items ≡ homes_in segments.now) }
{
    let mut places = Vec::new(alloc);
    for k in 0..segments.len() {
        segments[k].add_places(&mut places)?;
    }
    Ok(places)
}
