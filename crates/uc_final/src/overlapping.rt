//! The overlaps of the facts that live, in a phase whose outer facts are shared out among threads.

ghost use Rattle.std.specs.Prelude.{◌≡◌, ◌<◌, ℕ, length, vec_len, map, slice_index_or, IfOk};
ghost use Rattle.uc_fact.specs.Live.{AreRising};
ghost use Rattle.uc_machine.specs.Finals.{AllOverlaps, OverlapsOf};
ghost use Rattle.uc_task.specs.Living.{live_of};
ghost use Rattle.uc_task.specs.declared.live.LiveFact.{LiveFact as AnyFact};

use std::alloc::{AllocError, Global};
use std::thread;
use std::thread::Threads;
use uc_order::Order;
use uc_pair::{Formed, overlaps};
use uc_task::LiveFact;
use uc_term::Seq;

/// The overlaps of an outer fact, or a refusal of memory.
type Row = Result<Seq<Formed>, AllocError>;

/// Every overlap of two of the facts, also of a fact with itself, by outer fact and then inner fact, formed by so many threads.
pub fn all_overlaps<O: Order + Sync, R: Threads + Sync>(
    rt: &R,
    alloc: Global,
    facts: &[LiveFact],
    order: &O,
    threads: usize,
) -> Result<Seq<Formed>, AllocError>
    requires some { 0 < threads }
    requires rising { AreRising (map live_of facts.now) }
    ensures { IfOk result (AllOverlaps (O.meaning order.now) (map live_of facts.now) (map live_of facts.now)) }
{
    let mut rows = empty_rows(alloc, facts.len())?;
    fill_rows(rt, alloc, rows.as_mut_slice(), facts, order, threads);
    let mut list = Seq::new(alloc);
    for row in rows {
        list.append(row?)?;
    }
    Ok(list)
}

/// So many rows, with nothing in them yet.
fn empty_rows(alloc: Global, count: usize) -> Result<Vec<Row>, AllocError>
    ensures { IfOk result (λ rows. vec_len rows ≡ count) }
{
    let mut rows = Vec::new(alloc);
    for made in 0..count {
        rows.push(Ok(Seq::new(alloc)))?;
    }
    Ok(rows)
}

/// Forms the overlaps of each outer fact, as one thread would.
fn fill_rows<O: Order + Sync, R: Threads + Sync>(
    rt: &R,
    alloc: Global,
    rows: &mut [Row],
    facts: &[LiveFact],
    order: &O,
    threads: usize,
)
    requires some { 0 < threads }
    requires rising { AreRising (map live_of facts.now) }
    requires all { length rows.old ≡ length facts.now }
    ensures len { length rows.new ≡ length rows.old }
    ensures each { (k : ℕ) (r : _) (d : AnyFact) → k < length facts.now → IfOk (slice_index_or rows.new k r) (OverlapsOf (O.meaning order.now) (live_of (slice_index_or facts.now k d)) (map live_of facts.now)) }
{
    thread::for_each_mut(
        rt,
        rows,
        threads,
        &|k, row| *row = overlaps_of(alloc, k, facts, order),
    );
}

/// The overlaps of the outer fact at a place with each of the facts, by inner fact.
fn overlaps_of<O: Order>(
    alloc: Global,
    place: usize,
    facts: &[LiveFact],
    order: &O,
) -> Result<Seq<Formed>, AllocError>
    requires rising { AreRising (map live_of facts.now) }
    requires inside { place < length facts.now }
    ensures { IfOk result (λ list. (d : AnyFact) → OverlapsOf (O.meaning order.now) (live_of (slice_index_or facts.now place d)) (map live_of facts.now) list) }
{
    let outer = &facts[place];
    let mut list = Seq::new(alloc);
    for inner in facts {
        let more = overlaps(
            alloc,
            outer.number,
            &outer.equation,
            inner.number,
            &inner.equation,
            order,
        )?;
        list.append(more)?;
    }
    Ok(list)
}
