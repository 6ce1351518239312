ghost use Rattle.std.specs.{Prelude.{◌≡◌, ◌+◌, ◌^◌, ◌<◌, ◌==◌, ◌&&◌, ◌≤◌, ◌++◌, ◌∷◌, [], cond, length, slice_get, IfOk, OnOk}, Int.{bit_at}, List.{list_any}};
ghost use Rattle.exec_graph.specs.{Graphs.{access_among, depends, initial_places, initial_write, is_followed, is_initial, is_reached, loads_in, points_drawn, reads_initial, relates, share_thread, visits_of_runs}, Ties.{ties_if}};
ghost use Rattle.program_meaning.specs.{Accesses.{got_from, is_read}, Interleavings.{writes_to}};

use crate::ties::{Ties, loads_at, ties_at};
use micro_ops::Trace;
use program_meaning::{Access, SeenAccess, WriteAt};
use relax_edges::Dir;
use std::alloc::{AllocError, Global};

/// What an arrow of a graph joins.
#[derive(Clone, Copy)]
pub(crate) enum Point {
    /// The initial write of a location.
    Initial { place: u8 },
    /// An access, by its thread and its number there.
    At { thread: u8, number: usize },
}

/// A write or a read of a graph.
#[derive(Drop)]
pub(crate) struct Drawn {
    pub(crate) point: Point,
    pub(crate) access: Access,
    /// The write that a read reads, or none for the initial write. For a write it means nothing.
    pub(crate) source: Option<WriteAt>,
    /// The coherence position: 0 for the initial write and for what reads it.
    pub(crate) order: usize,
    /// How many loads its thread has before it.
    pub(crate) load: usize,
    pub(crate) ties: Ties,
}

/// The relations that a graph shows.
#[derive(Clone, Copy)]
pub(crate) enum Relation {
    /// Program order.
    Po,
    /// Reads-from.
    Rf,
    /// Coherence order.
    Co,
    /// From-read.
    Fr,
    /// An address dependency.
    Addr,
    /// A data dependency.
    Data,
    /// A control dependency.
    Ctrl,
}

pub(crate) fn is_read(access: &Access) -> bool
    ensures { result ≡ is_read access.now }
{
    access.dir == Dir::R
}

pub(crate) fn writes_to(place: u8, access: &Access) -> bool
    ensures { result ≡ writes_to place access.now }
{
    access.dir == Dir::W && access.place == place
}

#[tactic(auto, using(crate::proofs::GraphLines::first_follows_none, crate::proofs::GraphLines::follows_one))]
fn is_next(before: usize, after: usize) -> bool
    ensures { result ≡ (after == before + 1) }
{
    after > 0 && after - 1 == before
}

/// Whether the second point is the next access of the first one's thread.
fn is_followed(from: Point, to: Point) -> bool
    ensures { result ≡ is_followed from to }
{
    match from {
        Point::Initial { .. } => false,
        Point::At { thread, number } => match to {
            Point::Initial { .. } => false,
            Point::At {
                thread: other,
                number: next,
            } => thread == other && is_next(number, next),
        },
    }
}

/// Whether a read of a location that reads this write, or the initial value if there is none, reads what is at
/// a point.
fn is_reached(source: Option<WriteAt>, place: u8, point: Point) -> bool
    ensures { result ≡ is_reached source place point }
{
    match (source, point) {
        (None, Point::Initial { place: other }) => other == place,
        (Some(write), Point::At { thread, number }) => {
            write.thread == thread && usize::from(write.access) == number
        }
        _ => false,
    }
}

/// Whether both points are accesses of one thread.
fn share_thread(from: Point, to: Point) -> bool
    ensures { result ≡ share_thread from to }
{
    match (from, to) {
        (Point::At { thread, .. }, Point::At { thread: other, .. }) => thread == other,
        _ => false,
    }
}

/// Whether a mask names load number `load`.
#[tactic(auto, using(crate::proofs::TieLaws::no_load))]
fn has_load(mask: u64, load: usize) -> bool
    ensures { result ≡ (bit_at mask load == 1) }
{
    load < 64 && mask >> load & 1 == 1
}

/// Whether an access of the same thread, with this mask, depends on the first, a read.
fn depends(from: &Drawn, mask: u64, to: Point) -> bool
    ensures { result ≡ depends from.now mask to }
{
    share_thread(from.point, to) && is_read(&from.access) && has_load(mask, from.load)
}

/// Whether a relation leads from the first to the second.
pub(crate) fn relates(relation: Relation, from: &Drawn, to: &Drawn) -> bool
    ensures { result ≡ relates relation from.now to.now }
{
    match relation {
        Relation::Po => is_followed(from.point, to.point),
        Relation::Rf => is_read(&to.access) && is_reached(to.source, to.access.place, from.point),
        Relation::Co => {
            writes_to(to.access.place, &from.access)
                && writes_to(from.access.place, &to.access)
                && is_next(from.order, to.order)
        }
        Relation::Fr => {
            is_read(&from.access)
                && writes_to(from.access.place, &to.access)
                && from.order < to.order
        }
        Relation::Addr => depends(from, to.ties.address_mask(), to.point),
        Relation::Data => depends(from, to.ties.data_mask(), to.point),
        Relation::Ctrl => depends(from, to.ties.control_mask(), to.point),
    }
}

fn is_initial(source: Option<WriteAt>) -> bool
    ensures { result ≡ is_initial source }
{
    source.is_none()
}

/// Whether an access reads the initial value of a location.
fn reads_initial(place: u8, seen: &SeenAccess) -> bool
    ensures { result ≡ reads_initial place seen.now }
{
    is_read(&seen.access) && seen.access.place == place && is_initial(seen.source)
}

/// Whether some access reads the initial value of a location.
fn is_read_initially(place: u8, seen: &[SeenAccess]) -> bool
    ensures { result ≡ list_any (reads_initial place) seen.now }
{
    seen.iter().any(|access| reads_initial(place, access))
}

/// Adds a location, if some access reads its initial value.
fn push_if_initial(place: u8, seen: &[SeenAccess], list: &mut Vec<u8>) -> Result<(), AllocError>
    ensures { OnOk result (list.new.items ≡ list.old.items ++ cond (list_any (reads_initial place) seen.now) (place ∷ []) []) }
{
    if is_read_initially(place, seen) {
        list.push(place)?;
    }
    Ok(())
}

/// The locations whose initial value some read reads.
pub(crate) fn initial_places(
    alloc: Global,
    places: u8,
    seen: &[SeenAccess],
) -> Result<Vec<u8>, AllocError>
    ensures list { IfOk result (λ list. list.items ≡ initial_places places seen.now) }
    ensures few { IfOk result (λ list. length list.items ≤ places) }
{
    let mut list = Vec::new(alloc);
    for place in 0..places {
        push_if_initial(place, seen, &mut list)?;
    }
    Ok(list)
}

/// The initial write of a location.
fn initial_write(alloc: Global, place: u8) -> Drawn
    ensures { result ≡ initial_write place }
{
    Drawn {
        point: Point::Initial { place },
        access: Access {
            dir: Dir::W,
            place,
            value: 0,
        },
        source: None,
        order: 0,
        load: 0,
        ties: Ties::none(alloc),
    }
}

/// How many of the first `number` accesses of a thread read, if there is the thread.
#[tactic(auto, using(crate::proofs::TieLaws::run_there, crate::proofs::TieLaws::run_past))]
fn loads_in(runs: &[Trace], thread: u8, number: usize) -> usize
    ensures { result ≡ loads_in (slice_get (visits_of_runs runs.now) thread) number }
{
    match runs.get(usize::from(thread)) {
        Some(run) => loads_at(run.items(), number),
        None => 0,
    }
}

/// What comes before access number `number` of a thread, if there is one.
#[tactic(auto, using(crate::proofs::TieLaws::run_there, crate::proofs::TieLaws::run_past))]
fn ties_in(alloc: Global, runs: &[Trace], thread: u8, number: usize) -> Result<Ties, AllocError>
    ensures { IfOk result (λ ties. ties ≡ ties_if (got_from (slice_get (visits_of_runs runs.now) thread) number)) }
{
    match runs.get(usize::from(thread)) {
        Some(run) => ties_at(alloc, run.items(), number),
        None => Ok(Ties::none(alloc)),
    }
}

/// An access of a thread, as it is drawn.
fn access_drawn(alloc: Global, runs: &[Trace], seen: &SeenAccess) -> Result<Drawn, AllocError>
    ensures { IfOk result (λ drawn. drawn ≡ access_among (visits_of_runs runs.now) seen.now) }
{
    Ok(Drawn {
        point: Point::At {
            thread: seen.thread,
            number: seen.number,
        },
        access: seen.access,
        source: seen.source,
        order: seen.order,
        load: loads_in(runs, seen.thread, seen.number),
        ties: ties_in(alloc, runs, seen.thread, seen.number)?,
    })
}

/// The initial writes of these locations, and then the accesses of the threads.
pub(crate) fn points_drawn(
    alloc: Global,
    runs: &[Trace],
    places: &[u8],
    seen: &[SeenAccess],
) -> Result<Vec<Drawn>, AllocError>
    ensures { IfOk result (λ list. list.items ≡ points_drawn (visits_of_runs runs.now) places.now seen.now) }
{
    let mut list = Vec::new(alloc);
    for place in places {
        list.push(initial_write(alloc, *place))?;
    }
    for access in seen {
        list.push(access_drawn(alloc, runs, access)?)?;
    }
    Ok(list)
}
