ghost use Rattle.std.specs.Prelude.{◌≡◌, ◌+◌, ◌-◌, ◌<◌, ◌≤◌, ◌==◌, ◌&&◌, true, [], length, Some};
ghost use Rattle.relax_edges.specs.{EdgeTable.{is_diff}, declared.kinds.ObsMode.TheVariants.{Avoid}};
ghost use Rattle.cycle_events.specs.Resolution.{edge_at, move_count, moves_before, IsResolved};
ghost use Rattle.cycle_events.specs.Values.{value_of, write_count, write_at, is_write_at, is_observed, valuation_of};
ghost use Rattle.coherence_values.specs.Arc.{LeadsOn, seen_of, writes_before, values_of, all_seen};

use arrayvec::ArrayVec;
use cycle_events::NeedsObserver;
use cycle_resolve::{Event, Resolved};
use relax_edges::{Dir, MAX_EDGES, ObsMode};
use std::marker::Model;

/// What a walk along a location's arc has seen of its writes.
#[derive(Clone, Copy, Default)]
struct Arc {
    /// How many there were.
    writes: u8,
    /// The first of these, the last one seen excepted, that isn't the location's first write and
    /// that an external edge enters.
    inner: Option<u8>,
    /// The last one seen, if it is such a write.
    entered: Option<u8>,
}

impl Arc {
    /// What is kept after one more event, the next of its arc: an external edge enters it exactly when it
    /// is the first of its thread.
    #[tactic(auto, using(crate::proofs::Walk::with_leads_on))]
    fn with(self, i: u8, event: Event) -> Arc
        requires { self.writes < 255 }
        ensures most { result.writes ≤ self.writes + 1 }
        ensures next { LeadsOn self i event result }
    {
        if event.dir == Dir::R {
            return self;
        }
        Arc {
            writes: self.writes + 1,
            inner: self.inner.or(self.entered),
            entered: if event.slot == 0 && self.writes > 0 {
                Some(i)
            } else {
                None
            },
        }
    }
}

/// A resolved cycle with the values of its events.
///
/// Contracts see the cycle's edges and the mode by which its locations are observed.
#[derive(Drop)]
pub struct Valued<'a> {
    resolved: &'a Resolved,
    mode: ObsMode,
    values: ArrayVec<u8, MAX_EDGES>,
    arcs: ArrayVec<Arc, MAX_EDGES>,
}

impl<'a> Model for Valued<'a> {
    ghost use Rattle.cycle_events.specs.Values.{Valuation};
    ghost use Rattle.coherence_values.specs.KeptValues.{AreKeptValues};

    ghost Value = { Valuation };

    ghost view = { λ v. record { edges = v.resolved.now; mode = v.mode } };

    ghost invariant = { λ v. AreKeptValues v.resolved.now v.values.items v.arcs.items };
}

/// Gives each event of the cycle its value: along the arc of a location, which begins after an
/// edge to another location, a count grows by one at each write.
///
/// In the mode `Avoid` the error is `NeedsObserver` if a location has a write that is neither its
/// first nor its last and that an external edge enters: it gives the lowest such location, and its
/// first such write. The other modes refuse nothing.
///
/// The rules are those of the diy part of the herdtools manual; which locations are observed in
/// which mode is own.
pub fn value(resolved: &Resolved, mode: ObsMode) -> Result<Valued<'_>, NeedsObserver>
    ensures { result ≡ valuation_of resolved.now mode }
{
    let mut values = ArrayVec::new();
    let mut arcs = ArrayVec::new();
    walk_arcs(resolved, &mut values, &mut arcs);
    if let ObsMode::Avoid = mode {
        for (location, arc) in arcs.iter().enumerate() {
            if let Some(event) = arc.inner {
                return Err(NeedsObserver {
                    location: location as u8,
                    event,
                });
            }
        }
    }
    Ok(Valued {
        resolved,
        mode,
        values,
        arcs,
    })
}

/// Gives each event its value, with no location observed: the same as `value` in the mode `Avoid`, but
/// also if a write needs an observer.
pub fn value_unobserved(resolved: &Resolved) -> Valued<'_>
    ensures { result ≡ record { edges = resolved.now; mode = Avoid } }
{
    let mut values = ArrayVec::new();
    let mut arcs = ArrayVec::new();
    walk_arcs(resolved, &mut values, &mut arcs);
    Valued {
        resolved,
        mode: ObsMode::Avoid,
        values,
        arcs,
    }
}

/// Walks along all arcs, that of location 0 first, from the last edge to another location on. Fills the
/// empty lists with the values of all events and the arcs of all locations.
fn walk_arcs(
    resolved: &Resolved,
    values: &mut ArrayVec<u8, MAX_EDGES>,
    arcs: &mut ArrayVec<Arc, MAX_EDGES>,
)
    requires values { values.old.items ≡ [] }
    requires arcs { arcs.old.items ≡ [] }
    ensures values { values.new.items ≡ values_of resolved.now }
    ensures arcs { arcs.new.items ≡ all_seen resolved.now }
    ensures resolved { IsResolved resolved.now }
{
    // Brings the invariant of `Resolved` into the proof.
    let _edges = resolved.cycle();
    let mut arc = arc_after(resolved);
    for (i, event) in resolved.events().iter().enumerate() {
        arc = arc.with(i as u8, *event);
        values.push(arc.writes);
        if ends_arc(resolved, i) {
            arcs.push(arc);
            arc = Arc::default();
        }
    }
}

/// Whether edge `i` leads to another location.
fn ends_arc(resolved: &Resolved, i: usize) -> bool
    requires { i < length resolved.now }
    ensures { result ≡ is_diff (edge_at resolved.now i) }
{
    // Brings the invariant of `Resolved` into the proof.
    let _edges = resolved.cycle();
    let events = resolved.events();
    i + 1 < events.len() && events[i].location != events[i + 1].location
}

/// What the arc of location 0 has after the last edge to another location, that is, before event 0.
fn arc_after(resolved: &Resolved) -> Arc
    ensures { result ≡ seen_of resolved.now 0 (writes_before resolved.now 0) }
{
    // Brings the invariant of `Resolved` into the proof.
    let _edges = resolved.cycle();
    let events = resolved.events();
    let mut arc = Arc::default();
    for i in after_moves(resolved)..events.len() {
        arc = arc.with(i as u8, events[i]);
    }
    arc
}

/// The event that the last edge to another location leads to: all events from it on are at
/// location 0, and the one before it isn't.
fn after_moves(resolved: &Resolved) -> usize
    ensures below { 0 < result }
    ensures most { result ≤ length resolved.now }
    ensures all { moves_before resolved.now result ≡ move_count resolved.now }
    ensures last { is_diff (edge_at resolved.now (result - 1)) ≡ true }
{
    // Brings the invariant of `Resolved` into the proof.
    let _edges = resolved.cycle();
    let events = resolved.events();
    let mut end = events.len();
    while events[end - 1].location == 0 {
        end -= 1;
    }
    end
}

impl<'a> Valued<'a> {
    /// The resolved cycle.
    pub fn resolved(&self) -> &Resolved
        ensures value { result.now ≡ self.now.edges }
        ensures resolved { IsResolved self.now.edges }
    {
        self.resolved
    }

    /// The value that an event writes or reads: for a read, how many writes come before it on
    /// its location's arc.
    pub fn value_of(&self, event: u8) -> u8
        requires { event < length self.now.edges }
        ensures { result ≡ value_of self.now.edges event }
    {
        self.values[usize::from(event)]
    }

    /// How many writes a location has.
    pub fn writes(&self, location: u8) -> u8
        requires { location < move_count self.now.edges }
        ensures { result ≡ write_count self.now.edges location }
    {
        self.arc(location).writes
    }

    /// The event that is write number k of a location, from 0, in the coherence order.
    pub fn write_at(&self, location: u8, k: u8) -> u8
        requires { k < write_count self.now.edges location }
        ensures { write_at self.now.edges location k ≡ Some result }
    {
        for event in 0..self.resolved.cycle().len() {
            if self.is_write(event, location, k + 1) {
                return event;
            }
        }
        unreachable!()
    }

    /// Whether a location has an observer thread: in the mode `Accept`, if an external edge enters a
    /// write that is neither its first nor its last; in `Force`, if it has two writes or more; in
    /// `Avoid`, never.
    pub fn observed(&self, location: u8) -> bool
        requires { location < move_count self.now.edges }
        ensures { result ≡ is_observed self.now.edges self.now.mode location }
    {
        let arc = self.arc(location);
        match self.mode {
            ObsMode::Accept => arc.inner.is_some(),
            ObsMode::Avoid => false,
            ObsMode::Force => arc.writes >= 2,
        }
    }

    fn arc(&self, location: u8) -> Arc
        requires { location < move_count self.now.edges }
        ensures { result ≡ seen_of self.now.edges location (write_count self.now.edges location) }
    {
        self.arcs[usize::from(location)]
    }

    /// Whether the event writes the value to the location.
    fn is_write(&self, event: u8, location: u8, value: u8) -> bool
        requires { event < length self.now.edges }
        ensures { result ≡ (is_write_at self.now.edges location event && (value_of self.now.edges event == value)) }
    {
        let written = self.resolved.event(event);
        written.dir == Dir::W && written.location == location && self.value_of(event) == value
    }
}
