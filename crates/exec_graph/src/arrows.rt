ghost use Rattle.std.specs.{Prelude.{◌≡◌, ◌<◌, ◌≤◌, length, map, IfOk}, List.{list_any}};
ghost use Rattle.relax_edges.specs.declared.TheConstants.{MAX_EDGES};
ghost use Rattle.exec_graph.specs.{Graphs.{arrow_of, arrows_of, has_name, is_at, is_dashed, is_same, is_there, is_thin, kind_relation, stands_along}, JudgedCycles.{AreEdgesOf}};
ghost use Rattle.program_meaning.specs.Standing.{event_name};

use crate::drawn::{Drawn, Point, Relation, relates};
use cycle_resolve::Resolved;
use program_meaning::{SeenAccess, WriteAt};
use relax_edges::{Com, Edge, Kind};
use std::alloc::{AllocError, Global};

/// An edge of a cycle and whether it stands, with the names of the access that it leaves and of that which it enters.
#[derive(Clone, Copy)]
pub(crate) struct Arrow {
    pub(crate) edge: Edge,
    pub(crate) stands: bool,
    pub(crate) source: WriteAt,
    pub(crate) target: WriteAt,
}

/// The name of event `i` of a cycle.
fn event_name(resolved: &Resolved, i: u8) -> WriteAt
    requires { i < length resolved.now }
    ensures { result ≡ event_name resolved.now i }
{
    let event = resolved.event(i);
    WriteAt {
        thread: event.thread,
        access: event.slot,
    }
}

/// The arrow of edge `i` of a cycle.
fn arrow_of(resolved: &Resolved, i: u8, judged: (Edge, bool)) -> Arrow
    requires { i < length resolved.now }
    ensures { result ≡ arrow_of resolved.now i judged }
{
    let (edge, stands) = judged;
    Arrow {
        edge,
        stands,
        source: event_name(resolved, i),
        target: event_name(resolved, resolved.event_after(i)),
    }
}

/// The arrows of the edges of a cycle.
fn cycle_arrows(
    alloc: Global,
    resolved: &Resolved,
    judged: &[(Edge, bool)],
) -> Result<Vec<Arrow>, AllocError>
    requires edges { map (λ j. j.0) judged.now ≡ resolved.now }
    requires few { length judged.now ≤ MAX_EDGES }
    ensures { IfOk result (λ arrows. arrows.items ≡ arrows_of judged.now) }
{
    let mut arrows = Vec::new(alloc);
    for (i, edge) in judged.iter().enumerate() {
        arrows.push(arrow_of(resolved, i as u8, *edge))?;
    }
    Ok(arrows)
}

/// The arrows of the edges of a cycle, if there is a cycle.
pub(crate) fn arrows_of(
    alloc: Global,
    cycle: &Option<Resolved>,
    judged: &[(Edge, bool)],
) -> Result<Vec<Arrow>, AllocError>
    requires edges { AreEdgesOf cycle.now judged.now }
    requires few { length judged.now ≤ MAX_EDGES }
    ensures { IfOk result (λ arrows. arrows.items ≡ arrows_of judged.now) }
{
    match cycle {
        Some(resolved) => cycle_arrows(alloc, resolved, judged),
        None => Ok(Vec::new(alloc)),
    }
}

/// The relation along a pair of which an edge stands: that of a communication, and otherwise program order.
pub(crate) fn kind_relation(kind: Kind) -> Relation
    ensures { result ≡ kind_relation kind }
{
    match kind {
        Kind::Com { com, .. } => match com {
            Com::Rf => Relation::Rf,
            Com::Ws => Relation::Co,
            Com::Fr => Relation::Fr,
        },
        _ => Relation::Po,
    }
}

fn is_same(relation: Relation, other: Relation) -> bool
    ensures { result ≡ is_same relation other }
{
    match (relation, other) {
        (Relation::Po, Relation::Po) => true,
        (Relation::Rf, Relation::Rf) => true,
        (Relation::Co, Relation::Co) => true,
        (Relation::Fr, Relation::Fr) => true,
        (Relation::Addr, Relation::Addr) => true,
        (Relation::Data, Relation::Data) => true,
        (Relation::Ctrl, Relation::Ctrl) => true,
        _ => false,
    }
}

/// Whether a point is the access with this name.
fn is_at(point: Point, name: WriteAt) -> bool
    ensures { result ≡ is_at point name }
{
    match point {
        Point::Initial { .. } => false,
        Point::At { thread, number } => {
            name.thread == thread && usize::from(name.access) == number
        }
    }
}

/// Whether an edge stands along a pair of a relation.
fn stands_along(relation: Relation, from: Point, to: Point, arrow: &Arrow) -> bool
    ensures { result ≡ stands_along relation from to arrow.now }
{
    arrow.stands
        && is_same(relation, kind_relation(arrow.edge.kind()))
        && is_at(from, arrow.source)
        && is_at(to, arrow.target)
}

/// Whether some edge stands along a pair of a relation.
fn some_stands_along(arrows: &[Arrow], relation: Relation, from: Point, to: Point) -> bool
    ensures { result ≡ list_any (stands_along relation from to) arrows.now }
{
    arrows
        .iter()
        .any(|arrow| stands_along(relation, from, to, arrow))
}

/// Whether a pair has a thin arrow of a relation: the relation leads from the first to the second, and no edge stands along them.
pub(crate) fn is_thin(arrows: &[Arrow], relation: Relation, from: &Drawn, to: &Drawn) -> bool
    ensures { result ≡ is_thin arrows.now relation from.now to.now }
{
    relates(relation, from, to) && !some_stands_along(arrows, relation, from.point, to.point)
}

fn has_name(name: WriteAt, seen: &SeenAccess) -> bool
    ensures { result ≡ has_name name seen.now }
{
    name.thread == seen.thread && usize::from(name.access) == seen.number
}

/// Whether there is an access with this name.
fn is_there(seen: &[SeenAccess], name: WriteAt) -> bool
    ensures { result ≡ is_there seen.now name }
{
    seen.iter().any(|access| has_name(name, access))
}

/// Whether an edge doesn't stand, but both of its accesses are there.
pub(crate) fn is_dashed(seen: &[SeenAccess], arrow: &Arrow) -> bool
    ensures { result ≡ is_dashed seen.now arrow.now }
{
    !arrow.stands && is_there(seen, arrow.source) && is_there(seen, arrow.target)
}
