ghost use Rattle.std.specs.Prelude.{◌≡◌, ◌<◌, ◌≤◌, ◌+◌, length};
ghost use Rattle.cycle_enum.specs.RelaxSets.{AddsEdges, AddsPlaces, AddsToRow, AddsToRows, ArePlaces, HasEdges, HasPlaces, InSet, KeepsPlaces, KeepsRow, KeepsRows, row_at, set_at};
ghost use Rattle.relax_edges.specs.Order.{rank_of};

use crate::relax_set::RelaxSet;
use edges_from_text::Relax;
use relax_edges::{EDGES, Edge};

/// The most edges of a relaxation.
pub(crate) const POSITIONS: usize = 8;

const RANKS: usize = EDGES as usize;

/// A set of relaxations for each position in a relaxation.
pub(crate) type SetRow = [RelaxSet; POSITIONS];

/// Where edges stand in relaxations.
#[derive(Drop)]
pub(crate) struct Places {
    /// For each rank, and each position in a relaxation, the relaxations that have an edge of this rank there.
    pub(crate) edges: [SetRow; RANKS],
    /// For each position, the relaxations that have their last edge there.
    pub(crate) ends: SetRow,
}

/// Finds where edges stand in these relaxations.
pub(crate) fn places_of(relaxes: &[Relax]) -> Places
    requires { length relaxes.now ≤ 64 }
    ensures { ArePlaces relaxes.now result }
{
    let row = [RelaxSet::none(); POSITIONS];
    let mut places = Places {
        edges: [row; RANKS],
        ends: row,
    };
    put_relaxes(&mut places, relaxes, 0);
    places
}

/// Puts relaxations, the first of which is number `from`, to their places.
fn put_relaxes(places: &mut Places, relaxes: &[Relax], from: u8)
    requires { from + length relaxes.now ≤ 64 }
    ensures kept { KeepsPlaces places.old places.new }
    ensures put { HasPlaces from relaxes.now places.new }
    ensures only { AddsPlaces places.old from relaxes.now places.new }
{
    match relaxes {
        [] => {}
        [first, rest @ ..] => {
            put_edges(&mut places.edges, first.edges(), 0, from);
            put_end(&mut places.ends, first.edges().len() - 1, from);
            put_relaxes(places, rest, from + 1);
        }
    }
}

/// Puts a relaxation to the places of its edges from a position on.
fn put_edges(rows: &mut [SetRow; RANKS], edges: &[Edge], position: usize, relax: u8)
    requires few { position + length edges.now ≤ POSITIONS }
    requires relax { relax < 64 }
    ensures kept { KeepsRows rows.old rows.new }
    ensures put { HasEdges edges.now position relax rows.new }
    ensures only { AddsEdges rows.old edges.now position relax rows.new }
{
    match edges {
        [] => {}
        [first, rest @ ..] => {
            put_edge(rows, first.rank(), position, relax);
            put_edges(rows, rest, position + 1, relax);
        }
    }
}

/// Puts a relaxation to the place of an edge of this rank at a position.
fn put_edge(rows: &mut [SetRow; RANKS], rank: u16, position: usize, relax: u8)
    requires rank { rank < EDGES }
    requires position { position < POSITIONS }
    requires relax { relax < 64 }
    ensures kept { KeepsRows rows.old rows.new }
    ensures put { InSet (set_at (row_at rows.new rank) position) relax }
    ensures only { AddsToRows rows.old rank position relax rows.new }
{
    let mut row = rows[usize::from(rank)];
    put_end(&mut row, position, relax);
    rows[usize::from(rank)] = row;
}

/// Puts a relaxation to the set for a position.
fn put_end(row: &mut SetRow, position: usize, relax: u8)
    requires position { position < POSITIONS }
    requires relax { relax < 64 }
    ensures kept { KeepsRow row.old row.new }
    ensures put { InSet (set_at row.new position) relax }
    ensures only { AddsToRow row.old position relax row.new }
{
    row[position] = row[position].with(relax);
}
