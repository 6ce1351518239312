ghost use Rattle.std.specs.Prelude.{◌≡◌, ◌+◌, ◌≤◌, ◌++◌, length};
ghost use Rattle.relax_edges.specs.declared.TheConstants.{MAX_EDGES};
ghost use Rattle.demo_tests.specs.FilledLinks.{IsFamilyCycle, edge_for, links_filled, seed_after, seed_past};

use crate::choices::Choices;
use crate::draws::Draws;
use arrayvec::ArrayVec;
use edge_algebra::Cycle;
use relax_edges::{Edge, MAX_EDGES};

/// The edges of one cycle.
pub(crate) type Edges = ArrayVec<Edge, MAX_EDGES>;

/// The edge picked for an edge of a family's cycle.
fn edge_for(slot: Edge, choices: &Choices, draws: &mut Draws) -> Edge
    ensures edge { result ≡ edge_for choices.now.arch draws.old.seed slot }
    ensures seed { draws.new.seed ≡ seed_past draws.old.seed slot }
{
    if slot.is_external() {
        return slot;
    }
    choices.choice(draws.draw(), slot)
}

/// Adds the edges picked for those of a family's cycle.
fn fill(slots: &[Edge], choices: &Choices, draws: &mut Draws, edges: &mut Edges)
    requires { length edges.old.items + length slots.now ≤ MAX_EDGES }
    ensures edges { edges.new.items ≡ edges.old.items ++ links_filled choices.now.arch draws.old.seed slots.now }
    ensures seed { draws.new.seed ≡ seed_after draws.old.seed slots.now }
{
    match slots {
        [] => {}
        [slot, rest @ ..] => {
            edges.push(edge_for(*slot, choices, draws));
            fill(rest, choices, draws, edges);
        }
    }
}

/// The next cycle that is drawn for the family whose cycle has the edges `slots`. Its edges are collected in `edges`, whose old
/// contents don't matter.
pub(crate) fn draw_cycle(
    slots: &[Edge],
    choices: &Choices,
    draws: &mut Draws,
    edges: &mut Edges,
) -> Cycle
    requires { IsFamilyCycle slots.now }
    ensures cycle { result ≡ links_filled choices.now.arch draws.old.seed slots.now }
    ensures seed { draws.new.seed ≡ seed_after draws.old.seed slots.now }
{
    edges.clear();
    fill(slots, choices, draws, edges);
    Cycle::of(edges.as_slice())
}
