ghost use Rattle.std.specs.Prelude.{◌≡◌, ◌<◌, length, Some};
ghost use Rattle.cycle_events.specs.Values.{value_of};
ghost use Rattle.tests_force_cycles.specs.{CycleSteps.{event_link, event_step}, TestOf.{plain}};
ghost use Rattle.co_tests.specs.CutResolution.{cut_of, cut_open};
ghost use Rattle.co_tests.specs.Shape.{HasShape};

use crate::shape::write_count;
use arch_trait::{Link, Step, link_of};
use relax_edges::Edge;

/// The access of event `i` of a cycle at one location that is cut at an edge.
pub fn step_of(edges: &[Edge], cut: usize, i: usize) -> Step
    requires shape { HasShape edges.now }
    requires cut { cut_of edges.now ≡ Some cut }
    requires within { i < length edges.now }
    ensures { result ≡ event_step (cut_open edges.now) plain i }
{
    Step {
        dir: edges[i].source(),
        mark: edges[i].source_mark(),
        place: 0,
        value: value_of(edges, cut, i),
        link: link_into(edges, i),
    }
}

/// How event `i` is tied to the event before it in its thread.
fn link_into(edges: &[Edge], i: usize) -> Link
    requires { i < length edges.now }
    ensures { result ≡ event_link (cut_open edges.now) i }
{
    if i == 0 || edges[i - 1].is_external() {
        return Link::Plain;
    }
    link_of(edges[i - 1])
}

/// The value of an event: how many writes there are from the event that the cut enters, once round the
/// cycle, up to and including this event. The cycle's last edge is external, it is over one location, it
/// has at most two writes, and `cut` is its cut.
pub fn value_of(edges: &[Edge], cut: usize, event: usize) -> u8
    requires shape { HasShape edges.now }
    requires cut { cut_of edges.now ≡ Some cut }
    requires within { event < length edges.now }
    ensures { result ≡ value_of (cut_open edges.now) event }
{
    let before = write_count(&edges[..cut + 1]);
    let with = write_count(&edges[..event + 1]);
    if event > cut {
        with - before
    } else {
        write_count(edges) + with - before
    }
}
