ghost use Rattle.std.specs.Prelude.{◌≡◌, ◌<◌};
ghost use Rattle.cycle_enum.specs.Crossings.{crossing_next, crossing_none};

use crate::spread::Spread;
use relax_edges::{Edge, MAX_EDGES};

/// How the edges of a list lead to other threads and locations.
#[derive(Clone, Copy, Default)]
pub(crate) struct Crossing {
    /// In which threads edges lead to another location.
    pub(crate) spread: Spread,
    /// How many edges lead to another thread.
    pub(crate) outside: u8,
}

impl Crossing {
    /// Without edges.
    pub(crate) fn none() -> Crossing
        ensures { result ≡ crossing_none }
    {
        Crossing {
            spread: Spread::Bare,
            outside: 0,
        }
    }

    /// With an edge more.
    pub(crate) fn after(self, edge: Edge) -> Crossing
        requires { self.outside < MAX_EDGES }
        ensures { result ≡ crossing_next self edge }
    {
        let outside = if edge.is_external() {
            self.outside + 1
        } else {
            self.outside
        };
        Crossing {
            spread: self.spread.next(edge),
            outside,
        }
    }
}
