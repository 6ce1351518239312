ghost use Rattle.std.specs.Prelude.{◌≡◌, ◌&&◌};
ghost use Rattle.relax_edges.specs.EdgeTable.{same_dir, same_mark, source_of, source_mark};
ghost use Rattle.cycle_enum.specs.Letters.{IsLetter};

use relax_edges::{Dir, Edge, Mark};

/// An edge, with what a walk needs of it most often: its rank, and the direction and the mark of the access that it leaves.
#[derive(Clone, Copy)]
pub(crate) struct Letter {
    pub(crate) edge: Edge,
    pub(crate) rank: u16,
    pub(crate) source: Dir,
    pub(crate) source_mark: Mark,
}

impl Letter {
    /// The letter of an edge.
    pub(crate) fn of(edge: Edge) -> Letter
        ensures edge { result.edge ≡ edge }
        ensures letter { IsLetter result }
    {
        Letter {
            edge,
            rank: edge.rank(),
            source: edge.source(),
            source_mark: edge.source_mark(),
        }
    }

    /// Whether its edge leaves an access of this direction and with this mark.
    pub(crate) fn leaves(&self, dir: Dir, mark: Mark) -> bool
        requires { IsLetter self.now }
        ensures { result ≡ (same_dir dir (source_of self.now.edge) && same_mark mark (source_mark self.now.edge)) }
    {
        dir == self.source && mark == self.source_mark
    }
}
