ghost use Rattle.std.specs.Prelude.{◌≡◌, length};
ghost use Rattle.cycle_enum.specs.Spreads.{is_two, is_spread, spread_after, spread_left, spread_moved, spread_next, spread_kept};

use relax_edges::Edge;

/// In which threads a list of edges, read from its first edge on, leads to another location. The edges before the first one that
/// leads to another thread and those after the last one are of one thread, where the list is a cycle: its outer thread.
#[derive(Clone, Copy, Default)]
pub enum Spread {
    /// No edge leads to another thread or location.
    #[default]
    Bare,
    /// No edge leads to another thread, and some to another location.
    Moved,
    /// Some edge leads to another thread, and none to another location.
    Neither,
    /// Only edges after the last one that leads to another thread.
    Running,
    /// Only edges before the first one that leads to another thread.
    First,
    /// Edges before the first one that leads to another thread and after the last one, and no others.
    Ends,
    /// Only edges of one thread between two edges that lead to another thread.
    Between,
    /// Edges of two threads.
    Two,
}

impl Spread {
    /// After one more edge, which leads to another location.
    fn moved(self) -> Spread
        ensures { result ≡ spread_moved self }
    {
        match self {
            Spread::Bare => Spread::Moved,
            Spread::Moved => Spread::Moved,
            Spread::Neither => Spread::Running,
            Spread::Running => Spread::Running,
            Spread::First => Spread::Ends,
            Spread::Ends => Spread::Ends,
            Spread::Between => Spread::Two,
            Spread::Two => Spread::Two,
        }
    }

    /// After one more edge, which leads to another thread.
    fn left(self) -> Spread
        ensures { result ≡ spread_left self }
    {
        match self {
            Spread::Bare => Spread::Neither,
            Spread::Moved => Spread::First,
            Spread::Neither => Spread::Neither,
            Spread::Running => Spread::Between,
            Spread::First => Spread::First,
            Spread::Ends => Spread::Two,
            Spread::Between => Spread::Between,
            Spread::Two => Spread::Two,
        }
    }

    /// After one more edge, as far as it leads to another location.
    fn kept(self, edge: Edge) -> Spread
        ensures { result ≡ spread_kept self edge }
    {
        if edge.is_diff() { self.moved() } else { self }
    }

    /// After one more edge.
    pub(crate) fn next(self, edge: Edge) -> Spread
        ensures { result ≡ spread_next self edge }
    {
        if edge.is_external() {
            self.kept(edge).left()
        } else {
            self.kept(edge)
        }
    }

    /// After these edges too.
    pub(crate) fn after(self, edges: &[Edge]) -> Spread
        ensures { result ≡ spread_after self edges.now }
    {
        match edges {
            [] => self,
            [first, rest @ ..] => self.next(*first).after(rest),
        }
    }

    fn is_two(self) -> bool
        ensures { result ≡ is_two self }
    {
        match self {
            Spread::Two => true,
            Spread::Bare => false,
            Spread::Moved => false,
            Spread::Neither => false,
            Spread::Running => false,
            Spread::First => false,
            Spread::Ends => false,
            Spread::Between => false,
        }
    }
}

/// Whether edges of two threads of a cycle lead to another location.
pub fn is_spread(cycle: &[Edge]) -> bool
    ensures { result ≡ is_spread cycle.now }
{
    Spread::Bare.after(cycle).is_two()
}
