use arrayvec::ArrayVec;
use relax_edges::{Edge, MAX_EDGES};

/// The edges of a text, as they are kept.
#[derive(Drop)]
pub enum EdgeList {
    /// All of them.
    Whole(ArrayVec<Edge, MAX_EDGES>),
    /// There are more than `MAX_EDGES`.
    TooLong,
}

impl EdgeList {
    ghost use Rattle.std.specs.Prelude.{◌≡◌, []};
    ghost use Rattle.edges_from_text.specs.KeptEdges.{kept_edges, pushed};

    /// The empty list.
    pub fn new() -> EdgeList
        ensures { result ≡ kept_edges [] }
    {
        EdgeList::Whole(ArrayVec::new())
    }

    /// Empties the list, also if it was too long.
    pub fn clear(&mut self)
        ensures { self.new ≡ kept_edges [] }
    {
        match self {
            EdgeList::Whole(list) => list.clear(),
            EdgeList::TooLong => *self = EdgeList::new(),
        }
    }

    /// Keeps one more edge, or becomes `TooLong` if there is no space for it.
    pub(crate) fn push(&mut self, edge: Edge)
        ensures { self.new ≡ pushed self.old edge }
    {
        if let EdgeList::Whole(list) = self {
            if list.is_full() {
                *self = EdgeList::TooLong;
            } else {
                list.push(edge);
            }
        }
    }
}
