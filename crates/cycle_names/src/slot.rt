ghost use Rattle.std.specs.Prelude.{◌≡◌};
ghost use Rattle.cycle_names.specs.Fitting.{slot_edge, com_slot, link_slot, kind_slot, edge_slot};

use relax_edges::{Com, Dir, Edge, Kind, Reach, Sd};

/// What an edge of a family's cycle joins: an external edge joins accesses of two threads; a link, named
/// by what its accesses do, joins two accesses of one thread to different locations.
#[derive(Clone, Copy, Default)]
pub(crate) enum Slot {
    #[default]
    Rfe,
    Fre,
    Wse,
    RR,
    RW,
    WR,
    WW,
}

impl Slot {
    /// The edge of a family's cycle that the slot represents.
    pub(crate) fn edge(self) -> Edge
        ensures { result ≡ slot_edge self }
    {
        match self {
            Slot::Rfe => external(Com::Rf),
            Slot::Fre => external(Com::Fr),
            Slot::Wse => external(Com::Ws),
            Slot::RR => link(Dir::R, Dir::R),
            Slot::RW => link(Dir::R, Dir::W),
            Slot::WR => link(Dir::W, Dir::R),
            Slot::WW => link(Dir::W, Dir::W),
        }
    }
}

fn external(kind: Com) -> Edge
    ensures { result ≡ Edge.Com kind Reach.External }
{
    Edge::Com {
        com: kind,
        reach: Reach::External,
    }
}

fn link(from: Dir, to: Dir) -> Edge
    ensures { result ≡ Edge.Po Sd.Diff from to }
{
    Edge::Po {
        sd: Sd::Diff,
        from,
        to,
    }
}

fn com_slot(kind: Com) -> Slot
    ensures { result ≡ com_slot kind }
{
    match kind {
        Com::Rf => Slot::Rfe,
        Com::Fr => Slot::Fre,
        Com::Ws => Slot::Wse,
    }
}

fn link_slot(from: Dir, to: Dir) -> Slot
    ensures { result ≡ link_slot from to }
{
    match (from, to) {
        (Dir::R, Dir::R) => Slot::RR,
        (Dir::R, Dir::W) => Slot::RW,
        (Dir::W, Dir::R) => Slot::WR,
        (Dir::W, Dir::W) => Slot::WW,
    }
}

/// What an edge joins, whatever its marks, if it is a link or external: a cycle of a family has no
/// other edges.
pub(crate) fn slot_of(edge: &Edge) -> Option<Slot>
    ensures { result ≡ edge_slot edge.now }
{
    kind_slot(edge.kind())
}

/// What an edge of a kind joins, if it is a link or external.
fn kind_slot(kind: Kind) -> Option<Slot>
    ensures { result ≡ kind_slot kind }
{
    match kind {
        Kind::Com {
            com,
            reach: Reach::External,
        } => Some(com_slot(com)),
        Kind::Po {
            sd: Sd::Diff,
            from,
            to,
        }
        | Kind::Fenced {
            sd: Sd::Diff,
            from,
            to,
            ..
        } => Some(link_slot(from, to)),
        Kind::Dep {
            sd: Sd::Diff,
            to,
            ..
        } => Some(link_slot(Dir::R, to)),
        Kind::Data { sd: Sd::Diff } => Some(Slot::RW),
        _ => None,
    }
}
