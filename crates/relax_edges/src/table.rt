ghost use Rattle.std.specs.Prelude.{◌≡◌, ◌<◌, length};
ghost use Rattle.relax_edges.specs.{Order.rank_of, AllEdges.edges_in_order};

use crate::edge::Edge;
use crate::kinds::{Com, DepKind, Dir, FenceKind, Pick, Reach, Sd};
use crate::marked::{Dmb, MarkableDep, MarkableKind, MarkedEdge, MarkedEnds};
use crate::order::EDGES;

/// An edge that may have marks, and the same with marks at both ends, at its source and at its target.
macro_rules! with_marks {
    ($edge:expr, $kind:expr) => {
        [
            $edge,
            Edge::Marked(MarkedEdge { kind: $kind, ends: MarkedEnds::Both }),
            Edge::Marked(MarkedEdge { kind: $kind, ends: MarkedEnds::Source }),
            Edge::Marked(MarkedEdge { kind: $kind, ends: MarkedEnds::Target }),
        ]
    };
}

macro_rules! communication {
    ($com:ident, $reach:ident) => {
        with_marks!(
            Edge::Com { com: Com::$com, reach: Reach::$reach },
            MarkableKind::Com { com: Com::$com, reach: Reach::$reach }
        )
    };
}

macro_rules! program_order {
    ($sd:ident, $from:ident, $to:ident) => {
        with_marks!(
            Edge::Po { sd: Sd::$sd, from: Dir::$from, to: Dir::$to },
            MarkableKind::Po { sd: Sd::$sd, from: Dir::$from, to: Dir::$to }
        )
    };
}

macro_rules! barrier {
    ($dmb:ident, $fence:ident, $sd:ident, $from:ident, $to:ident) => {
        with_marks!(
            Edge::Fenced { fence: FenceKind::$fence, sd: Sd::$sd, from: Dir::$from, to: Dir::$to },
            MarkableKind::Fenced { fence: Dmb::$dmb, sd: Sd::$sd, from: Dir::$from, to: Dir::$to }
        )
    };
}

macro_rules! dependency {
    ($dep:ident, $sd:ident, $to:ident) => {
        with_marks!(
            Edge::Dep { dep: DepKind::$dep, sd: Sd::$sd, to: Dir::$to },
            MarkableKind::Dep { dep: MarkableDep::$dep, sd: Sd::$sd, to: Dir::$to }
        )
    };
}

macro_rules! data {
    ($sd:ident) => {
        with_marks!(Edge::Data { sd: Sd::$sd }, MarkableKind::Data { sd: Sd::$sd })
    };
}

/// The edges of a fence without marks, and of one choice of location.
macro_rules! fence {
    ($fence:expr, $sd:ident) => {
        [
            Edge::Fenced { fence: $fence, sd: Sd::$sd, from: Dir::R, to: Dir::R },
            Edge::Fenced { fence: $fence, sd: Sd::$sd, from: Dir::R, to: Dir::W },
            Edge::Fenced { fence: $fence, sd: Sd::$sd, from: Dir::W, to: Dir::R },
            Edge::Fenced { fence: $fence, sd: Sd::$sd, from: Dir::W, to: Dir::W },
        ]
    };
}

macro_rules! risc_v {
    ($pred:ident, $succ:ident, $sd:ident) => {
        fence!(FenceKind::Fence { pred: Pick::$pred, succ: Pick::$succ }, $sd)
    };
}

macro_rules! power_dependency {
    () => {
        [
            Edge::Dep { dep: DepKind::CtrlIsync, sd: Sd::Diff, to: Dir::R },
            Edge::Dep { dep: DepKind::CtrlIsync, sd: Sd::Diff, to: Dir::W },
            Edge::Dep { dep: DepKind::CtrlIsync, sd: Sd::Same, to: Dir::R },
            Edge::Dep { dep: DepKind::CtrlIsync, sd: Sd::Same, to: Dir::W },
        ]
    };
}

/// All edges, in the order of their printed names and row by row, so that the index of each is its rank.
const TABLE: [[Edge; 4]; 83] = [
    barrier!(Ld, DmbLd, Diff, R, R),
    barrier!(Ld, DmbLd, Diff, R, W),
    barrier!(Ld, DmbLd, Diff, W, R),
    barrier!(Ld, DmbLd, Diff, W, W),
    barrier!(Ld, DmbLd, Same, R, R),
    barrier!(Ld, DmbLd, Same, R, W),
    barrier!(Ld, DmbLd, Same, W, R),
    barrier!(Ld, DmbLd, Same, W, W),
    barrier!(St, DmbSt, Diff, R, R),
    barrier!(St, DmbSt, Diff, R, W),
    barrier!(St, DmbSt, Diff, W, R),
    barrier!(St, DmbSt, Diff, W, W),
    barrier!(St, DmbSt, Same, R, R),
    barrier!(St, DmbSt, Same, R, W),
    barrier!(St, DmbSt, Same, W, R),
    barrier!(St, DmbSt, Same, W, W),
    barrier!(Sy, DmbSy, Diff, R, R),
    barrier!(Sy, DmbSy, Diff, R, W),
    barrier!(Sy, DmbSy, Diff, W, R),
    barrier!(Sy, DmbSy, Diff, W, W),
    barrier!(Sy, DmbSy, Same, R, R),
    barrier!(Sy, DmbSy, Same, R, W),
    barrier!(Sy, DmbSy, Same, W, R),
    barrier!(Sy, DmbSy, Same, W, W),
    fence!(FenceKind::Dmb, Diff),
    fence!(FenceKind::Dmb, Same),
    dependency!(Addr, Diff, R),
    dependency!(Addr, Diff, W),
    dependency!(Addr, Same, R),
    dependency!(Addr, Same, W),
    dependency!(CtrlIsb, Diff, R),
    dependency!(CtrlIsb, Diff, W),
    dependency!(CtrlIsb, Same, R),
    dependency!(CtrlIsb, Same, W),
    power_dependency!(),
    dependency!(Ctrl, Diff, R),
    dependency!(Ctrl, Diff, W),
    dependency!(Ctrl, Same, R),
    dependency!(Ctrl, Same, W),
    data!(Diff),
    data!(Same),
    fence!(FenceKind::Eieio, Diff),
    fence!(FenceKind::Eieio, Same),
    risc_v!(R, R, Diff),
    risc_v!(R, R, Same),
    risc_v!(R, RW, Diff),
    risc_v!(R, RW, Same),
    risc_v!(R, W, Diff),
    risc_v!(R, W, Same),
    risc_v!(RW, R, Diff),
    risc_v!(RW, R, Same),
    risc_v!(RW, RW, Diff),
    risc_v!(RW, RW, Same),
    risc_v!(RW, W, Diff),
    risc_v!(RW, W, Same),
    risc_v!(W, R, Diff),
    risc_v!(W, R, Same),
    risc_v!(W, RW, Diff),
    risc_v!(W, RW, Same),
    risc_v!(W, W, Diff),
    risc_v!(W, W, Same),
    communication!(Fr, External),
    communication!(Fr, Internal),
    fence!(FenceKind::ISync, Diff),
    fence!(FenceKind::ISync, Same),
    fence!(FenceKind::LwSync, Diff),
    fence!(FenceKind::LwSync, Same),
    fence!(FenceKind::MFence, Diff),
    fence!(FenceKind::MFence, Same),
    program_order!(Diff, R, R),
    program_order!(Diff, R, W),
    program_order!(Diff, W, R),
    program_order!(Diff, W, W),
    program_order!(Same, R, R),
    program_order!(Same, R, W),
    program_order!(Same, W, R),
    program_order!(Same, W, W),
    communication!(Rf, External),
    communication!(Rf, Internal),
    fence!(FenceKind::Sync, Diff),
    fence!(FenceKind::Sync, Same),
    communication!(Ws, External),
    communication!(Ws, Internal),
];

pub(crate) fn edges() -> &'static [Edge]
    ensures edges { result.now ≡ edges_in_order }
    ensures count { length result.now ≡ EDGES }
{
    TABLE.as_flattened()
}

impl Edge {
    /// The edge of a rank below `EDGES`. The ranks from 0 on give each edge once, in the byte order
    /// of their printed names.
    pub fn at_rank(k: u16) -> Edge
        requires { k < EDGES }
        ensures { rank_of result ≡ k }
    {
        edges()[usize::from(k)]
    }
}
