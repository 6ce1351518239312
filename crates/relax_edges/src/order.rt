ghost use Rattle.std.specs.{Prelude.{◌≡◌, ◌<◌, ◌≤◌, ◌+◌, ◌*◌, ◌==◌, ◌↔◌, IsTrue, Some}, Cmp.{partial_order_from_own_ties}, Cmp.Rules.{comparing}};
ghost use Rattle.std.specs.{Cmp.Lexicographic.{slice_cmp}, Ordering.{nat_cmp, on, as_partial_cmp}};
ghost use Rattle.std.proofs.Common.{rules};
ghost use Rattle.relax_edges.specs.Order.{rank_of, kind_rank, ends_rank, com_rank, dir_rank, sd_rank, reach_rank, pick_rank, fence_rank, fence_words, dependency_rank, dependency_words};
ghost use Rattle.relax_edges.specs.{Marks.{markable_kind, markable_fence, markable_dependency}, WordParts.{word_of}};

use crate::edge::Edge;
use crate::kinds::{Com, DepKind, Dir, FenceKind, Pick, Reach, Sd};
use crate::marked::{Dmb, MarkableDep, MarkableKind, MarkedEdge, MarkedEnds};
use std::cmp::Ordering;

/// The number of edges.
pub const EDGES: u16 = 332;

impl Dir {
    fn rank(self) -> u16
        ensures { result ≡ dir_rank self }
    {
        match self {
            Dir::R => 0,
            Dir::W => 1,
        }
    }
}

impl Sd {
    fn rank(self) -> u16
        ensures { result ≡ sd_rank self }
    {
        match self {
            Sd::Diff => 0,
            Sd::Same => 1,
        }
    }
}

impl Reach {
    fn rank(self) -> u16
        ensures { result ≡ reach_rank self }
    {
        match self {
            Reach::External => 0,
            Reach::Internal => 1,
        }
    }
}

impl Pick {
    fn rank(self) -> u16
        ensures { result ≡ pick_rank self }
    {
        match self {
            Pick::R => 0,
            Pick::RW => 1,
            Pick::W => 2,
        }
    }
}

impl Com {
    fn rank(self) -> u16
        ensures { result ≡ com_rank self }
    {
        match self {
            Com::Fr => 244,
            Com::Rf => 308,
            Com::Ws => 324,
        }
    }
}

impl FenceKind {
    /// The rank of the edge without marks that has this fence and this choice of location and directions.
    fn rank(self, choice: u16) -> u16
        requires { choice < 8 }
        ensures { result ≡ fence_rank self + fence_words self * choice }
    {
        match self {
            FenceKind::DmbLd => 4 * choice,
            FenceKind::DmbSt => 32 + 4 * choice,
            FenceKind::DmbSy => 64 + 4 * choice,
            FenceKind::Dmb => 96 + choice,
            FenceKind::Eieio => 164 + choice,
            FenceKind::Fence { pred, succ } => 172 + 8 * (3 * pred.rank() + succ.rank()) + choice,
            FenceKind::ISync => 252 + choice,
            FenceKind::LwSync => 260 + choice,
            FenceKind::MFence => 268 + choice,
            FenceKind::Sync => 316 + choice,
        }
    }
}

impl DepKind {
    /// The rank of the edge without marks that has this dependency and this choice of location and
    /// direction.
    fn rank(self, choice: u16) -> u16
        requires { choice < 4 }
        ensures { result ≡ dependency_rank self + dependency_words self * choice }
    {
        match self {
            DepKind::Addr => 104 + 4 * choice,
            DepKind::CtrlIsb => 120 + 4 * choice,
            DepKind::CtrlIsync => 136 + choice,
            DepKind::Ctrl => 140 + 4 * choice,
        }
    }
}

/// The position of a choice of location and directions among the eight, from 0.
fn choice_rank(sd: Sd, from: Dir, to: Dir) -> u16
    ensures value { result ≡ 4 * sd_rank sd + 2 * dir_rank from + dir_rank to }
    ensures below { result < 8 }
{
    4 * sd.rank() + 2 * from.rank() + to.rank()
}

impl MarkableKind {
    fn rank(self) -> u16
        ensures value { result ≡ kind_rank (markable_kind self) }
        ensures below { result ≤ 328 }
    {
        match self {
            MarkableKind::Com { com, reach } => com.rank() + 4 * reach.rank(),
            MarkableKind::Po { sd, from, to } => 276 + 4 * choice_rank(sd, from, to),
            MarkableKind::Fenced {
                fence,
                sd,
                from,
                to,
            } => fence.rank() + 4 * choice_rank(sd, from, to),
            MarkableKind::Dep { dep, sd, to } => dep.rank() + 4 * (2 * sd.rank() + to.rank()),
            MarkableKind::Data { sd } => 156 + 4 * sd.rank(),
        }
    }
}

impl Dmb {
    fn rank(self) -> u16
        ensures value { result ≡ fence_rank (markable_fence self) }
        ensures words { fence_words (markable_fence self) ≡ 4 }
    {
        match self {
            Dmb::Ld => 0,
            Dmb::St => 32,
            Dmb::Sy => 64,
        }
    }
}

impl MarkableDep {
    fn rank(self) -> u16
        ensures value { result ≡ dependency_rank (markable_dependency self) }
        ensures words { dependency_words (markable_dependency self) ≡ 4 }
    {
        match self {
            MarkableDep::Addr => 104,
            MarkableDep::CtrlIsb => 120,
            MarkableDep::Ctrl => 140,
        }
    }
}

impl MarkedEnds {
    fn rank(self) -> u16
        ensures { result ≡ ends_rank self }
    {
        match self {
            MarkedEnds::Both => 1,
            MarkedEnds::Source => 2,
            MarkedEnds::Target => 3,
        }
    }
}

impl MarkedEdge {
    #[tactic(auto, unfolding(crate::specs::Order::rank_of))]
    fn rank(self) -> u16
        ensures value { result ≡ rank_of (Edge.Marked self) }
        ensures below { result < EDGES }
    {
        self.kind.rank() + self.ends.rank()
    }
}

impl Edge {
    /// The position of the edge among all edges, in the byte order of their printed names, from 0.
    #[tactic(auto, unfolding(crate::specs::Order::rank_of))]
    pub fn rank(self) -> u16
        ensures value { result ≡ rank_of self }
        ensures below { result < EDGES }
    {
        match self {
            Edge::Com { com, reach } => com.rank() + 4 * reach.rank(),
            Edge::Po { sd, from, to } => 276 + 4 * choice_rank(sd, from, to),
            Edge::Fenced {
                fence,
                sd,
                from,
                to,
            } => fence.rank(choice_rank(sd, from, to)),
            Edge::Dep { dep, sd, to } => dep.rank(2 * sd.rank() + to.rank()),
            Edge::Data { sd } => 156 + 4 * sd.rank(),
            Edge::Marked(marked) => marked.rank(),
        }
    }
}

/// Two edges are equal exactly when they are the same edge.
impl PartialEq for Edge {
    ghost eq = { on rank_of ◌==◌ };

    ghost laws = { Prim.search (comparing, rules) };

    fn eq(&self, other: &Edge) -> bool
        ensures value { result ≡ (rank_of self.now == rank_of other.now) }
        ensures same { IsTrue result ↔ (self.now ≡ other.now) }
    {
        self.rank() == other.rank()
    }
}

impl Eq for Edge {
    ghost laws = { Prim.search (comparing, rules) };
}

/// Edges are ordered as their printed names are, byte by byte.
impl Ord for Edge {
    ghost cmp = { on rank_of nat_cmp };

    ghost total = { Prim.search (comparing, rules) };

    ghost matches_partial_cmp = { Prim.search (comparing, rules) };

    ghost matches_eq = { Prim.search (comparing, rules) };

    #[tactic(auto, using(crate::proofs::Ranks::rank_orders))]
    fn cmp(&self, other: &Edge) -> Ordering
        ensures ranks { result ≡ nat_cmp (rank_of self.now) (rank_of other.now) }
        ensures words { result ≡ slice_cmp nat_cmp (word_of self.now) (word_of other.now) }
    {
        self.rank().cmp(&other.rank())
    }
}

impl PartialOrd for Edge {
    ghost partial_cmp = { as_partial_cmp (on rank_of nat_cmp) };

    ghost laws = { partial_order_from_own_ties (Prim.search (comparing, rules)) (Prim.search (comparing, rules)) };

    #[tactic(auto, using(crate::proofs::Ranks::rank_orders))]
    fn partial_cmp(&self, other: &Edge) -> Option<Ordering>
        ensures ranks { result ≡ Some (nat_cmp (rank_of self.now) (rank_of other.now)) }
        ensures words { result ≡ Some (slice_cmp nat_cmp (word_of self.now) (word_of other.now)) }
    {
        Some(self.cmp(other))
    }
}
