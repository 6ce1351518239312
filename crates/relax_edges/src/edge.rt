ghost use Rattle.std.specs.Prelude.{◌≡◌};
ghost use Rattle.relax_edges.specs.Marks.{markable_kind};
ghost use Rattle.relax_edges.specs.EdgeTable.{unmarked, marked_of, marked_edge, mark_fits, kind_of, kind_source, kind_target, kind_reach, kind_place, kind_is_of, source_of, target_of, reach_of, sd_of, source_mark, target_mark, mark_is_of, is_of_arch, joins_to, com_source, com_target, fence_is_of, dependency_is_of, is_external, is_diff};

use crate::kinds::{ArchName, Com, DepKind, Dir, FenceKind, Kind, Mark, Reach, Sd};
use crate::marked::{MarkedEdge, as_markable, ends_of};

/// An edge of a cycle, from one access to the next.
///
/// The rules are those of the diy part of the herdtools manual, "Candidate relaxations".
#[derive(Clone, Copy)]
pub enum Edge {
    /// A communication between two accesses to one location.
    Com {
        com: Com,
        reach: Reach,
    },
    /// Program order without a fence or dependency.
    Po {
        sd: Sd,
        from: Dir,
        to: Dir,
    },
    /// Program order with a fence between.
    Fenced {
        fence: FenceKind,
        sd: Sd,
        from: Dir,
        to: Dir,
    },
    /// An address or control dependency on a load.
    Dep {
        dep: DepKind,
        sd: Sd,
        to: Dir,
    },
    /// A data dependency of a store on a load.
    Data {
        sd: Sd,
    },
    /// One of the above with a mark at one end or both.
    Marked(MarkedEdge),
}

impl Default for Edge {
    fn default() -> Edge {
        Edge::Com {
            com: Com::Rf,
            reach: Reach::Internal,
        }
    }
}

impl Com {
    fn source(self) -> Dir
        ensures { result ≡ com_source self }
    {
        match self {
            Com::Rf | Com::Ws => Dir::W,
            Com::Fr => Dir::R,
        }
    }

    fn target(self) -> Dir
        ensures { result ≡ com_target self }
    {
        match self {
            Com::Rf => Dir::R,
            Com::Fr | Com::Ws => Dir::W,
        }
    }
}

impl FenceKind {
    fn is_of(self, arch: ArchName) -> bool
        ensures { result ≡ fence_is_of self arch }
    {
        match self {
            FenceKind::MFence => matches!(arch, ArchName::X86),
            FenceKind::Sync | FenceKind::LwSync | FenceKind::Eieio | FenceKind::ISync => {
                matches!(arch, ArchName::PPC)
            }
            FenceKind::DmbSy | FenceKind::DmbLd => matches!(arch, ArchName::AArch64),
            FenceKind::DmbSt => matches!(arch, ArchName::AArch64 | ArchName::ARM),
            FenceKind::Dmb => matches!(arch, ArchName::ARM),
            FenceKind::Fence { .. } => matches!(arch, ArchName::RISCV),
        }
    }
}

impl DepKind {
    fn is_of(self, arch: ArchName) -> bool
        ensures { result ≡ dependency_is_of self arch }
    {
        match self {
            DepKind::Addr | DepKind::Ctrl => !matches!(arch, ArchName::X86),
            DepKind::CtrlIsync => matches!(arch, ArchName::PPC),
            DepKind::CtrlIsb => matches!(arch, ArchName::AArch64 | ArchName::ARM),
        }
    }
}

impl Mark {
    /// Whether an access that does this may have the mark.
    fn fits(self, dir: Dir) -> bool
        ensures { result ≡ mark_fits dir self }
    {
        match (dir, self) {
            (_, Mark::Plain) | (Dir::R, Mark::Acquire) | (Dir::W, Mark::Release) => true,
            _ => false,
        }
    }

    fn is_of(self, arch: ArchName) -> bool
        ensures { result ≡ mark_is_of self arch }
    {
        matches!(self, Mark::Plain) || matches!(arch, ArchName::AArch64)
    }
}

impl Kind {
    fn source(self) -> Dir
        ensures { result ≡ kind_source self }
    {
        match self {
            Kind::Com { com, .. } => com.source(),
            Kind::Po { from, .. } | Kind::Fenced { from, .. } => from,
            Kind::Dep { .. } | Kind::Data { .. } => Dir::R,
        }
    }

    fn target(self) -> Dir
        ensures { result ≡ kind_target self }
    {
        match self {
            Kind::Com { com, .. } => com.target(),
            Kind::Po { to, .. } | Kind::Fenced { to, .. } | Kind::Dep { to, .. } => to,
            Kind::Data { .. } => Dir::W,
        }
    }

    fn reach(self) -> Reach
        ensures { result ≡ kind_reach self }
    {
        match self {
            Kind::Com { reach, .. } => reach,
            _ => Reach::Internal,
        }
    }

    fn place(self) -> Sd
        ensures { result ≡ kind_place self }
    {
        match self {
            Kind::Com { .. } => Sd::Same,
            Kind::Po { sd, .. }
            | Kind::Fenced { sd, .. }
            | Kind::Dep { sd, .. }
            | Kind::Data { sd } => sd,
        }
    }

    /// Whether the architecture has the edge of this kind without marks.
    pub fn is_of(self, arch: ArchName) -> bool
        ensures { result ≡ kind_is_of self arch }
    {
        match self {
            Kind::Com { .. } | Kind::Po { .. } => true,
            Kind::Fenced { fence, .. } => fence.is_of(arch),
            Kind::Dep { dep, .. } => dep.is_of(arch),
            Kind::Data { .. } => !matches!(arch, ArchName::X86),
        }
    }
}

impl Kind {
    /// The edge of this kind without marks.
    pub fn without_marks(self) -> Edge
        ensures { result ≡ unmarked self }
    {
        match self {
            Kind::Com { com, reach } => Edge::Com { com, reach },
            Kind::Po { sd, from, to } => Edge::Po { sd, from, to },
            Kind::Fenced {
                fence,
                sd,
                from,
                to,
            } => Edge::Fenced {
                fence,
                sd,
                from,
                to,
            },
            Kind::Dep { dep, sd, to } => Edge::Dep { dep, sd, to },
            Kind::Data { sd } => Edge::Data { sd },
        }
    }
}

impl MarkedEdge {
    /// The edge of a kind with these marks. `None` if both are plain, if a write has `Acquire` or a
    /// read has `Release`, or if AArch64 doesn't have the kind; otherwise there is one.
    #[tactic(auto, unfolding(crate::specs::EdgeTable::marked_of))]
    pub fn new(kind: Kind, from: Mark, to: Mark) -> Option<MarkedEdge>
        ensures { result ≡ marked_of kind from to }
    {
        if !from.fits(kind.source()) || !to.fits(kind.target()) {
            return None;
        }
        let kind = as_markable(kind)?;
        let ends = ends_of(from, to)?;
        Some(MarkedEdge { kind, ends })
    }

    /// The edge without its marks.
    pub fn kind(self) -> Kind
        ensures { result ≡ markable_kind self.kind }
    {
        self.kind.kind()
    }

    fn source_mark(self) -> Mark
        ensures { result ≡ source_mark (Edge.Marked self) }
    {
        self.ends.source_mark(self.kind().source())
    }

    fn target_mark(self) -> Mark
        ensures { result ≡ target_mark (Edge.Marked self) }
    {
        self.ends.target_mark(self.kind().target())
    }
}

impl Edge {
    /// The edge of a kind with these marks. If both are plain, it is the edge without marks; otherwise
    /// there is one exactly when AArch64 has the kind and each mark fits what its access does.
    #[tactic(auto, unfolding(crate::specs::EdgeTable::marked_edge))]
    pub fn with_marks(kind: Kind, from: Mark, to: Mark) -> Option<Edge>
        ensures { result ≡ marked_edge kind from to }
    {
        if matches!((from, to), (Mark::Plain, Mark::Plain)) {
            return Some(kind.without_marks());
        }
        Some(Edge::Marked(MarkedEdge::new(kind, from, to)?))
    }

    /// The edge without its marks.
    pub fn kind(self) -> Kind
        ensures { result ≡ kind_of self }
    {
        match self {
            Edge::Com { com, reach } => Kind::Com { com, reach },
            Edge::Po { sd, from, to } => Kind::Po { sd, from, to },
            Edge::Fenced {
                fence,
                sd,
                from,
                to,
            } => Kind::Fenced {
                fence,
                sd,
                from,
                to,
            },
            Edge::Dep { dep, sd, to } => Kind::Dep { dep, sd, to },
            Edge::Data { sd } => Kind::Data { sd },
            Edge::Marked(marked) => marked.kind(),
        }
    }

    /// The mark of the access that the edge leaves.
    pub fn source_mark(self) -> Mark
        ensures { result ≡ source_mark self }
    {
        match self {
            Edge::Marked(marked) => marked.source_mark(),
            _ => Mark::Plain,
        }
    }

    /// The mark of the access that the edge enters.
    pub fn target_mark(self) -> Mark
        ensures { result ≡ target_mark self }
    {
        match self {
            Edge::Marked(marked) => marked.target_mark(),
            _ => Mark::Plain,
        }
    }

    /// What the access that the edge leaves does.
    pub fn source(self) -> Dir
        ensures { result ≡ source_of self }
    {
        match self {
            Edge::Com { com, .. } => com.source(),
            Edge::Po { from, .. } | Edge::Fenced { from, .. } => from,
            Edge::Dep { .. } | Edge::Data { .. } => Dir::R,
            Edge::Marked(marked) => marked.kind().source(),
        }
    }

    /// What the access that the edge enters does.
    pub fn target(self) -> Dir
        ensures { result ≡ target_of self }
    {
        match self {
            Edge::Com { com, .. } => com.target(),
            Edge::Po { to, .. } | Edge::Fenced { to, .. } | Edge::Dep { to, .. } => to,
            Edge::Data { .. } => Dir::W,
            Edge::Marked(marked) => marked.kind().target(),
        }
    }

    /// Whether the edge stays in its thread. Only communications can leave it.
    pub fn reach(self) -> Reach
        ensures { result ≡ reach_of self }
    {
        match self {
            Edge::Com { reach, .. } => reach,
            Edge::Marked(marked) => marked.kind().reach(),
            _ => Reach::Internal,
        }
    }

    /// Whether the accesses that the edge joins are at one location.
    pub fn place(self) -> Sd
        ensures { result ≡ sd_of self }
    {
        match self {
            Edge::Com { .. } => Sd::Same,
            Edge::Po { sd, .. }
            | Edge::Fenced { sd, .. }
            | Edge::Dep { sd, .. }
            | Edge::Data { sd } => sd,
            Edge::Marked(marked) => marked.kind().place(),
        }
    }

    /// Whether the edge leads to another thread.
    pub fn is_external(self) -> bool
        ensures { result ≡ is_external self }
    {
        matches!(self.reach(), Reach::External)
    }

    /// Whether the edge leads to another location.
    pub fn is_diff(self) -> bool
        ensures { result ≡ is_diff self }
    {
        matches!(self.place(), Sd::Diff)
    }

    /// Whether the architecture has the edge: it has its fence or dependency, and its marks. All have
    /// communications and program order; only AArch64 has acquire and release.
    pub fn of_arch(self, arch: ArchName) -> bool
        ensures { result ≡ is_of_arch self arch }
    {
        match self {
            Edge::Com { .. } | Edge::Po { .. } => true,
            Edge::Fenced { fence, .. } => fence.is_of(arch),
            Edge::Dep { dep, .. } => dep.is_of(arch),
            Edge::Data { .. } => !matches!(arch, ArchName::X86),
            Edge::Marked(_) => self.marks_of_arch(arch),
        }
    }

    /// The same as `of_arch`, for edges with marks. A separate function keeps `of_arch` short for
    /// edges without marks, which are the most frequent.
    #[inline(never)]
    fn marks_of_arch(self, arch: ArchName) -> bool
        ensures { result ≡ is_of_arch self arch }
    {
        self.source_mark().is_of(arch) && self.target_mark().is_of(arch) && self.kind().is_of(arch)
    }

    /// Whether `next` can follow the edge: the access that the edge enters and the access that `next`
    /// leaves are both reads or both writes, and have the same mark.
    pub fn joins(self, next: Edge) -> bool
        ensures { result ≡ joins_to self next }
    {
        match (self, next) {
            (Edge::Marked(_), _) | (_, Edge::Marked(_)) => self.joins_by_marks(next),
            _ => self.target() == next.source(),
        }
    }

    /// The same as `joins`, for edges of which one has marks. A separate function keeps `joins` short
    /// for edges without marks, which are the most frequent.
    #[inline(never)]
    fn joins_by_marks(self, next: Edge) -> bool
        ensures { result ≡ joins_to self next }
    {
        self.target() == next.source() && self.target_mark() == next.source_mark()
    }
}
