ghost use Rattle.std.specs.Prelude.{◌≡◌, true, Some};
ghost use Rattle.relax_edges.specs.Marks.{markable_fence, markable_dependency, markable_kind, as_markable, marks_source, marks_target, mark_of, ends_marked};

use crate::kinds::{Com, DepKind, Dir, FenceKind, Kind, Mark, Reach, Sd};

/// A data memory barrier of AArch64.
#[derive(Clone, Copy)]
pub(crate) enum Dmb {
    Sy,
    Ld,
    St,
}

/// A dependency of AArch64 through an address or a branch.
#[derive(Clone, Copy)]
pub(crate) enum MarkableDep {
    Addr,
    Ctrl,
    CtrlIsb,
}

/// The kind of an edge that may have marks: one of the 52 that AArch64 has.
#[derive(Clone, Copy)]
pub(crate) enum MarkableKind {
    Com {
        com: Com,
        reach: Reach,
    },
    Po {
        sd: Sd,
        from: Dir,
        to: Dir,
    },
    Fenced {
        fence: Dmb,
        sd: Sd,
        from: Dir,
        to: Dir,
    },
    Dep {
        dep: MarkableDep,
        sd: Sd,
        to: Dir,
    },
    Data {
        sd: Sd,
    },
}

/// Which of the accesses of an edge have a mark.
#[derive(Clone, Copy)]
pub(crate) enum MarkedEnds {
    Both,
    Source,
    Target,
}

/// An edge of AArch64 with a mark at one end or both: a marked read is a load-acquire, a marked write
/// a store-release.
#[derive(Clone, Copy)]
pub struct MarkedEdge {
    pub(crate) kind: MarkableKind,
    pub(crate) ends: MarkedEnds,
}

impl Dmb {
    fn fence(self) -> FenceKind
        ensures { result ≡ markable_fence self }
    {
        match self {
            Dmb::Sy => FenceKind::DmbSy,
            Dmb::Ld => FenceKind::DmbLd,
            Dmb::St => FenceKind::DmbSt,
        }
    }
}

impl MarkableDep {
    fn dependency(self) -> DepKind
        ensures { result ≡ markable_dependency self }
    {
        match self {
            MarkableDep::Addr => DepKind::Addr,
            MarkableDep::Ctrl => DepKind::Ctrl,
            MarkableDep::CtrlIsb => DepKind::CtrlIsb,
        }
    }
}

impl MarkableKind {
    /// The same kind as a `Kind`, a type that also has the kinds that can't have marks.
    pub(crate) fn kind(self) -> Kind
        ensures { result ≡ markable_kind self }
    {
        match self {
            MarkableKind::Com { com, reach } => Kind::Com { com, reach },
            MarkableKind::Po { sd, from, to } => Kind::Po { sd, from, to },
            MarkableKind::Fenced {
                fence,
                sd,
                from,
                to,
            } => Kind::Fenced {
                fence: fence.fence(),
                sd,
                from,
                to,
            },
            MarkableKind::Dep { dep, sd, to } => Kind::Dep {
                dep: dep.dependency(),
                sd,
                to,
            },
            MarkableKind::Data { sd } => Kind::Data { sd },
        }
    }
}

fn fenced_kind(fence: Dmb, sd: Sd, from: Dir, to: Dir) -> Option<MarkableKind>
    ensures { result ≡ Some (MarkableKind.Fenced fence sd from to) }
{
    Some(MarkableKind::Fenced {
        fence,
        sd,
        from,
        to,
    })
}

/// The kind as one that may have marks, if AArch64 has it.
pub(crate) fn as_markable(kind: Kind) -> Option<MarkableKind>
    ensures { result ≡ as_markable kind }
{
    match kind {
        Kind::Com { com, reach } => Some(MarkableKind::Com { com, reach }),
        Kind::Po { sd, from, to } => Some(MarkableKind::Po { sd, from, to }),
        Kind::Fenced {
            fence,
            sd,
            from,
            to,
        } => match fence {
            FenceKind::DmbSy => fenced_kind(Dmb::Sy, sd, from, to),
            FenceKind::DmbLd => fenced_kind(Dmb::Ld, sd, from, to),
            FenceKind::DmbSt => fenced_kind(Dmb::St, sd, from, to),
            _ => None,
        },
        Kind::Dep { dep, sd, to } => {
            let dep = match dep {
                DepKind::Addr => MarkableDep::Addr,
                DepKind::Ctrl => MarkableDep::Ctrl,
                DepKind::CtrlIsb => MarkableDep::CtrlIsb,
                DepKind::CtrlIsync => return None,
            };
            Some(MarkableKind::Dep { dep, sd, to })
        }
        Kind::Data { sd } => Some(MarkableKind::Data { sd }),
    }
}

/// Which ends these marks mark, if any.
pub(crate) fn ends_of(from: Mark, to: Mark) -> Option<MarkedEnds>
    ensures { result ≡ ends_marked from to }
{
    match (from, to) {
        (Mark::Plain, Mark::Plain) => None,
        (Mark::Plain, _) => Some(MarkedEnds::Target),
        (_, Mark::Plain) => Some(MarkedEnds::Source),
        _ => Some(MarkedEnds::Both),
    }
}

impl MarkedEnds {
    /// The mark of the access that the edge leaves, by what the access does.
    pub(crate) fn source_mark(self, dir: Dir) -> Mark
        ensures { result ≡ mark_of (marks_source self) dir }
    {
        match self {
            MarkedEnds::Both | MarkedEnds::Source => mark_of(dir),
            MarkedEnds::Target => Mark::Plain,
        }
    }

    /// The mark of the access that the edge enters, by what the access does.
    pub(crate) fn target_mark(self, dir: Dir) -> Mark
        ensures { result ≡ mark_of (marks_target self) dir }
    {
        match self {
            MarkedEnds::Both | MarkedEnds::Target => mark_of(dir),
            MarkedEnds::Source => Mark::Plain,
        }
    }
}

/// The mark of a marked access, by what the access does.
fn mark_of(dir: Dir) -> Mark
    ensures { result ≡ mark_of true dir }
{
    match dir {
        Dir::R => Mark::Acquire,
        Dir::W => Mark::Release,
    }
}
