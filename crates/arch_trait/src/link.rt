ghost use Rattle.std.specs.Prelude.{◌≡◌};
ghost use Rattle.arch_trait.specs.Links.{edge_link, depends_on_load, branches};

use relax_edges::{DepKind, Edge, FenceKind, Kind};

/// How an access is tied to the one before it in its thread.
#[derive(Clone, Copy, Default)]
pub enum Link {
    /// Only by program order.
    #[default]
    Plain,
    /// By a fence between them.
    Fence(FenceKind),
    /// The address of the access depends on the load before it.
    Addr,
    /// The value that the access stores depends on the load before it.
    Data,
    /// A branch on the load before it comes between them.
    Ctrl,
    /// The same, with an `isync` after the branch.
    CtrlIsync,
    /// The same, with an `ISB` after the branch.
    CtrlIsb,
}

/// The link that an edge within a thread asks for, whatever its marks. For a communication it is
/// `Plain`.
pub fn link_of(edge: Edge) -> Link
    ensures { result ≡ edge_link edge }
{
    match edge.kind() {
        Kind::Com { .. } | Kind::Po { .. } => Link::Plain,
        Kind::Fenced { fence, .. } => Link::Fence(fence),
        Kind::Data { .. } => Link::Data,
        Kind::Dep { dep, .. } => match dep {
            DepKind::Addr => Link::Addr,
            DepKind::Ctrl => Link::Ctrl,
            DepKind::CtrlIsync => Link::CtrlIsync,
            DepKind::CtrlIsb => Link::CtrlIsb,
        },
    }
}

impl Link {
    /// Whether the access depends on the load before it.
    pub fn is_dependency(self) -> bool
        ensures { result ≡ depends_on_load self }
    {
        !matches!(self, Link::Plain | Link::Fence(_))
    }

    /// Whether a branch comes before the access.
    pub fn branches(self) -> bool
        ensures { result ≡ branches self }
    {
        matches!(self, Link::Ctrl | Link::CtrlIsync | Link::CtrlIsb)
    }
}
