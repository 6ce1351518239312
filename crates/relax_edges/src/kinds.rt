/// What an access does: it reads or it writes.
#[derive(Clone, Copy, Default, PartialEq, Eq)]
pub enum Dir {
    #[default]
    R,
    W,
}

/// Whether two accesses are at the same location or at different ones.
#[derive(Clone, Copy)]
pub enum Sd {
    Same,
    Diff,
}

/// Whether an edge stays in one thread or leads to another.
#[derive(Clone, Copy)]
pub enum Reach {
    Internal,
    External,
}

/// The architectures that tests are made for.
#[derive(Clone, Copy, Debug)]
pub enum ArchName {
    X86,
    PPC,
    AArch64,
    RISCV,
    /// ARM version 7.
    ARM,
}

/// The communications between accesses to one location: reads-from, from-read, and write
/// serialization (the coherence order).
#[derive(Clone, Copy)]
pub enum Com {
    Rf,
    Fr,
    Ws,
}

/// The accesses that one side of a RISC-V fence orders.
#[derive(Clone, Copy, Debug, PartialEq, Eq)]
pub enum Pick {
    R,
    W,
    RW,
}

/// The fences of the architectures. AArch64 and ARM have `DmbSt`; only one architecture has each other.
#[derive(Clone, Copy, Debug, PartialEq, Eq)]
pub enum FenceKind {
    MFence,
    Sync,
    LwSync,
    Eieio,
    ISync,
    DmbSy,
    DmbLd,
    DmbSt,
    Dmb,
    Fence { pred: Pick, succ: Pick },
}

/// The syntactic dependencies on a load, except data dependencies, which lead only to stores.
#[derive(Clone, Copy)]
pub enum DepKind {
    Addr,
    Ctrl,
    CtrlIsync,
    CtrlIsb,
}

/// What an access orders by itself: nothing, or what a load-acquire or a store-release of AArch64
/// does. A read is plain or acquire, a write plain or release.
#[derive(Clone, Copy, Default, PartialEq, Eq)]
pub enum Mark {
    #[default]
    Plain,
    Acquire,
    Release,
}

/// An edge of a cycle without the marks of its accesses.
///
/// The rules are those of the diy part of the herdtools manual, "Candidate relaxations".
#[derive(Clone, Copy)]
pub enum Kind {
    /// A communication between two accesses to one location.
    Com {
        com: Com,
        reach: Reach,
    },
    /// Program order without a fence or dependency.
    Po {
        sd: Sd,
        from: Dir,
        to: Dir,
    },
    /// Program order with a fence between.
    Fenced {
        fence: FenceKind,
        sd: Sd,
        from: Dir,
        to: Dir,
    },
    /// An address or control dependency on a load.
    Dep {
        dep: DepKind,
        sd: Sd,
        to: Dir,
    },
    /// A data dependency of a store on a load.
    Data {
        sd: Sd,
    },
}

/// What a register or a location holds: a number, or the address of the location with this number.
#[derive(Clone, Copy, Debug, PartialEq, Eq)]
pub enum Value {
    Num(u32),
    Place(u8),
}

/// Which locations get an observer: with `Accept`, those whose order of writes would otherwise stay
/// open; with `Avoid`, none, and a cycle that needs one is refused; with `Force`, each that has two or
/// more writes.
#[derive(Clone, Copy)]
pub enum ObsMode {
    Accept,
    Avoid,
    Force,
}
