ghost use Rattle.std.specs.Prelude.{◌≡◌};

use relax_edges::{Dir, FenceKind, Mark};

/// An instruction that orders accesses and makes none.
#[derive(Clone, Copy, Debug, PartialEq, Eq)]
pub enum Barrier {
    Fence(FenceKind),
    /// The instruction synchronization barrier of AArch64 and Arm.
    Isb,
}

/// What one instruction of a thread does. Registers, locations and labels are numbers; registers
/// are below 32.
///
/// The rules are those of the instruction manuals of x86, Power, Arm and RISC-V, limited to the few
/// instructions that litmus tests use.
#[derive(Clone, Copy, Debug, PartialEq, Eq)]
pub enum Micro {
    /// `dst` becomes the number `n`.
    Imm {
        dst: u8,
        n: u32,
    },
    /// `dst` becomes the bitwise exclusive or of `a` and `b`; of a register with itself, 0.
    Xor {
        dst: u8,
        a: u8,
        b: u8,
    },
    /// `dst` becomes `a` plus `n`.
    AddImm {
        dst: u8,
        a: u8,
        n: u32,
    },
    /// `dst` becomes the bitwise or of `a` and `n`.
    OrImm {
        dst: u8,
        a: u8,
        n: u32,
    },
    /// `dst` becomes the sum of `a` and `b`; of an address and 0, the address.
    Add {
        dst: u8,
        a: u8,
        b: u8,
    },
    /// `dst` becomes what is read at the address `base`, or `base` plus `index`.
    Load {
        dst: u8,
        base: u8,
        index: Option<u8>,
    },
    /// `dst` becomes what is read at the location.
    LoadAt {
        dst: u8,
        place: u8,
    },
    /// `dst` becomes what is read at the address `base`, by a load-acquire.
    LoadAcq {
        dst: u8,
        base: u8,
    },
    /// The number in `src` is written at the address `base`, or `base` plus `index`.
    Store {
        src: u8,
        base: u8,
        index: Option<u8>,
    },
    /// The number `n` is written at the location.
    StoreAt {
        place: u8,
        n: u32,
    },
    /// The number in `src` is written at the address `base`, by a store-release.
    StoreRel {
        src: u8,
        base: u8,
    },
    /// The flag becomes whether `a` equals `b`.
    Cmp {
        a: u8,
        b: u8,
    },
    /// Jumps to the label if the flag is true.
    BranchEq {
        label: u8,
    },
    /// Jumps to the label if `a` isn't 0.
    BranchNz {
        a: u8,
        label: u8,
    },
    /// Does nothing; a jump to the label goes on after it.
    Label {
        label: u8,
    },
    /// Orders accesses.
    Barrier {
        kind: Barrier,
    },
}

impl Default for Micro {
    fn default() -> Micro
        ensures { result ≡ Micro.Imm 0 0 }
    {
        Micro::Imm { dst: 0, n: 0 }
    }
}

/// What a thread does that other threads can notice: an access or a barrier, with the loads that it
/// depends on. Bit `k` of a mask names load number `k` of the thread, from 0.
#[derive(Clone, Copy)]
pub enum Item {
    /// A read of the value at the location, or a write of it, with its mark. The masks name the loads that its
    /// address, the value written and the branches before it depend on.
    Access {
        dir: Dir,
        mark: Mark,
        place: u8,
        value: u32,
        addr_mask: u64,
        data_mask: u64,
        ctrl_mask: u64,
    },
    /// A barrier, with the loads that the branches before it depend on.
    Barrier {
        kind: Barrier,
        ctrl_mask: u64,
    },
}
