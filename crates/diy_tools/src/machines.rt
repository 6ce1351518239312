pub(crate) use arch_aarch64::A64;
pub(crate) use arch_arm::Arm;
pub(crate) use arch_power::Power;
pub(crate) use arch_riscv::Riscv;
pub(crate) use arch_x86::X86;

/// Calls a function that is generic over the architecture for the architecture with this name:
/// `on_machine!(arch, call[H, O](a, b))` is `call::<X86, H, O>(a, b)` for X86. No other code of the crate
/// lists the architectures.
macro_rules! on_machine {
    ($arch:expr, $call:ident[$($more:ident),*]($($argument:expr),*)) => {
        match $arch {
            ArchName::X86 => $call::<$crate::machines::X86, $($more),*>($($argument),*),
            ArchName::PPC => $call::<$crate::machines::Power, $($more),*>($($argument),*),
            ArchName::AArch64 => $call::<$crate::machines::A64, $($more),*>($($argument),*),
            ArchName::RISCV => $call::<$crate::machines::Riscv, $($more),*>($($argument),*),
            ArchName::ARM => $call::<$crate::machines::Arm, $($more),*>($($argument),*),
        }
    };
}

pub(crate) use on_machine;
