ghost use Rattle.std.specs.Prelude.{◌≡◌};
ghost use Rattle.relax_edges.specs.Architectures.{arch_word, arch_of};

use crate::kinds::ArchName;

impl ArchName {
    /// The name of the architecture: `X86`, `PPC`, `AArch64`, `RISCV` or `ARM`.
    pub fn name(self) -> &'static str
        ensures { result.now ≡ arch_word self }
    {
        match self {
            ArchName::X86 => "X86",
            ArchName::PPC => "PPC",
            ArchName::AArch64 => "AArch64",
            ArchName::RISCV => "RISCV",
            ArchName::ARM => "ARM",
        }
    }
}

/// The architecture that a text names, letter for letter; `None` if it names none.
pub fn read_arch(text: &str) -> Option<ArchName>
    ensures { result ≡ arch_of text.now }
{
    match text {
        "X86" => Some(ArchName::X86),
        "PPC" => Some(ArchName::PPC),
        "AArch64" => Some(ArchName::AArch64),
        "RISCV" => Some(ArchName::RISCV),
        "ARM" => Some(ArchName::ARM),
        _ => None,
    }
}
