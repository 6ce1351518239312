//! Every cycle that is made from the cycle of a family has a test, on each architecture.

ghost use Rattle.demo_tests.specs.Filled.{MakesAll};
ghost use Rattle.arch_x86.specs.Puts as x86;
ghost use Rattle.arch_power.specs.Puts as power;
ghost use Rattle.arch_aarch64.specs.Puts as aarch64;
ghost use Rattle.arch_riscv.specs.Puts as riscv;
ghost use Rattle.arch_arm.specs.Puts as arm;

/// On each architecture, a family's cycle has a test in the mode `accept`, whichever edge of the architecture is picked for
/// each link: one without marks that stays in its thread, leads to another location, and joins accesses of the same directions.
pub fn families_have_tests()
    ensures on_x86 { MakesAll x86.puts }
    ensures on_power { MakesAll power.puts }
    ensures on_aarch64 { MakesAll aarch64.puts }
    ensures on_riscv { MakesAll riscv.puts }
    ensures on_arm { MakesAll arm.puts }
{}
