ghost use Rattle.std.specs.Prelude.{◌≡◌, Ok, OnErr, false, true};
ghost use Rattle.relax_edges.specs.declared.kinds.ObsMode.TheVariants.{Accept};
ghost use Rattle.diy_io.specs.Wrote.{WroteAll, WrotePart};
ghost use Rattle.test_maker.specs.CycleText.{cycle_text};
ghost use Rattle.arch_x86.specs.{Puts.{puts as x86}, Table.{writing as x86_writing}};

use arch_trait::Arch;
use arch_x86::X86;
use diy_io::{Failed, Sink};
use edge_algebra::Cycle;
use litmus_text::print_test;
use relax_edges::ObsMode;
use test_maker::make;

/// Prints the test of a cycle on an architecture under a name, and returns whether there is one.
pub fn print_cycle<A: Arch, O: Sink>(cycle: &Cycle, name: &str, out: &mut O) -> Result<bool, Failed>
    ensures printed { result ≡ Ok true → WroteAll (O.seen out.old) (O.seen out.new) (cycle_text A.puts A.writing Accept name.now cycle.now) }
    ensures nothing { result ≡ Ok false → O.seen out.new ≡ O.seen out.old }
    ensures failed { OnErr result (WrotePart (O.seen out.old) (O.seen out.new) (cycle_text A.puts A.writing Accept name.now cycle.now)) }
{
    let Ok(test) = make::<A>(cycle, ObsMode::Accept) else {
        return Ok(false);
    };
    match print_test::<A, O>(&test, name, out) {
        Ok(()) => Ok(true),
        Err(Failed) => Err(Failed),
    }
}

/// The same on X86.
pub fn print_for_x86<O: Sink>(cycle: &Cycle, name: &str, out: &mut O) -> Result<bool, Failed>
    ensures printed { result ≡ Ok true → WroteAll (O.seen out.old) (O.seen out.new) (cycle_text x86 x86_writing Accept name.now cycle.now) }
    ensures nothing { result ≡ Ok false → O.seen out.new ≡ O.seen out.old }
{
    print_cycle::<X86, O>(cycle, name, out)
}
