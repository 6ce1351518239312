ghost use Rattle.std.specs.Prelude.{◌≡◌, ◌≤◌, length, IfErr, IfOk, OnOk};
ghost use Rattle.cycle_events.specs.Resolution.{turned};
ghost use Rattle.arch_trait.specs.{PlaceNames.{number_in}, Writing.{name_in}};
ghost use Rattle.relax_edges.specs.declared.kinds.ObsMode.TheVariants.{Avoid};
ghost use Rattle.litmus_text.specs.Tests.{test_seen};
ghost use Rattle.tests_force_cycles.specs.{TestHeadline.{Forces, HasCode, HasTest}, TestOf.{plain}};
ghost use Rattle.test_maker.specs.Made.{MakesSeenTest, MakesTest, MakesValued, AreOfArch, CanPrint, MakeNamesLocation};

use crate::acceptance::all_of_arch;
use crate::condition::put_last_terms;
use crate::refusal::{CrowdedThread, MakeRefusal};
use crate::threads::put_threads;
use arch_trait::Arch;
use arrayvec::ArrayVec;
use coherence_values::{Valued, value, value_unobserved};
use cycle_resolve::{Resolved, resolve};
use edge_algebra::Cycle;
use litmus_text::Test;
use relax_edges::{Edge, MAX_EDGES, ObsMode};

/// The test of the cycle, or the first reason why it has none. A cycle whose test is made meets the
/// premise `HasTest` of the laws on printed tests, and its test forces it.
pub fn make<A: Arch>(cycle: &Cycle, mode: ObsMode) -> Result<Test, MakeRefusal>
    ensures made { MakesTest A.puts (name_in A.writing.registers) cycle.now mode result }
    ensures printable { IfOk result (CanPrint A.puts A.REGISTERS) }
    ensures has_test { OnOk result (HasTest A.puts (turned cycle.now) mode) }
    ensures forces { IfOk result (λ test. Forces (test_seen test) (number_in A.writing.registers) (turned cycle.now) mode plain) }
    ensures located { IfErr result MakeNamesLocation }
{
    let mut test = Test::new();
    make_into::<A>(cycle, mode, &mut test)?;
    Ok(test)
}

/// Makes `test` the test of the cycle, as `make` does. After a refusal nothing is known about it.
pub fn make_into<A: Arch>(cycle: &Cycle, mode: ObsMode, test: &mut Test) -> Result<(), MakeRefusal>
    ensures made { MakesSeenTest A.puts (name_in A.writing.registers) cycle.now mode (test_seen test.new) result }
    ensures printable { OnOk result (CanPrint A.puts A.REGISTERS test.new) }
    ensures has_test { OnOk result (HasTest A.puts (turned cycle.now) mode) }
    ensures forces { OnOk result (Forces (test_seen test.new) (number_in A.writing.registers) (turned cycle.now) mode plain) }
    ensures located { IfErr result MakeNamesLocation }
{
    all_of_arch::<A>(cycle.edges())?;
    let resolution = resolve(cycle);
    let valuation = value(resolution.as_ref()?, mode);
    make_valued::<A>(valuation.as_ref()?, test)?;
    Ok(())
}

/// Makes `test` the test of a cycle without observers: that of the mode avoid, even if this mode refuses
/// the cycle for a write that needs an observer. The cycle's edges are of the architecture. If a thread
/// needs more registers than there are, it returns the first; then nothing is known about `test`.
pub fn make_unobserved<A: Arch>(resolved: &Resolved, test: &mut Test) -> Result<(), CrowdedThread>
    requires { AreOfArch A.puts resolved.now }
    ensures made { MakesValued A.puts (name_in A.writing.registers) resolved.now Avoid (test_seen test.new) result }
    ensures printable { OnOk result (CanPrint A.puts A.REGISTERS test.new) }
    ensures has_code { OnOk result (HasCode A.puts resolved.now Avoid) }
{
    make_valued::<A>(&value_unobserved(resolved), test)
}

fn make_valued<A: Arch>(valued: &Valued, test: &mut Test) -> Result<(), CrowdedThread>
    requires { AreOfArch A.puts valued.now.edges }
    ensures made { MakesValued A.puts (name_in A.writing.registers) valued.now.edges valued.now.mode (test_seen test.new) result }
    ensures printable { OnOk result (CanPrint A.puts A.REGISTERS test.new) }
    ensures has_code { OnOk result (HasCode A.puts valued.now.edges valued.now.mode) }
{
    put_edges(valued.resolved().cycle().edges(), &mut test.edges);
    test.places.set_letters(valued.resolved().locations());
    put_last_terms(valued, &test.places, &mut test.cond);
    put_threads::<A>(valued, &mut test.threads, &mut test.cond)
}

/// Makes `kept` a copy of the edges.
fn put_edges(edges: &[Edge], kept: &mut ArrayVec<Edge, MAX_EDGES>)
    requires { length edges.now ≤ MAX_EDGES }
    ensures { kept.new.items ≡ edges.now }
{
    kept.clear();
    match kept.try_extend_from_slice(edges) {
        Ok(()) => {}
        Err(_) => unreachable!(),
    }
}
