ghost use Rattle.std.specs.Prelude.{◌≡◌, ◌≤◌, length, IfOk, OnOk};
ghost use Rattle.cycle_events.specs.Resolution.{turned};
ghost use Rattle.arch_trait.specs.Writing.{name_in};
ghost use Rattle.litmus_text.specs.Tests.{test_seen};
ghost use Rattle.test_maker.specs.Made.{AreOfArch, CanPrint};
ghost use Rattle.co_tests.specs.CoherenceTests.{HasCoherenceTest};
ghost use Rattle.co_tests.specs.{Made.{MakesCoherenceTest, MakesSeen, MakesOfArch, MakesTurned}, Shape.{HasShape}};

use crate::condition::put_last_term;
use crate::refusal::CoRefusal;
use crate::shape::{cut_of, external_count, has_cut, leads_elsewhere, turn, write_count};
use crate::threads::put_threads;
use arch_trait::Arch;
use arrayvec::ArrayVec;
use edge_algebra::Cycle;
use litmus_text::Test;
use relax_edges::{Edge, MAX_EDGES};
use test_maker::all_of_arch;

/// The coherence test of the cycle, or the first reason why it has none. A cycle whose test is made
/// meets, once rotated, the premise `HasCoherenceTest` of the law on printed coherence tests.
pub fn co_test<A: Arch>(cycle: &Cycle) -> Result<Test, CoRefusal>
    ensures made { MakesCoherenceTest A.puts (name_in A.writing.registers) cycle.now result }
    ensures printable { IfOk result (CanPrint A.puts A.REGISTERS) }
    ensures has_test { IfOk result (λ _. HasCoherenceTest A.puts (turned cycle.now)) }
{
    let mut test = Test::new();
    co_test_into::<A>(cycle, &mut test)?;
    Ok(test)
}

/// Makes `test` the coherence test of the cycle, as `co_test` does. After a refusal nothing is known about it.
pub fn co_test_into<A: Arch>(cycle: &Cycle, test: &mut Test) -> Result<(), CoRefusal>
    ensures made { MakesSeen A.puts (name_in A.writing.registers) cycle.now (test_seen test.new) result }
    ensures printable { OnOk result (CanPrint A.puts A.REGISTERS test.new) }
    ensures has_test { OnOk result (HasCoherenceTest A.puts (turned cycle.now)) }
{
    all_of_arch::<A>(cycle.edges())?;
    make_of_arch::<A>(cycle, test)
}

/// Makes `test` the coherence test of a cycle whose edges are of the architecture.
fn make_of_arch<A: Arch>(cycle: &Cycle, test: &mut Test) -> Result<(), CoRefusal>
    requires { AreOfArch A.puts cycle.now }
    ensures made { MakesOfArch A.puts (name_in A.writing.registers) cycle.now (test_seen test.new) result }
    ensures printable { OnOk result (CanPrint A.puts A.REGISTERS test.new) }
{
    let edges = cycle.edges();
    if external_count(edges) < 2 {
        return Err(CoRefusal::TooFewThreads);
    }
    if leads_elsewhere(edges) || !has_cut(edges) {
        return Err(CoRefusal::NotCoherence);
    }
    if write_count(edges) > 2 {
        return Err(CoRefusal::ManyWrites);
    }
    make_turned::<A>(cycle.rotate(turn(edges)).edges(), test)
}

/// Makes `test` the coherence test of a cycle whose last edge is external, or names the first thread that
/// needs too many registers.
fn make_turned<A: Arch>(edges: &[Edge], test: &mut Test) -> Result<(), CoRefusal>
    requires shape { HasShape edges.now }
    requires of_arch { AreOfArch A.puts edges.now }
    ensures made { MakesTurned A.puts (name_in A.writing.registers) edges.now (test_seen test.new) result }
    ensures printable { OnOk result (CanPrint A.puts A.REGISTERS test.new) }
{
    match cut_of(edges) {
        Some(cut) => {
            put_edges(edges, &mut test.edges);
            test.places.set_letters(1);
            put_last_term(write_count(edges), &test.places, &mut test.cond);
            put_threads::<A>(edges, cut, &mut test.threads, &mut test.cond)
        }
        None => unreachable!(),
    }
}

/// Makes `kept` a copy of the edges.
fn put_edges(edges: &[Edge], kept: &mut ArrayVec<Edge, MAX_EDGES>)
    requires { length edges.now ≤ MAX_EDGES }
    ensures { kept.new.items ≡ edges.now }
{
    kept.clear();
    kept.try_extend_from_slice(edges).unwrap();
}
