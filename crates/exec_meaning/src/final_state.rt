ghost use Rattle.std.specs.Prelude.{◌≡◌, ◌<◌, ◌≤◌, ◌++◌, IfOk, OnOk, length, map};
ghost use Rattle.arch_trait.specs.PlaceNames.{number_in};
ghost use Rattle.micro_ops.specs.RunThreads.{value_in_run};
ghost use Rattle.program_meaning.specs.{Coherence.{final_value}, Programs.{IsCandidate}};
ghost use Rattle.litmus_text.specs.ReadPrograms.{program_read};
ghost use Rattle.exec_meaning.specs.Finals.{registers_at, all_registers, places_at, EndsIn};

use crate::accesses::{Accesses, access_at, all_accesses};
use crate::runs::candidate_runs;
use arch_trait::{Arch, Places};
use diy_io::NoMemory;
use final_cond::{Final, Left, PlaceName, RegName};
use litmus_text::ReadTest;
use micro_ops::Trace;
use program_meaning::Execution;
use relax_edges::Value;
use std::alloc::Global;

/// Adds the registers of a thread that tests use, with what they hold at the end of its run.
fn add_registers<A: Arch>(state: &mut Final, thread: u8, trace: &Trace) -> Result<(), NoMemory>
    ensures { OnOk result (state.new ≡ state.old ++ registers_at thread (value_in_run trace.now) 0 A.writing.registers) }
{
    for register in 0..A::REGISTERS {
        let mut name = RegName::new();
        A::register_name(register, &mut name);
        state.add(Left::Register { thread, name }, trace.register(register))?;
    }
    Ok(())
}

/// Adds the registers of each thread.
fn add_threads<A: Arch>(state: &mut Final, traces: &[Trace]) -> Result<(), NoMemory>
    requires { length traces.now ≤ 255 }
    ensures { OnOk result (state.new ≡ state.old ++ all_registers A.writing.registers 0 (map value_in_run traces.now)) }
{
    for (thread, trace) in traces.iter().enumerate() {
        add_registers::<A>(state, thread as u8, trace)?;
    }
    Ok(())
}

/// The value of a location at the end: that of the last write in its coherence order, or 0 if there is none.
fn final_value(all: &[Accesses], exec: &Execution, place: u8) -> u32
    ensures { result ≡ final_value all.now exec.now place }
{
    if place >= exec.places() {
        return 0;
    }
    let [.., last] = exec.writes(place) else {
        return 0;
    };
    access_at(all, *last).map_or(0, |written| written.value)
}

/// Adds the locations with their values at the end.
fn add_places(
    state: &mut Final,
    places: &Places,
    all: &[Accesses],
    exec: &Execution,
) -> Result<(), NoMemory>
    ensures { OnOk result (state.new ≡ state.old ++ places_at (final_value all.now exec.now) 0 places.now) }
{
    for place in 0..places.len() {
        let mut name = PlaceName::new();
        name.push_str(places.get(place).as_str());
        let value = Value::Num(final_value(all, exec, place));
        state.add(Left::Place { name }, value)?;
    }
    Ok(())
}

/// The final state of a candidate execution of a test: for each thread what each register that tests use
/// holds at the end of its run, and for each location the value of the last write in its coherence order, or
/// 0 if there is none. It may return `NoMemory` instead.
pub fn final_of<A: Arch>(
    alloc: Global,
    test: &ReadTest<A>,
    exec: &Execution,
) -> Result<Final, NoMemory>
    requires { IsCandidate (program_read test.now) exec.now }
    ensures { IfOk result (EndsIn (number_in A.writing.registers) test.now exec.now) }
{
    // Brings the invariant of `ReadTest` into the proof.
    let _threads = test.threads();
    let traces = candidate_runs(alloc, test, exec)?;
    let all = all_accesses(alloc, &traces)?;
    let mut state = Final::new(alloc);
    add_threads::<A>(&mut state, &traces)?;
    add_places(&mut state, test.places(), &all, exec)?;
    Ok(state)
}
