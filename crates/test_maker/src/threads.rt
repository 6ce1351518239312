ghost use Rattle.std.specs.Prelude.{◌≡◌, ◌<◌, ◌≤◌, ◌+◌, false, length, map};
ghost use Rattle.arrayvec.specs.ArrayVec.{array_vec_len};
ghost use Rattle.final_cond.specs.Conditions.{term_view};
ghost use Rattle.arch_trait.specs.{Threads.{FitSteps}, Writing.{name_in}};
ghost use Rattle.tests_force_cycles.specs.{CycleSteps.{numbers_read}, TestOf.{last_terms}};
ghost use Rattle.test_maker.specs.{Made.{AreOfArch}, ConditionTerms.{PutsThread, PutsThreads}};

use crate::condition::put_load_terms;
use crate::refusal::CrowdedThread;
use crate::steps::{Steps, fill_events, fill_observer, steps_of, thread_count};
use arch_trait::{Arch, MAX_STEPS, Step, ThreadCodes, TooManyRegisters};
use coherence_values::Valued;
use final_cond::{Cond, MAX_TERMS};
use relax_edges::MAX_EDGES;

/// Makes `threads` the code of the threads of the test, including its observers, and appends what
/// their loads read to the condition. What `threads` held before is dropped. If a thread needs too
/// many registers, it returns the first.
pub fn put_threads<A: Arch>(
    valued: &Valued,
    threads: &mut ThreadCodes,
    cond: &mut Cond,
) -> Result<(), CrowdedThread>
    requires of_arch { AreOfArch A.puts valued.now.edges }
    requires last { map term_view cond.old.terms.items ≡ last_terms valued.now.edges valued.now.mode }
    ensures { PutsThreads A.puts (name_in A.writing.registers) valued.now.edges valued.now.mode threads.new cond.old cond.new result }
{
    // Brings the invariant of `Valued` into the proof.
    let _edges = valued.resolved().cycle();
    let mut events = Steps::new();
    let mut reads = Steps::new();
    fill_events(valued, &mut events);
    threads.clear();
    for thread in 0..thread_count(valued) {
        fill_observer(valued, thread, &mut reads);
        let steps = steps_of(valued, thread, &events, &reads);
        match put_thread::<A>(thread, steps, threads, cond) {
            Ok(()) => {}
            Err(TooManyRegisters) => return Err(CrowdedThread { thread }),
        }
    }
    Ok(())
}

/// Makes the code of the next thread of a test from its steps, after the threads before it, and appends what its loads read
/// to the condition. If the thread needs too many registers, it returns `TooManyRegisters`.
///
/// The steps must fit the architecture, and there must be room for the thread and for its terms.
pub fn put_thread<A: Arch>(
    thread: u8,
    steps: &[Step],
    threads: &mut ThreadCodes,
    cond: &mut Cond,
) -> Result<(), TooManyRegisters>
    requires fit { FitSteps A.puts.name false steps.now }
    requires few { length steps.now ≤ MAX_STEPS }
    requires room { array_vec_len threads.old < MAX_EDGES }
    requires terms_room { array_vec_len cond.old.terms + length (numbers_read steps.now) ≤ MAX_TERMS }
    ensures { PutsThread A.puts (name_in A.writing.registers) thread steps.now threads.old threads.new cond.old cond.new result }
{
    match threads.compile_next::<A>(steps) {
        Ok(()) => {
            put_load_terms::<A>(thread, steps, threads.last_loads(), &mut cond.terms);
            Ok(())
        }
        Err(TooManyRegisters) => Err(TooManyRegisters),
    }
}
