ghost use Rattle.std.specs.{Prelude.{◌≡◌, ◌≤◌, ◌++◌, length, map, IfOk, OnOk}, List.{enumerate_from, flat_map}};
ghost use Rattle.program_meaning.specs.{Accesses.{visits_of}, Programs.{IsCandidate}, SeenAccesses.{seen_access, seen_in, seen_in_thread}};
ghost use Rattle.litmus_text.specs.ReadPrograms.{program_read};

use crate::accesses::{Accesses, all_accesses};
use crate::coherent::{NumberedAccess, coherence_place, source_at};
use crate::runs::candidate_runs;
use arch_trait::Arch;
use diy_io::NoMemory;
use litmus_text::ReadTest;
use micro_ops::{Item, Trace};
use program_meaning::{Access, Execution, SeenAccess};
use relax_edges::Mark;
use std::alloc::{AllocError, Global};

/// An access, by its thread and its number there, with what the execution says of it.
fn seen_access(
    all: &[Accesses],
    exec: &Execution,
    thread: u8,
    numbered: NumberedAccess,
    mark: Mark,
) -> SeenAccess
    ensures { result ≡ seen_access all.now exec.now thread numbered.number numbered.access mark }
{
    let NumberedAccess { number, access } = numbered;
    SeenAccess {
        thread,
        number,
        access,
        mark,
        source: source_at(all, exec, usize::from(thread), number),
        order: coherence_place(all, exec, usize::from(thread), numbered),
    }
}

/// Adds the accesses among the items of a thread's run.
#[tactic(auto, using(crate::proofs::SeenLaws::after_seen, crate::proofs::SeenLaws::after_passed, crate::proofs::SeenLaws::all_seen))]
fn push_seen(
    all: &[Accesses],
    exec: &Execution,
    thread: u8,
    items: &[Item],
    list: &mut Vec<SeenAccess>,
) -> Result<(), AllocError>
    ensures { OnOk result (list.new.items ≡ list.old.items ++ seen_in_thread all.now exec.now (thread, visits_of items.now)) }
{
    let mut number = 0;
    for item in items {
        match *item {
            Item::Access {
                dir,
                mark,
                place,
                value,
                ..
            } => {
                let access = Access { dir, place, value };
                let numbered = NumberedAccess { number, access };
                list.push(seen_access(all, exec, thread, numbered, mark))?;
                number += 1;
            }
            Item::Barrier { .. } => {}
        }
    }
    Ok(())
}

/// Adds the accesses of each thread.
#[tactic(auto, using(crate::proofs::SeenLaws::threads_seen))]
fn push_threads(
    all: &[Accesses],
    exec: &Execution,
    traces: &[Trace],
    list: &mut Vec<SeenAccess>,
) -> Result<(), AllocError>
    requires { length traces.now ≤ 255 }
    ensures { OnOk result (list.new.items ≡ list.old.items ++ flat_map (seen_in_thread all.now exec.now) (enumerate_from 0 (map (λ trace. visits_of trace.items) traces.now))) }
{
    for (thread, trace) in traces.iter().enumerate() {
        push_seen(all, exec, thread as u8, trace.items(), list)?;
    }
    Ok(())
}

/// The accesses of a candidate execution of a test, thread by thread, each thread's in program order. It may
/// return `NoMemory` instead.
pub fn seen_accesses<A: Arch>(
    alloc: Global,
    test: &ReadTest<A>,
    exec: &Execution,
) -> Result<Vec<SeenAccess>, NoMemory>
    requires { IsCandidate (program_read test.now) exec.now }
    ensures { IfOk result (λ list. list.items ≡ seen_in (program_read test.now) exec.now) }
{
    // Brings the invariant of `ReadTest` into the proof.
    let _threads = test.threads();
    let traces = candidate_runs(alloc, test, exec)?;
    let all = all_accesses(alloc, &traces)?;
    let mut list = Vec::new(alloc);
    push_threads(&all, exec, &traces, &mut list)?;
    Ok(list)
}
