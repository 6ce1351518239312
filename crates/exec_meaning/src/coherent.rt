ghost use Rattle.std.specs.Prelude.{◌≡◌, ◌↔◌, ◌<◌, ◌||◌, not, nat_lt, IsTrue, IfOk, Some, None, length, count_by, take, position};
ghost use Rattle.program_meaning.specs.{Accesses.{is_read, reads_before}, Executions.{same_write}};
ghost use Rattle.program_meaning.specs.Coherence.{order_place, order_at, read_at, source_at, coherence_place, IsCoherent};
ghost use Rattle.program_meaning.specs.{Programs.{IsCandidate, IsCoherentIn}, Deciding.{name, may_follow, agrees, agrees_later, thread_coheres, coheres}};
ghost use Rattle.litmus_text.specs.ReadPrograms.{program_read};

use crate::accesses::{Accesses, all_accesses, has_numbers, is_read};
use crate::runs::candidate_runs;
use arch_trait::Arch;
use diy_io::NoMemory;
use litmus_text::ReadTest;
use program_meaning::{Access, Execution, Read, WriteAt};
use relax_edges::Dir;
use std::alloc::Global;

/// An access of a thread with its number there, from 0, which may be larger than a name can hold.
#[derive(Clone, Copy)]
pub(crate) struct NumberedAccess {
    pub(crate) number: usize,
    pub(crate) access: Access,
}

/// How many of the first `first` accesses of a thread are reads.
#[tactic(auto, using(std::proofs::lemmas::List::take_all))]
fn reads_among(accesses: &[Access], first: usize) -> usize
    ensures { result ≡ count_by is_read (take first accesses.now) }
{
    let first = first.min(accesses.len());
    let among = &accesses[..first];
    among.iter().filter(|access| is_read(access)).count()
}

/// How many accesses of a thread before this one are reads.
fn reads_before(all: &[Accesses], thread: usize, access: usize) -> usize
    ensures { result ≡ reads_before all.now (name thread access) }
{
    match all.get(thread) {
        Some(accesses) => reads_among(accesses.as_slice(), access),
        None => 0,
    }
}

/// The read of an execution that a read access makes, if there is one.
fn read_at(all: &[Accesses], exec: &Execution, thread: usize, access: usize) -> Option<Read>
    ensures { result ≡ read_at all.now exec.now (name thread access) }
{
    if thread >= usize::from(exec.threads()) {
        return None;
    }
    exec.reads(thread as u8)
        .get(reads_before(all, thread, access))
        .copied()
}

/// The write that a read access reads, or none for the initial value.
pub(crate) fn source_at(
    all: &[Accesses],
    exec: &Execution,
    thread: usize,
    access: usize,
) -> Option<WriteAt>
    ensures { result ≡ source_at all.now exec.now (name thread access) }
{
    read_at(all, exec, thread, access)?.1
}

fn position_of(order: &[WriteAt], thread: usize, access: usize) -> Option<usize>
    ensures { result ≡ position (same_write (name thread access)) order.now }
{
    order
        .iter()
        .position(|write| has_numbers(*write, thread, access))
}

/// The position of a write in a coherence order, from 1; 0 if it isn't in it.
fn order_place(order: &[WriteAt], thread: usize, access: usize) -> usize
    ensures { result ≡ order_place order.now (Some (name thread access)) }
{
    match position_of(order, thread, access) {
        Some(k) => k + 1,
        None => 0,
    }
}

/// The position of a write in the coherence order of a location, from 1; 0 if it isn't in it.
fn place_of_write(exec: &Execution, place: u8, thread: usize, access: usize) -> usize
    ensures { result ≡ order_place (order_at exec.now place) (Some (name thread access)) }
{
    if place < exec.places() {
        order_place(exec.writes(place), thread, access)
    } else {
        0
    }
}

/// The coherence position of an access: for a write its own, for a read that of what it reads.
pub(crate) fn coherence_place(
    all: &[Accesses],
    exec: &Execution,
    thread: usize,
    numbered: NumberedAccess,
) -> usize
    ensures { result ≡ coherence_place all.now exec.now (name thread numbered.number) numbered.access }
{
    let NumberedAccess { number, access } = numbered;
    match access.dir {
        Dir::W => place_of_write(exec, access.place, thread, number),
        Dir::R => match source_at(all, exec, thread, number) {
            Some(write) => {
                let from = usize::from(write.thread);
                place_of_write(exec, access.place, from, usize::from(write.access))
            }
            None => 0,
        },
    }
}

/// The coherence position of an access with this name.
pub(crate) fn place_of_name(
    all: &[Accesses],
    exec: &Execution,
    name: WriteAt,
    access: &Access,
) -> usize
    ensures { result ≡ coherence_place all.now exec.now name access.now }
{
    let thread = usize::from(name.thread);
    let numbered = NumberedAccess {
        number: usize::from(name.access),
        access: *access,
    };
    coherence_place(all, exec, thread, numbered)
}

/// The write that a read access with this name reads, or none for the initial value.
pub(crate) fn source_of_name(all: &[Accesses], exec: &Execution, name: WriteAt) -> Option<WriteAt>
    ensures { result ≡ source_at all.now exec.now name }
{
    let thread = usize::from(name.thread);
    source_at(all, exec, thread, usize::from(name.access))
}

/// How many accesses of a thread before the one with this name are reads.
pub(crate) fn reads_before_name(all: &[Accesses], name: WriteAt) -> usize
    ensures { result ≡ reads_before all.now name }
{
    reads_before(all, usize::from(name.thread), usize::from(name.access))
}

/// Whether an access may follow another at its location: a read if it isn't before it in the coherence
/// order, a write if it is after it.
fn may_follow(dir: Dir, before: usize, after: usize) -> bool
    ensures { result ≡ may_follow dir before after }
{
    match dir {
        Dir::R => before <= after,
        Dir::W => before < after,
    }
}

/// Whether two accesses of a thread are at different locations, or the second may follow the first.
fn agrees(
    all: &[Accesses],
    exec: &Execution,
    thread: usize,
    first: NumberedAccess,
    later: NumberedAccess,
) -> bool
    ensures { result ≡ agrees all.now exec.now thread first.number first.access later.number later.access }
{
    if first.access.place != later.access.place {
        return true;
    }
    let before = coherence_place(all, exec, thread, first);
    let after = coherence_place(all, exec, thread, later);
    may_follow(later.access.dir, before, after)
}

/// Whether the second of two accesses of a thread doesn't come after the first, or agrees with it.
fn agrees_if_later(
    all: &[Accesses],
    exec: &Execution,
    thread: usize,
    first: NumberedAccess,
    later: NumberedAccess,
) -> bool
    ensures { result ≡ (not (nat_lt first.number later.number) || agrees all.now exec.now thread first.number first.access later.number later.access) }
{
    first.number >= later.number || agrees(all, exec, thread, first, later)
}

/// Whether an access of a thread agrees with those after it.
fn agrees_later(
    all: &[Accesses],
    exec: &Execution,
    thread: usize,
    accesses: &[Access],
    first: NumberedAccess,
) -> bool
    ensures { result ≡ agrees_later all.now exec.now thread accesses.now first.number first.access }
{
    for (number, access) in accesses.iter().enumerate() {
        let later = NumberedAccess {
            number,
            access: *access,
        };
        if !agrees_if_later(all, exec, thread, first, later) {
            return false;
        }
    }
    true
}

/// Whether program order in a thread agrees with the coherence order.
fn thread_coheres(all: &[Accesses], exec: &Execution, thread: usize, accesses: &[Access]) -> bool
    ensures { result ≡ thread_coheres all.now exec.now thread accesses.now }
{
    for (number, access) in accesses.iter().enumerate() {
        let first = NumberedAccess {
            number,
            access: *access,
        };
        if !agrees_later(all, exec, thread, accesses, first) {
            return false;
        }
    }
    true
}

/// Whether program order in each thread agrees with the coherence order.
fn threads_cohere(all: &[Accesses], exec: &Execution) -> bool
    ensures { result ≡ coheres all.now exec.now }
{
    for (thread, accesses) in all.iter().enumerate() {
        if !thread_coheres(all, exec, thread, accesses.as_slice()) {
            return false;
        }
    }
    true
}

#[tactic(auto, using(program_meaning::proofs::CoherenceLaws::coheres_means, program_meaning::proofs::CoherenceLaws::coheres_from))]
fn coheres(all: &[Accesses], exec: &Execution) -> bool
    ensures { IsTrue result ↔ IsCoherent all.now exec.now }
{
    threads_cohere(all, exec)
}

/// Whether a candidate execution of a test is coherent per location: if two accesses of a thread are at one
/// location, the later may follow the earlier in the coherence order. It may return `NoMemory` instead.
pub fn is_coherent<A: Arch>(
    alloc: Global,
    test: &ReadTest<A>,
    exec: &Execution,
) -> Result<bool, NoMemory>
    requires { IsCandidate (program_read test.now) exec.now }
    ensures { IfOk result (λ answer. IsTrue answer ↔ IsCoherentIn (program_read test.now) exec.now) }
{
    let traces = candidate_runs(alloc, test, exec)?;
    let all = all_accesses(alloc, &traces)?;
    Ok(coheres(&all, exec))
}
