ghost use Rattle.std.specs.{Prelude.{◌≡◌, ◌↔◌, IsTrue, IfOk, length}, List.{list_all, list_any}};
ghost use Rattle.program_meaning.specs.{Accesses.{at_name}, Executions.{same_write, IsExecutionOf}, Programs.{IsCandidate}};
ghost use Rattle.program_meaning.specs.Deciding.{every, name, writes_there, can_read, are_reads, are_distinct, is_covered, thread_covered, is_order, reads_fit, orders_fit, lists_fit};
ghost use Rattle.litmus_text.specs.ReadPrograms.{program_read};

use crate::accesses::{
    Accesses, access_at, all_accesses, has_numbers, is_read, is_same, writes_to,
};
use crate::runs::run_all;
use arch_trait::Arch;
use diy_io::NoMemory;
use litmus_text::ReadTest;
use program_meaning::{Access, Execution, Read, WriteAt};
use std::alloc::Global;

/// Whether a read access can read what a read names: the initial value, which is 0, or a write of its value
/// to its location.
fn can_read(all: &[Accesses], access: &Access, from: Option<WriteAt>) -> bool
    ensures { result ≡ can_read all.now access.now from }
{
    let Some(write) = from else {
        return access.value == 0;
    };
    match access_at(all, write) {
        Some(written) => writes_to(access.place, &written) && written.value == access.value,
        None => false,
    }
}

/// Whether these reads are those of a thread's read accesses, in order, and each can read what it names.
#[tactic(auto, unfolding(program_meaning::specs::Deciding::are_reads))]
fn are_reads(all: &[Accesses], accesses: &[Access], reads: &[Read]) -> bool
    ensures { result ≡ are_reads all.now accesses.now reads.now }
{
    let [access, further @ ..] = accesses else {
        return reads.is_empty();
    };
    if !is_read(access) {
        return are_reads(all, further, reads);
    }
    let [read, others @ ..] = reads else {
        return false;
    };
    read.0 == access.value && can_read(all, access, read.1) && are_reads(all, further, others)
}

/// Whether each name in the order is that of a write to the location.
fn are_there(all: &[Accesses], place: u8, order: &[WriteAt]) -> bool
    ensures { result ≡ list_all (λ w. writes_there place (at_name all.now w)) order.now }
{
    for write in order {
        match access_at(all, *write) {
            Some(written) if writes_to(place, &written) => {}
            _ => return false,
        }
    }
    true
}

fn occurs_in(order: &[WriteAt], write: WriteAt) -> bool
    ensures { result ≡ list_any (same_write write) order.now }
{
    order.iter().any(|other| is_same(write, *other))
}

/// Whether no write is listed twice.
fn are_distinct(order: &[WriteAt]) -> bool
    ensures { result ≡ are_distinct order.now }
{
    for i in 0..order.len() {
        if occurs_in(&order[i + 1..], order[i]) {
            return false;
        }
    }
    true
}

/// Whether the access with these numbers is in an order. The numbers may be larger than a name can hold.
fn is_named(order: &[WriteAt], thread: usize, access: usize) -> bool
    ensures { result ≡ list_any (same_write (name thread access)) order.now }
{
    order
        .iter()
        .any(|write| has_numbers(*write, thread, access))
}

/// Whether each write of a thread to the location is in the location's order.
fn is_thread_covered(place: u8, order: &[WriteAt], thread: usize, accesses: &[Access]) -> bool
    ensures { result ≡ thread_covered place order.now thread accesses.now }
{
    for (i, access) in accesses.iter().enumerate() {
        if writes_to(place, access) && !is_named(order, thread, i) {
            return false;
        }
    }
    true
}

/// Whether each write to the location is in the location's order.
fn are_covered(all: &[Accesses], place: u8, order: &[WriteAt]) -> bool
    ensures { result ≡ every (thread_covered place order.now) 0 all.now }
{
    for (thread, accesses) in all.iter().enumerate() {
        if !is_thread_covered(place, order, thread, accesses.as_slice()) {
            return false;
        }
    }
    true
}

/// Whether an order holds each write to the location, once, and nothing else.
fn is_order(all: &[Accesses], place: u8, order: &[WriteAt]) -> bool
    ensures { result ≡ is_order all.now place order.now }
{
    are_there(all, place, order) && are_distinct(order) && are_covered(all, place, order)
}

/// Whether the reads of each thread are those of its accesses.
fn do_reads_fit(all: &[Accesses], exec: &Execution) -> bool
    requires { length exec.now.reads ≡ length all.now }
    ensures { result ≡ reads_fit all.now exec.now }
{
    for thread in 0..exec.threads() {
        let accesses = &all[usize::from(thread)];
        if !are_reads(all, accesses.as_slice(), exec.reads(thread)) {
            return false;
        }
    }
    true
}

/// Whether the order of each location holds its writes, each once, and nothing else.
#[tactic(auto, using(crate::proofs::Loops::every_step, crate::proofs::Loops::every_stops))]
fn do_orders_fit(all: &[Accesses], exec: &Execution) -> bool
    ensures { result ≡ orders_fit all.now exec.now }
{
    for place in 0..exec.places() {
        if !is_order(all, place, exec.writes(place)) {
            return false;
        }
    }
    true
}

/// Whether the reads and the orders are those of threads that make these accesses.
fn do_lists_fit(all: &[Accesses], exec: &Execution) -> bool
    requires { length exec.now.reads ≡ length all.now }
    ensures { result ≡ lists_fit all.now exec.now }
{
    do_reads_fit(all, exec) && do_orders_fit(all, exec)
}

#[tactic(auto, using(program_meaning::proofs::Candidates::execution_means, program_meaning::proofs::Candidates::execution_from))]
fn is_execution(all: &[Accesses], exec: &Execution) -> bool
    requires { length exec.now.reads ≡ length all.now }
    ensures { IsTrue result ↔ IsExecutionOf all.now (length exec.now.orders) exec.now }
{
    do_lists_fit(all, exec)
}

/// Whether an execution is a candidate execution of a test: the run of each thread on the values of its
/// reads ends and uses them all, each read reads a write of its value to its location or the initial value,
/// and the list of each location holds its writes, each once. It may return `NoMemory` instead.
pub fn is_candidate<A: Arch>(
    alloc: Global,
    test: &ReadTest<A>,
    exec: &Execution,
) -> Result<bool, NoMemory>
    requires threads { length exec.now.reads ≡ length test.now.threads }
    requires places { length exec.now.orders ≡ length test.now.places }
    ensures { IfOk result (λ answer. IsTrue answer ↔ IsCandidate (program_read test.now) exec.now) }
{
    match run_all(alloc, test, exec)? {
        Some(traces) => {
            let all = all_accesses(alloc, &traces)?;
            Ok(is_execution(&all, exec))
        }
        None => Ok(false),
    }
}
