ghost use Rattle.std.specs.Prelude.{◌≡◌, ◌<◌, ◌≤◌, ◌==◌, ◌&&◌, length, IfOk, OnOk, None, Some};
ghost use Rattle.cycle_events.specs.{Resolution.{external_count}, Values.{is_write_at, value_of}};
ghost use Rattle.program_meaning.specs.KeptExecutions.{empty_lists};
ghost use Rattle.program_meaning.specs.{Intended.{write_of}, Standing.{event_name}};
ghost use Rattle.co_tests.specs.Shape.{HasShape};
ghost use Rattle.co_tests.specs.{CoherenceTests.{incoherent_execution}, CutResolution.{cut_of, cut_open}};
ghost use Rattle.two_runs.specs.Runs.{cycle_reads, is_read_of, order_of, thread_reads, with_appended};

use co_tests::{cut_of, external_count, value_of, write_count};
use diy_io::NoMemory;
use exec_meaning::Execution;
use program_meaning::WriteAt;
use relax_edges::{Dir, Edge, MAX_EDGES};
use std::alloc::Global;

/// The execution that the coherence test of a cycle asks for, whose last edge leads to another thread: each
/// read reads the write of its value, and the writes are in the order of their values.
pub(crate) fn incoherent_run(alloc: Global, edges: &[Edge]) -> Result<Execution, NoMemory>
    requires { HasShape edges.now }
    ensures { IfOk result (λ run. run ≡ incoherent_execution edges.now) }
{
    match cut_of(edges) {
        Some(cut) => run_from_cut(alloc, edges, cut),
        None => unreachable!(),
    }
}

fn run_from_cut(alloc: Global, edges: &[Edge], cut: usize) -> Result<Execution, NoMemory>
    requires shape { HasShape edges.now }
    requires cut { cut_of edges.now ≡ Some cut }
    ensures { IfOk result (λ run. run ≡ incoherent_execution edges.now) }
{
    let mut run = Execution::new(alloc, external_count(edges), 1)?;
    add_reads(edges, cut, &mut run)?;
    add_order(edges, cut, &mut run)?;
    Ok(run)
}

fn add_reads(edges: &[Edge], cut: usize, exec: &mut Execution) -> Result<(), NoMemory>
    requires shape { HasShape edges.now }
    requires cut { cut_of edges.now ≡ Some cut }
    requires reads { exec.old.reads ≡ empty_lists (external_count edges.now) }
    ensures { OnOk result (exec.new ≡ record exec.old { reads = cycle_reads (cut_open edges.now) }) }
{
    for thread in 0..external_count(edges) {
        add_thread(edges, cut, thread, exec)?;
    }
    Ok(())
}

fn add_thread(edges: &[Edge], cut: usize, thread: u8, exec: &mut Execution) -> Result<(), NoMemory>
    requires shape { HasShape edges.now }
    requires cut { cut_of edges.now ≡ Some cut }
    requires thread { thread < length exec.old.reads }
    ensures { OnOk result (exec.new ≡ record exec.old { reads = with_appended exec.old.reads thread (thread_reads (cut_open edges.now) thread) }) }
{
    for i in 0..edges.len() {
        if is_read_of(edges, thread, i) {
            let value = value_of(edges, cut, i);
            let from = write_with(edges, cut, value);
            exec.add_read(thread, u32::from(value), from)?;
        }
    }
    Ok(())
}

/// Whether an event is a read in a thread.
fn is_read_of(edges: &[Edge], thread: u8, i: usize) -> bool
    requires few { length edges.now ≤ MAX_EDGES }
    requires within { i < length edges.now }
    ensures { result ≡ is_read_of (cut_open edges.now) thread i }
{
    match edges[i].source() {
        Dir::R => event_name(edges, i).thread == thread,
        Dir::W => false,
    }
}

/// Adds the writes, in the order of their values.
fn add_order(edges: &[Edge], cut: usize, exec: &mut Execution) -> Result<(), NoMemory>
    requires shape { HasShape edges.now }
    requires cut { cut_of edges.now ≡ Some cut }
    requires place { 0 < length exec.old.orders }
    ensures { OnOk result (exec.new ≡ record exec.old { orders = with_appended exec.old.orders 0 (order_of (cut_open edges.now) None 0) }) }
{
    for k in 0..write_count(edges) {
        if let Some(write) = write_with(edges, cut, k + 1) {
            exec.add_write(0, write)?;
        }
    }
    Ok(())
}

/// The write of this value, or none for the value 0, which is the initial one.
fn write_with(edges: &[Edge], cut: usize, value: u8) -> Option<WriteAt>
    requires shape { HasShape edges.now }
    requires cut { cut_of edges.now ≡ Some cut }
    ensures { result ≡ write_of (cut_open edges.now) 0 value }
{
    for i in 0..edges.len() {
        if is_write_with(edges, cut, value, i) {
            return Some(event_name(edges, i));
        }
    }
    None
}

/// Whether an event is a write of this value.
fn is_write_with(edges: &[Edge], cut: usize, value: u8, i: usize) -> bool
    requires shape { HasShape edges.now }
    requires cut { cut_of edges.now ≡ Some cut }
    requires within { i < length edges.now }
    ensures { result ≡ (is_write_at (cut_open edges.now) 0 i && (value_of (cut_open edges.now) i == value)) }
{
    match edges[i].source() {
        Dir::R => false,
        Dir::W => value_of(edges, cut, i) == value,
    }
}

/// The name of an event: its thread, and how many events of that thread come before it.
fn event_name(edges: &[Edge], event: usize) -> WriteAt
    requires few { length edges.now ≤ MAX_EDGES }
    requires within { event < length edges.now }
    ensures { result ≡ event_name edges.now event }
{
    let mut thread = 0;
    let mut access = 0;
    for i in 0..event {
        if edges[i].is_external() {
            thread += 1;
            access = 0;
        } else {
            access += 1;
        }
    }
    WriteAt { thread, access }
}
