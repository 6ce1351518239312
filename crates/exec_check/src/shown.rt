ghost use Rattle.std.specs.Prelude.{◌≡◌, IfOk, length};
ghost use Rattle.arch_trait.specs.PlaceNames.{number_in};
ghost use Rattle.litmus_text.specs.ReadPrograms.{program_read};
ghost use Rattle.program_meaning.specs.Programs.{IsCandidate};
ghost use Rattle.exec_graph.specs.{Drawing.{Draws}, JudgedCycles.{AreEdgesOf}};
ghost use Rattle.exec_check.specs.{Verdicts.{IsVerdict, judged_cycle}, ShownTexts.{IsGraph, graph_if, graph_text, shown_text}};

use crate::checking::verdict_on;
use crate::edges::resolved_cycle;
use crate::text_sink::TextSink;
use crate::verdict::{Judged, Verdict};
use crate::writing::write_verdict;
use arch_trait::Arch;
use cycles_from_lines::quoted_cycle;
use diy_io::{Failed, NoMemory, Sink};
use exec_graph::{DrawError, Picture, write_graph, write_no_graph};
use exec_meaning::{Execution, candidate_runs, seen_accesses};
use litmus_text::ReadTest;
use std::alloc::Global;

/// What is written for an execution.
#[derive(Clone, Copy)]
pub enum Shown {
    /// The lines of the verdict.
    Verdict,
    /// The graph, for Graphviz; if the execution isn't a candidate, one that says so.
    Graph,
}

/// Writes what shows an execution of a test, on which this is the verdict: the verdict, or the graph. For a graph all memory is
/// taken before anything is written.
pub(crate) fn write_shown<A: Arch, O: Sink>(
    alloc: Global,
    shown: Shown,
    test: &ReadTest<A>,
    judged: &Judged,
    out: &mut O,
) -> Result<(), DrawError>
    requires { IsVerdict A.NAME (number_in A.writing.registers) test.now judged.now.exec judged.now.verdict }
    ensures { Draws (shown_text shown test.now judged.now.exec judged.now.verdict) (O.seen out.old) (O.seen out.new) result }
{
    match shown {
        Shown::Verdict => match write_verdict(&judged.verdict, out) {
            Ok(()) => Ok(()),
            Err(Failed) => Err(DrawError::OutFault),
        },
        Shown::Graph => write_graph_by(alloc, test, &judged.exec, &judged.verdict, out),
    }
}

/// The text of the graph of an execution of a test, the one that `check_files` writes; if the execution isn't a candidate, it says
/// so. It may return `NoMemory` instead.
pub fn draw_execution<A: Arch>(
    alloc: Global,
    test: &ReadTest<A>,
    exec: &Execution,
) -> Result<Vec<u8>, NoMemory>
    requires threads { length exec.now.reads ≡ length test.now.threads }
    requires places { length exec.now.orders ≡ length test.now.places }
    ensures { IfOk result (λ text. IsGraph A.NAME (number_in A.writing.registers) test.now exec.now text.items) }
{
    let verdict = verdict_on(alloc, test, exec)?;
    graph_text_by(alloc, test, exec, &verdict)
}

/// The text of the graph of an execution of a test, on which this is the verdict.
fn graph_text_by<A: Arch>(
    alloc: Global,
    test: &ReadTest<A>,
    exec: &Execution,
    verdict: &Verdict,
) -> Result<Vec<u8>, NoMemory>
    requires { IsVerdict A.NAME (number_in A.writing.registers) test.now exec.now verdict.now }
    ensures { IfOk result (λ text. text.items ≡ graph_if verdict.now.candidate test.now exec.now verdict.now) }
{
    let mut sink = TextSink::new(alloc);
    match write_graph_by(alloc, test, exec, verdict, &mut sink) {
        Ok(()) => Ok(sink.into_text()),
        Err(_) => Err(NoMemory),
    }
}

/// Writes the graph of an execution of a test, on which this is the verdict.
#[tactic(auto, using(crate::proofs::ShownLaws::drawn_edges, crate::proofs::ShownLaws::drawn_candidate))]
fn write_graph_by<A: Arch, O: Sink>(
    alloc: Global,
    test: &ReadTest<A>,
    exec: &Execution,
    verdict: &Verdict,
    out: &mut O,
) -> Result<(), DrawError>
    requires { IsVerdict A.NAME (number_in A.writing.registers) test.now exec.now verdict.now }
    ensures { Draws (graph_if verdict.now.candidate test.now exec.now verdict.now) (O.seen out.old) (O.seen out.new) result }
{
    if verdict.candidate {
        return write_candidate(alloc, test, exec, verdict, out);
    }
    match write_no_graph(test.name(), out) {
        Ok(()) => Ok(()),
        Err(Failed) => Err(DrawError::OutFault),
    }
}

/// Writes the graph of a candidate execution of a test, on which this is the verdict.
fn write_candidate<A: Arch, O: Sink>(
    alloc: Global,
    test: &ReadTest<A>,
    exec: &Execution,
    verdict: &Verdict,
    out: &mut O,
) -> Result<(), DrawError>
    requires candidate { IsCandidate (program_read test.now) exec.now }
    requires edges { AreEdgesOf (judged_cycle A.NAME test.now) verdict.now.edges.items }
    ensures { Draws (graph_text test.now exec.now verdict.now) (O.seen out.old) (O.seen out.new) result }
{
    let seen = match seen_accesses(alloc, test, exec) {
        Ok(seen) => seen,
        Err(NoMemory) => return Err(DrawError::NoMemory),
    };
    let runs = match candidate_runs(alloc, test, exec) {
        Ok(runs) => runs,
        Err(NoMemory) => return Err(DrawError::NoMemory),
    };
    let cycle = resolved_cycle(quoted_cycle(A::NAME, test.quoted()));
    let picture = Picture {
        name: test.name(),
        places: test.places(),
        threads: test.threads(),
        seen: &seen,
        runs: &runs,
        judged: verdict.edges.as_slice(),
        cond: test.cond(),
        holds: verdict.condition,
        coherent: verdict.coherent,
    };
    write_graph(alloc, &picture, &cycle, out)
}
