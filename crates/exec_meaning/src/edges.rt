ghost use Rattle.std.specs.{Prelude.{◌≡◌, ◌↔◌, ◌==◌, ◌^◌, ◌<◌, IsTrue, IfOk, length, map}, Int.{bit_at}};
ghost use Rattle.program_meaning.specs.{Accesses.{visits_of}, Standing.{EdgeStands, access_at, is_in_mask, event_name}, Programs.{IsCandidate}};
ghost use Rattle.litmus_text.specs.ReadPrograms.{program_read};
ghost use Rattle.exec_meaning.specs.StandingEdges.{named_access, same_fence, barriers_agree, is_alone, are_at, is_source, reaches, comes_before, communicates_by, joins, depends_as, barriers_wait, waits, depends_by, ties_by, stands, stands_if};

use crate::accesses::{Accesses, all_accesses, is_read, is_same};
use crate::coherent::{place_of_name, reads_before_name, source_of_name};
use crate::runs::candidate_runs;
use crate::visits::{NamedAccess, Visit, visit_at};
use arch_trait::Arch;
use cycle_resolve::Resolved;
use diy_io::NoMemory;
use litmus_text::ReadTest;
use micro_ops::{Barrier, Trace};
use program_meaning::{Barred, Execution, WriteAt};
use relax_edges::{Com, DepKind, Edge, FenceKind, Kind, Reach, Sd};
use std::alloc::{AllocError, Global};

fn same_barrier(a: Barrier, b: Barrier) -> bool
    ensures { result ≡ barriers_agree a b }
{
    a == b
}

/// Whether the only barrier is this one.
fn is_alone(kind: Barrier, barriers: &[Barred]) -> bool
    ensures { result ≡ is_alone kind barriers.now }
{
    match barriers {
        [only] => same_barrier(only.kind, kind),
        _ => false,
    }
}

/// Whether the location of an edge's target is that of its source, or another, as the edge says.
fn are_at(sd: Sd, from: u8, to: u8) -> bool
    ensures { result ≡ are_at sd from to }
{
    match sd {
        Sd::Same => from == to,
        Sd::Diff => from != to,
    }
}

/// Whether the write that is read is this one.
fn is_source(source: Option<WriteAt>, write: WriteAt) -> bool
    ensures { result ≡ is_source source write }
{
    source.is_some_and(|read| is_same(read, write))
}

/// Whether an edge of this reach can lead from one name to the other: to the next access of the same thread,
/// or to another thread.
fn reaches(reach: Reach, from: WriteAt, to: WriteAt) -> bool
    ensures { result ≡ reaches reach from to }
{
    match reach {
        Reach::Internal => {
            to.thread == from.thread && usize::from(to.access) == usize::from(from.access) + 1
        }
        Reach::External => from.thread != to.thread,
    }
}

/// Whether the coherence position of an access is less than that of another.
fn comes_before(
    all: &[Accesses],
    exec: &Execution,
    source: &NamedAccess,
    target: &NamedAccess,
) -> bool
    ensures { result ≡ comes_before all.now exec.now (access_at source.now) (access_at target.now) }
{
    let before = place_of_name(all, exec, source.name(), source.visit().access());
    before < place_of_name(all, exec, target.name(), target.visit().access())
}

/// Whether two accesses communicate as an edge says, if it is a communication.
fn communicates_by(
    kind: Kind,
    all: &[Accesses],
    exec: &Execution,
    source: &NamedAccess,
    target: &NamedAccess,
) -> bool
    ensures { result ≡ communicates_by kind all.now exec.now (access_at source.now) (access_at target.now) }
{
    let Kind::Com { com, .. } = kind else {
        return true;
    };
    match com {
        Com::Rf => is_source(source_of_name(all, exec, target.name()), source.name()),
        Com::Fr | Com::Ws => comes_before(all, exec, source, target),
    }
}

/// Whether an edge joins two accesses.
fn joins(
    all: &[Accesses],
    exec: &Execution,
    edge: Edge,
    source: &NamedAccess,
    target: &NamedAccess,
) -> bool
    ensures { result ≡ joins all.now exec.now edge (access_at source.now) (access_at target.now) }
{
    let from = source.visit().access();
    let to = target.visit().access();
    from.dir == edge.source()
        && to.dir == edge.target()
        && are_at(edge.place(), from.place, to.place)
        && communicates_by(edge.kind(), all, exec, source, target)
        && reaches(edge.reach(), source.name(), target.name())
}

/// Whether a mask names load number `load` and no other.
#[tactic(auto, using(crate::proofs::EdgeLaws::no_mask))]
fn is_mask_of(mask: u64, load: usize) -> bool
    ensures { result ≡ (mask == 2 ^ load) }
{
    load < 64 && mask == 1 << load
}

/// Whether a mask names load number `load`.
#[tactic(auto, using(crate::proofs::EdgeLaws::no_load))]
fn has_load(mask: u64, load: usize) -> bool
    ensures { result ≡ (bit_at mask load == 1) }
{
    load < 64 && mask >> load & 1 == 1
}

/// Whether an access is a read and a mask names it.
fn is_in_mask(all: &[Accesses], source: &NamedAccess, mask: u64) -> bool
    ensures { result ≡ is_in_mask all.now source.now mask }
{
    is_read(source.visit().access()) && has_load(mask, reads_before_name(all, source.name()))
}

/// How the second of two accesses depends on the first.
#[derive(Clone, Copy)]
enum Tie {
    Nothing,
    Address,
    Data,
    Control,
}

/// Whether the second of two accesses depends on the first in this way only, and its address and its data
/// depend on no other load.
fn depends(tie: Tie, all: &[Accesses], source: &NamedAccess, target: &Visit) -> bool
    ensures { result ≡ depends_as tie all.now source.now target.now }
{
    let load = reads_before_name(all, source.name());
    let controlled = is_in_mask(all, source, target.control_mask());
    match tie {
        Tie::Nothing => target.address_mask() == 0 && target.data_mask() == 0 && !controlled,
        Tie::Address => is_mask_of(target.address_mask(), load)
            && target.data_mask() == 0
            && !controlled,
        Tie::Data => target.address_mask() == 0
            && is_mask_of(target.data_mask(), load)
            && !controlled,
        Tie::Control => target.address_mask() == 0 && target.data_mask() == 0 && controlled,
    }
}

/// Whether the control mask of each barrier names the access.
fn barriers_wait(all: &[Accesses], source: &NamedAccess, barriers: &[Barred]) -> bool
    ensures { result ≡ barriers_wait all.now source.now barriers.now }
{
    barriers
        .iter()
        .all(|barrier| is_in_mask(all, source, barrier.control))
}

/// Whether this is the only barrier before the second access, its control mask names the first access, and
/// the second depends on the first by control only.
fn waits(kind: Barrier, all: &[Accesses], source: &NamedAccess, target: &Visit) -> bool
    ensures { result ≡ waits kind all.now source.now target.now }
{
    is_alone(kind, target.barriers())
        && depends(Tie::Control, all, source, target)
        && barriers_wait(all, source, target.barriers())
}

/// Whether the second access depends on the first as this dependency says, with the dependency's barrier
/// between them or none.
fn depends_by(kind: DepKind, all: &[Accesses], source: &NamedAccess, target: &Visit) -> bool
    ensures { result ≡ depends_by kind all.now source.now target.now }
{
    match kind {
        DepKind::Addr => target.barriers().is_empty() && depends(Tie::Address, all, source, target),
        DepKind::Ctrl => target.barriers().is_empty() && depends(Tie::Control, all, source, target),
        DepKind::CtrlIsync => waits(Barrier::Fence(FenceKind::ISync), all, source, target),
        DepKind::CtrlIsb => waits(Barrier::Isb, all, source, target),
    }
}

/// Whether the barriers and dependencies between two accesses are what an edge says, if it is internal.
fn ties_by(kind: Kind, all: &[Accesses], source: &NamedAccess, target: &Visit) -> bool
    ensures { result ≡ ties_by kind all.now source.now target.now }
{
    match kind {
        Kind::Com {
            reach: Reach::External,
            ..
        } => true,
        Kind::Com { .. } | Kind::Po { .. } => target.barriers().is_empty()
            && depends(Tie::Nothing, all, source, target),
        Kind::Fenced { fence, .. } => {
            is_alone(Barrier::Fence(fence), target.barriers())
                && depends(Tie::Nothing, all, source, target)
        }
        Kind::Dep { dep, .. } => depends_by(dep, all, source, target),
        Kind::Data { .. } => target.barriers().is_empty()
            && depends(Tie::Data, all, source, target),
    }
}

/// Whether an edge stands from the first access to the second.
fn stands(
    all: &[Accesses],
    exec: &Execution,
    edge: Edge,
    source: &NamedAccess,
    target: &NamedAccess,
) -> bool
    ensures { result ≡ stands all.now exec.now edge source.now target.now }
{
    joins(all, exec, edge, source, target)
        && source.visit().mark() == edge.source_mark()
        && target.visit().mark() == edge.target_mark()
        && ties_by(edge.kind(), all, source, target.visit())
}

/// Whether there are two accesses and an edge stands from the first to the second.
fn stands_if(
    all: &[Accesses],
    exec: &Execution,
    edge: Edge,
    source: &Option<NamedAccess>,
    target: &Option<NamedAccess>,
) -> bool
    ensures { result ≡ stands_if all.now exec.now edge source.now target.now }
{
    match (source, target) {
        (Some(source), Some(target)) => stands(all, exec, edge, source, target),
        _ => false,
    }
}

/// The access with a name, if there is one.
fn named_access(
    alloc: Global,
    traces: &[Trace],
    name: WriteAt,
) -> Result<Option<NamedAccess>, AllocError>
    ensures { IfOk result (λ access. access ≡ named_access (map (λ trace. visits_of trace.items) traces.now) name) }
{
    let Some(trace) = traces.get(usize::from(name.thread)) else {
        return Ok(None);
    };
    match visit_at(alloc, trace.items(), name.access)? {
        Some(visit) => Ok(Some(NamedAccess::new(name, visit))),
        None => Ok(None),
    }
}

/// The name of event `i` of a cycle.
fn event_name(resolved: &Resolved, i: u8) -> WriteAt
    requires { i < length resolved.now }
    ensures { result ≡ event_name resolved.now i }
{
    let event = resolved.event(i);
    WriteAt {
        thread: event.thread,
        access: event.slot,
    }
}

/// Whether edge `i` of a cycle stands in a candidate execution of a test: event `i` and the one after it are
/// accesses in it, and the edge stands from the first to the second. It may return `NoMemory` instead.
pub fn edge_stands<A: Arch>(
    alloc: Global,
    test: &ReadTest<A>,
    exec: &Execution,
    resolved: &Resolved,
    i: u8,
) -> Result<bool, NoMemory>
    requires candidate { IsCandidate (program_read test.now) exec.now }
    requires within { i < length resolved.now }
    ensures { IfOk result (λ answer. IsTrue answer ↔ EdgeStands resolved.now (program_read test.now) exec.now i) }
{
    let traces = candidate_runs(alloc, test, exec)?;
    let all = all_accesses(alloc, &traces)?;
    let from = event_name(resolved, i);
    let to = event_name(resolved, resolved.event_after(i));
    let source = named_access(alloc, &traces, from)?;
    let target = named_access(alloc, &traces, to)?;
    let edge = resolved.cycle().edge(i);
    Ok(stands_if(&all, exec, edge, &source, &target))
}
