ghost use Rattle.std.specs.{Prelude.{◌≡◌, ◌==◌, cond, None, Some, All, length, IfOk, OnOk}, List.{list_any}};
ghost use Rattle.test_maker.specs.Refusals.{refusal_of};
ghost use Rattle.diycross7_cycles.specs.{Choices.{crossed, is_accepted}, Known.{AreNormalForms}, CrossingSteps.{chosen, keep_accepted}};

use crate::kept::Kept;
use arch_trait::Arch;
use arrayvec::ArrayVec;
use diy_io::NoMemory;
use edge_algebra::{Cycle, cycle};
use edges_from_text::Relaxes;
use relax_edges::{Edge, MAX_EDGES, ObsMode};
use std::alloc::Global;
use test_maker::accepted;

/// The cycles of all choices of one relaxation from each list, the last list varying fastest.
///
/// A choice is joined in the order of the lists. It counts if it makes a cycle that has a test on
/// the architecture in the mode; among choices that are rotations of each other the first counts, as it
/// is joined. So a list without a relaxation, or no list, gives no cycle.
///
/// Memory is taken for the cycles and for the set of those that are known; if there is none, the error
/// is `NoMemory`. Choices that begin with more than `MAX_EDGES` edges are skipped together.
pub fn crossed_cycles<A: Arch>(
    alloc: Global,
    lists: &[Relaxes],
    mode: ObsMode,
) -> Result<Vec<Cycle>, NoMemory>
    ensures cycles { IfOk result (λ cycles. cycles.items ≡ crossed A.puts mode lists.now) }
    ensures tests { IfOk result (λ cycles. All (λ cycle. refusal_of A.puts cycle mode ≡ None) cycles.items) }
{
    let mut kept = Kept::new(alloc);
    if !has_empty(lists) {
        let mut joined = ArrayVec::new();
        choose::<A>(lists, mode, &mut joined, &mut kept)?;
    }
    Ok(kept.into_cycles())
}

/// Whether a list has no relaxation, so that there is no choice.
fn has_empty(lists: &[Relaxes]) -> bool
    ensures { result ≡ list_any (λ list. length list == 0) lists.now }
{
    lists.iter().any(|list| list.is_empty())
}

/// Keeps the accepted cycles of all choices from the lists, each appended to the edges that are
/// joined already. If there is no space for the edges of a relaxation, no choice with it is a cycle.
fn choose<A: Arch>(
    lists: &[Relaxes],
    mode: ObsMode,
    joined: &mut ArrayVec<Edge, MAX_EDGES>,
    kept: &mut Kept,
) -> Result<(), NoMemory>
    requires { AreNormalForms kept.old.cycles.items kept.old.known.keys }
    ensures kept { OnOk result (kept.new.cycles.items ≡ chosen (is_accepted A.puts mode) joined.old.items lists.now kept.old.cycles.items) }
    ensures known { OnOk result (AreNormalForms kept.new.cycles.items kept.new.known.keys) }
    ensures joined { OnOk result (joined.new.items ≡ joined.old.items) }
{
    match lists {
        [] => keep_accepted::<A>(joined.as_slice(), mode, kept),
        [first, rest @ ..] => {
            let len = joined.len();
            for relax in first.as_slice() {
                if joined.try_extend_from_slice(relax.edges()).is_ok() {
                    choose::<A>(rest, mode, joined, kept)?;
                    joined.truncate(len);
                }
            }
            Ok(())
        }
    }
}

/// Keeps the edges if they are a cycle that has a test and isn't a rotation of one that is kept.
fn keep_accepted<A: Arch>(edges: &[Edge], mode: ObsMode, kept: &mut Kept) -> Result<(), NoMemory>
    requires { AreNormalForms kept.old.cycles.items kept.old.known.keys }
    ensures kept { OnOk result (kept.new.cycles.items ≡ keep_accepted (is_accepted A.puts mode) kept.old.cycles.items edges.now) }
    ensures known { OnOk result (AreNormalForms kept.new.cycles.items kept.new.known.keys) }
{
    match accepted_cycle::<A>(edges, mode) {
        Some(cycle) => kept.keep(cycle),
        None => Ok(()),
    }
}

/// The cycle of these edges, if they make one and it has a test.
fn accepted_cycle<A: Arch>(edges: &[Edge], mode: ObsMode) -> Option<Cycle>
    ensures { result ≡ cond (is_accepted A.puts mode edges.now) (Some edges.now) None }
{
    match cycle(edges) {
        Ok(cycle) => {
            if accepted::<A>(&cycle, mode).is_ok() {
                Some(cycle)
            } else {
                None
            }
        }
        Err(_) => None,
    }
}
