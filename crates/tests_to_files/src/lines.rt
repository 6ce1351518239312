ghost use Rattle.std.specs.Prelude.{◌≡◌, ◌≤◌, ◌↔◌, true, List, OnOk, OnErr};
ghost use Rattle.relax_edges.specs.{declared.TheConstants.{MAX_EDGES}, declared.edge.Edge.{Edge as EdgeValue}};
ghost use Rattle.edge_algebra.specs.Composable.{IsCycle};
ghost use Rattle.cycle_enum.specs.Walking.{KnowsOf, Says};
ghost use Rattle.tests_to_files.specs.{ListedLines.{EndsLines, StopsAtLine, WritesLines}, Plans.{IsPlanned, Seeks, is_sought, plan_in, walk_plan}};

use crate::listing::Listing;
use crate::names::next_accepted;
use crate::wanted::{Wanted, may_lead};
use arch_trait::Arch;
use arrayvec::ArrayString;
use cycle_enum::Walk;
use cycle_names::{MAX_CYCLE_NAME, MAX_NAME_LINE};
use cycles_from_lines::send_name_line;
use diy_io::{Failed, Page, Sink};
use edge_algebra::Cycle;
use relax_edges::Edge;

/// Writes to `out` a line for each listed cycle, in order: its name, a colon and a blank, and its
/// edges in the rotation that it is named from, joined by blanks. It allocates no memory.
///
/// The listed cycles are those for which `list_tests` writes a file. No test is made, and the folder
/// doesn't matter. If the sink fails, it has taken a prefix of the lines.
#[tactic(auto, using(crate::proofs::WantedCycles::pruning))]
pub fn write_listed<A: Arch, O: Sink>(listing: Listing, out: &mut O) -> Result<(), Failed>
    requires size { listing.limits.size ≤ MAX_EDGES }
    ensures { EndsLines (plan_in A.puts A.writing listing.entry) listing.entry.after (O.seen out.old) (O.seen out.new) result }
{
    let wanted = listing.wanted();
    let keep = |edges: &[Edge]| may_lead::<A>(edges);
    let fit = |edges: &[Edge]| wanted.may_fit(edges);
    let take = |cycle: &Cycle| -> bool
        ensures { result ≡ is_sought A.puts.name wanted.entry.threads wanted.entry.accesses cycle.now }
    { wanted.seeks::<A>(cycle) };
    let mut walk = listing.walk(keep, fit, take);
    write_lines::<A, O, _, _, _>(&wanted, &mut walk, out)
}

/// Writes the lines of those of a walk's cycles that have a test, from where the walk is.
#[inline(never)]
fn write_lines<
    A: Arch,
    O: Sink,
    K: Fn(&[Edge]) -> bool,
    J: Fn(&[Edge]) -> bool,
    P: Fn(&Cycle) -> bool,
>(wanted: &Wanted, walk: &mut Walk<K, J, P>, out: &mut O) -> Result<(), Failed>
    requires knows { KnowsOf K.pre K.Fn.post J.pre J.Fn.post P.pre P.Fn.post walk.old.taken walk.old.keep walk.old.fit walk.old.take }
    requires sought { (cycle : List EdgeValue) → IsCycle cycle → Says P.Fn.post walk.old.take cycle true ↔ Seeks A.puts wanted.now cycle }
    ensures ok { OnOk result (WritesLines (IsPlanned (walk_plan A.puts A.writing wanted.now walk.old)) walk.old.last (O.seen out.old) (O.seen out.new)) }
    ensures failed { OnErr result (StopsAtLine (IsPlanned (walk_plan A.puts A.writing wanted.now walk.old)) walk.old.last (O.seen out.old) (O.seen out.new)) }
{
    let mut page = Page::new();
    let mut words: ArrayString<MAX_CYCLE_NAME> = ArrayString::new();
    let mut line: ArrayString<MAX_NAME_LINE> = ArrayString::new();
    while let Some(cycle) = next_accepted::<A, K, J, P>(walk, wanted.mode) {
        send_name_line(&cycle, &mut words, &mut line, &mut page, out)?;
    }
    page.flush(out)
}
