ghost use Rattle.std.specs.{Prelude.{◌≡◌, ◌<◌, length, IfOk}, Option.{ForSome}};
ghost use Rattle.two_runs.specs.Runs.{numbers_by, run_by};

use crate::observers::{add_observers, observed_locations};
use crate::orders::add_orders;
use crate::reads::add_reads;
use arch_trait::Places;
use coherence_values::Valued;
use diy_io::NoMemory;
use exec_meaning::Execution;
use std::alloc::Global;

/// The execution of a cycle's test in which each read reads the write of its value, and the writes of a
/// location are in the order of their values, except that the write `moved`, if there is one, is exchanged
/// with the one before it. The locations of the test have these names, in this order.
pub(crate) fn run_of(
    alloc: Global,
    valued: &Valued,
    places: &Places,
    moved: Option<u8>,
) -> Result<Execution, NoMemory>
    requires { ForSome moved (λ event. event < length valued.now.edges) }
    ensures { IfOk result (λ run. run ≡ run_by valued.now.edges valued.now.mode moved (numbers_by places.now)) }
{
    let resolved = valued.resolved();
    let observed = observed_locations(valued);
    let threads = resolved.threads() + observed.len() as u8;
    let mut run = Execution::new(alloc, threads, resolved.locations())?;
    add_reads(valued, &mut run)?;
    add_observers(valued, observed.as_slice(), &mut run)?;
    add_orders(valued, places, moved, &mut run)?;
    Ok(run)
}
