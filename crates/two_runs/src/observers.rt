ghost use Rattle.std.specs.Prelude.{◌≡◌, ◌<◌, ◌++◌, length, OnOk};
ghost use Rattle.cycle_events.specs.Resolution.{move_count};
ghost use Rattle.program_meaning.specs.KeptExecutions.{empty_lists};
ghost use Rattle.program_meaning.specs.Intended.{observed_locations, observer_reads};
ghost use Rattle.two_runs.specs.Runs.{with_appended, cycle_reads, run_reads};

use crate::reads::write_of;
use arrayvec::ArrayVec;
use coherence_values::Valued;
use diy_io::NoMemory;
use exec_meaning::Execution;
use relax_edges::MAX_EDGES;

/// The locations that have an observer, in order.
pub(crate) fn observed_locations(valued: &Valued) -> ArrayVec<u8, MAX_EDGES>
    ensures { result.items ≡ observed_locations valued.now.edges valued.now.mode }
{
    let mut observed = ArrayVec::new();
    for location in 0..valued.resolved().locations() {
        if valued.observed(location) {
            observed.push(location);
        }
    }
    observed
}

/// Adds what the observers of these locations read. Their threads come after those of the cycle.
pub(crate) fn add_observers(
    valued: &Valued,
    observed: &[u8],
    exec: &mut Execution,
) -> Result<(), NoMemory>
    requires observed { observed.now ≡ observed_locations valued.now.edges valued.now.mode }
    requires reads { exec.old.reads ≡ cycle_reads valued.now.edges ++ empty_lists (length observed.now) }
    ensures { OnOk result (exec.new ≡ record exec.old { reads = run_reads valued.now.edges valued.now.mode }) }
{
    let threads = valued.resolved().threads();
    for (k, location) in observed.iter().enumerate() {
        add_observer(valued, *location, threads + k as u8, exec)?;
    }
    Ok(())
}

/// Adds what the observer of a location reads: the writes of the location, in the order of their values.
fn add_observer(
    valued: &Valued,
    location: u8,
    thread: u8,
    exec: &mut Execution,
) -> Result<(), NoMemory>
    requires location { location < move_count valued.now.edges }
    requires thread { thread < length exec.old.reads }
    ensures { OnOk result (exec.new ≡ record exec.old { reads = with_appended exec.old.reads thread (observer_reads valued.now.edges location) }) }
{
    for k in 0..valued.writes(location) {
        let from = write_of(valued, location, k + 1);
        exec.add_read(thread, u32::from(k + 1), from)?;
    }
    Ok(())
}
