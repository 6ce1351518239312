ghost use Rattle.std.specs.Prelude.{◌≡◌, ◌≤◌, ◌<◌, ◌+◌, ◌++◌, length, OnOk};
ghost use Rattle.cycle_events.specs.{Resolution.{external_count}, Values.{write_count}};
ghost use Rattle.program_meaning.specs.KeptExecutions.{empty_lists};
ghost use Rattle.program_meaning.specs.Intended.{write_of};
ghost use Rattle.two_runs.specs.Runs.{with_appended, cycle_reads, is_read_of, observer_count, thread_reads};

use coherence_values::Valued;
use diy_io::NoMemory;
use exec_meaning::Execution;
use program_meaning::WriteAt;
use relax_edges::Dir;

/// Adds what the reads of the cycle's threads read: each the write of its value, or the initial value.
/// The observers come after these threads.
pub(crate) fn add_reads(valued: &Valued, exec: &mut Execution) -> Result<(), NoMemory>
    requires { exec.old.reads ≡ empty_lists (external_count valued.now.edges + observer_count valued.now.edges valued.now.mode) }
    ensures { OnOk result (exec.new ≡ record exec.old { reads = cycle_reads valued.now.edges ++ empty_lists (observer_count valued.now.edges valued.now.mode) }) }
{
    for thread in 0..valued.resolved().threads() {
        add_thread(valued, thread, exec)?;
    }
    Ok(())
}

fn add_thread(valued: &Valued, thread: u8, exec: &mut Execution) -> Result<(), NoMemory>
    requires { thread < length exec.old.reads }
    ensures { OnOk result (exec.new ≡ record exec.old { reads = with_appended exec.old.reads thread (thread_reads valued.now.edges thread) }) }
{
    for i in 0..valued.resolved().cycle().len() {
        if is_read_of(valued, thread, i) {
            let value = valued.value_of(i);
            let from = write_of(valued, valued.resolved().event(i).location, value);
            exec.add_read(thread, u32::from(value), from)?;
        }
    }
    Ok(())
}

/// Whether an event is a read in a thread.
fn is_read_of(valued: &Valued, thread: u8, i: u8) -> bool
    requires { i < length valued.now.edges }
    ensures { result ≡ is_read_of valued.now.edges thread i }
{
    let event = valued.resolved().event(i);
    match event.dir {
        Dir::R => event.thread == thread,
        Dir::W => false,
    }
}

/// The write of this value to a location, or none for the value 0, which is the initial one.
pub(crate) fn write_of(valued: &Valued, location: u8, value: u8) -> Option<WriteAt>
    requires { value ≤ write_count valued.now.edges location }
    ensures { result ≡ write_of valued.now.edges location value }
{
    if value == 0 {
        return None;
    }
    let event = valued
        .resolved()
        .event(valued.write_at(location, value - 1));
    Some(WriteAt {
        thread: event.thread,
        access: event.slot,
    })
}
