ghost use Rattle.std.specs.Prelude.{◌≡◌, ℕ, ◌<◌, ◌≤◌, ◌+◌, length, map, Some, slice_get};
ghost use Rattle.list_laws.specs.Numbers.{upto};
ghost use Rattle.cycle_events.specs.{Resolution.{external_count, move_count, slot_of, thread_of}, Values.{write_count}};
ghost use Rattle.program_meaning.specs.Intended.{observed_locations};
ghost use Rattle.tests_force_cycles.specs.{CycleSteps.{event_link, event_step, thread_steps, observing, observer_steps, cycle_steps}, TestOf.{plain}};
ghost use Rattle.test_maker.specs.ThreadStarts.{IsThreadStart, all_steps};

use arch_trait::{Link, Step, link_of};
use arrayvec::ArrayVec;
use coherence_values::Valued;
use relax_edges::{Dir, MAX_EDGES, Mark};

/// The accesses of one thread.
pub type Steps = ArrayVec<Step, MAX_EDGES>;

/// How many threads the test of a cycle has, including its observers.
pub fn thread_count(valued: &Valued) -> u8
    ensures { result ≡ length (cycle_steps valued.now.edges valued.now.mode plain) }
{
    valued.resolved().threads() + observer_count(valued)
}

fn observer_count(valued: &Valued) -> u8
    ensures { result ≡ length (observed_locations valued.now.edges valued.now.mode) }
{
    let mut count = 0;
    for location in 0..valued.resolved().locations() {
        if valued.observed(location) {
            count += 1;
        }
    }
    count
}

/// Makes `steps` the accesses of all events of the cycle, in order; those of one thread are adjacent.
pub fn fill_events(valued: &Valued, steps: &mut Steps)
    ensures { steps.new.items ≡ all_steps valued.now.edges }
{
    steps.clear();
    for i in 0..valued.resolved().cycle().len() {
        steps.push(step_of(valued, i));
    }
}

/// If this thread of the test is an observer, makes `reads` its accesses.
pub fn fill_observer(valued: &Valued, thread: u8, reads: &mut Steps)
    requires { thread < length (cycle_steps valued.now.edges valued.now.mode plain) }
    ensures { external_count valued.now.edges ≤ thread → slice_get (cycle_steps valued.now.edges valued.now.mode plain) thread ≡ Some reads.new.items }
{
    let threads = valued.resolved().threads();
    if thread >= threads {
        fill_reads(valued, observed_location(valued, thread - threads), reads);
    }
}

/// The accesses of a thread of the test: a part of those of all events or, for an observer, its reads.
pub fn steps_of<'a>(valued: &Valued, thread: u8, events: &'a Steps, reads: &'a Steps) -> &'a [Step]
    requires events { events.now.items ≡ all_steps valued.now.edges }
    requires reads { external_count valued.now.edges ≤ thread → slice_get (cycle_steps valued.now.edges valued.now.mode plain) thread ≡ Some reads.now.items }
    ensures steps { slice_get (cycle_steps valued.now.edges valued.now.mode plain) thread ≡ Some result.now }
    ensures few { length result.now ≤ MAX_EDGES }
{
    if thread < valued.resolved().threads() {
        steps_in(valued, thread, events.as_slice())
    } else {
        reads.as_slice()
    }
}

/// The accesses of a thread of the cycle, among those of all events.
fn steps_in<'a>(valued: &Valued, thread: u8, events: &'a [Step]) -> &'a [Step]
    requires events { events.now ≡ all_steps valued.now.edges }
    requires few { length events.now ≤ MAX_EDGES }
    requires within { thread < external_count valued.now.edges }
    ensures steps { result.now ≡ thread_steps valued.now.edges plain thread }
    ensures few { length result.now ≤ MAX_EDGES }
{
    // Brings the invariant of `Valued` into the proof.
    let _edges = valued.resolved().cycle();
    let start = thread_start(valued, thread, 0);
    let end = thread_start(valued, thread + 1, start);
    &events[usize::from(start)..usize::from(end)]
}

/// The first event of this thread or a later one, or how many events there are if there is none; the search begins at
/// an event before which all are of earlier threads.
fn thread_start(valued: &Valued, thread: u8, from: u8) -> u8
    requires within { from ≤ length valued.now.edges }
    requires before { (event : ℕ) → event < from → thread_of valued.now.edges event < thread }
    ensures { IsThreadStart valued.now.edges thread result }
{
    let count = valued.resolved().cycle().len();
    for event in from..count {
        if valued.resolved().event(event).thread >= thread {
            return event;
        }
    }
    count
}

fn step_of(valued: &Valued, i: u8) -> Step
    requires { i < length valued.now.edges }
    ensures { result ≡ event_step valued.now.edges plain i }
{
    let event = valued.resolved().event(i);
    Step {
        dir: event.dir,
        mark: valued.resolved().cycle().edge(i).source_mark(),
        place: event.location,
        value: valued.value_of(i),
        link: link_into(valued, i, event.slot),
    }
}

/// How event `i`, which is in this slot, is tied to the event before it in its thread.
fn link_into(valued: &Valued, i: u8, slot: u8) -> Link
    requires within { i < length valued.now.edges }
    requires slot { slot ≡ slot_of valued.now.edges i }
    ensures { result ≡ event_link valued.now.edges i }
{
    if slot == 0 {
        return Link::Plain;
    }
    link_of(valued.resolved().cycle().edge(i - 1))
}

fn observed_location(valued: &Valued, observer: u8) -> u8
    requires { observer < length (observed_locations valued.now.edges valued.now.mode) }
    ensures found { slice_get (observed_locations valued.now.edges valued.now.mode) observer ≡ Some result }
    ensures within { result < move_count valued.now.edges }
{
    let mut before = 0;
    for location in 0..valued.resolved().locations() {
        if valued.observed(location) {
            if before == observer {
                return location;
            }
            before += 1;
        }
    }
    unreachable!()
}

fn fill_reads(valued: &Valued, location: u8, steps: &mut Steps)
    requires { location < move_count valued.now.edges }
    ensures { steps.new.items ≡ observer_steps valued.now.edges plain location }
{
    // Brings the invariant of `Valued` into the proof.
    let _edges = valued.resolved().cycle();
    steps.clear();
    for k in 0..valued.writes(location) {
        steps.push(Step {
            dir: Dir::R,
            mark: Mark::Plain,
            place: location,
            value: k + 1,
            link: Link::Plain,
        });
    }
}
