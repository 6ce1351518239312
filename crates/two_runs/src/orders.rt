ghost use Rattle.std.specs.{Prelude.{◌≡◌, ◌≤◌, ◌<◌, length, OnOk}, Option.{ForSome}};
ghost use Rattle.cycle_events.specs.{Resolution.{move_count}, Values.{write_count}};
ghost use Rattle.accesses_force_cycles.specs.Exchange.{swapped};
ghost use Rattle.program_meaning.specs.KeptExecutions.{empty_lists};
ghost use Rattle.two_runs.specs.Runs.{with_appended, numbers_by, order_of, run_by, value_there};

use crate::places::location_at;
use crate::reads::write_of;
use arch_trait::Places;
use coherence_values::Valued;
use diy_io::NoMemory;
use exec_meaning::Execution;

/// Adds the writes of all locations, each location's in the order of their values, except that the write
/// `moved`, if there is one, is exchanged with the one before it.
pub(crate) fn add_orders(
    valued: &Valued,
    places: &Places,
    moved: Option<u8>,
    exec: &mut Execution,
) -> Result<(), NoMemory>
    requires orders { exec.old.orders ≡ empty_lists (move_count valued.now.edges) }
    requires moved { ForSome moved (λ event. event < length valued.now.edges) }
    ensures { OnOk result (exec.new ≡ record exec.old { orders = (run_by valued.now.edges valued.now.mode moved (numbers_by places.now)).orders }) }
{
    for place in 0..valued.resolved().locations() {
        let location = location_at(valued, places, place);
        add_order(valued, place, location, moved, exec)?;
    }
    Ok(())
}

fn add_order(
    valued: &Valued,
    place: u8,
    location: u8,
    moved: Option<u8>,
    exec: &mut Execution,
) -> Result<(), NoMemory>
    requires place { place < length exec.old.orders }
    requires location { location < move_count valued.now.edges }
    requires moved { ForSome moved (λ event. event < length valued.now.edges) }
    ensures { OnOk result (exec.new ≡ record exec.old { orders = with_appended exec.old.orders place (order_of valued.now.edges moved location) }) }
{
    for k in 0..valued.writes(location) {
        let value = value_there(valued, moved, location, k + 1);
        if let Some(write) = write_of(valued, location, value) {
            exec.add_write(place, write)?;
        }
    }
    Ok(())
}

/// The value whose write is in the position of this value's write, if the write `moved` and the one before it
/// are exchanged; the same value, if no write is moved or `moved` is at another location.
fn value_there(valued: &Valued, moved: Option<u8>, location: u8, value: u8) -> u8
    requires some { 1 ≤ value }
    requires most { value ≤ write_count valued.now.edges location }
    requires moved { ForSome moved (λ event. event < length valued.now.edges) }
    ensures there { result ≡ value_there valued.now.edges moved location value }
    ensures most { result ≤ write_count valued.now.edges location }
{
    // Brings the invariant of `Valued` into the proof.
    let _edges = valued.resolved().cycle();
    match moved {
        Some(event) if valued.resolved().event(event).location == location => {
            swap_value(valued.value_of(event), value)
        }
        _ => value,
    }
}

/// The value `v`, if `value` and the value before it are exchanged.
fn swap_value(value: u8, v: u8) -> u8
    requires some { 1 ≤ v }
    requires below { v < 255 }
    ensures { result ≡ swapped value v }
{
    if v == value {
        value - 1
    } else if v + 1 == value {
        value
    } else {
        v
    }
}
