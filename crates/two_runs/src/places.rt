ghost use Rattle.std.specs.Prelude.{◌≡◌, ◌<◌};
ghost use Rattle.cycle_events.specs.Resolution.{move_count};
ghost use Rattle.arch_trait.specs.PlaceNames.{location_name};
ghost use Rattle.litmus_text.specs.Placing.{place_in};
ghost use Rattle.program_meaning.specs.Intended.{location_numbered};
ghost use Rattle.two_runs.specs.Runs.{numbers_by};

use arch_trait::Places;
use coherence_values::Valued;
use final_cond::PlaceName;

/// The cycle's location that has this number in the test, whose locations have these names.
pub(crate) fn location_at(valued: &Valued, places: &Places, place: u8) -> u8
    requires { place < move_count valued.now.edges }
    ensures location { result ≡ location_numbered valued.now.edges (numbers_by places.now) place }
    ensures within { result < move_count valued.now.edges }
{
    let locations = valued.resolved().locations();
    let names = Places::letters(locations);
    for location in 0..locations {
        if number_of(places, names.get(location)) == place {
            return location;
        }
    }
    0
}

/// The number of a name among those of locations, or 0 if it isn't among them.
fn number_of(places: &Places, name: &PlaceName) -> u8
    ensures { result ≡ place_in places.now name.now.bytes }
{
    for number in 0..places.len() {
        if places.get(number).as_str() == name.as_str() {
            return number;
        }
    }
    0
}
