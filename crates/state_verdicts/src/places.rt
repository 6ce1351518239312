ghost use Rattle.std.specs.Prelude.{◌≡◌, ◌≤◌, IfOk, length};
ghost use Rattle.final_cond.specs.Conditions.{cond_view, left_view, term_view};
ghost use Rattle.arch_trait.specs.PlaceNames.{number_in};
ghost use Rattle.state_verdicts.specs.StateParts.{place_named, end_given, ends_given, is_number};

use arch_trait::Places;
use final_cond::{Cond, Left};
use std::alloc::{AllocError, Global};

/// The number of a location with this name.
fn number_of(places: &Places, name: &[u8]) -> Option<u8>
    ensures { result ≡ number_in places.now name.now }
{
    for place in 0..places.len() {
        if places.get(place).as_str().as_bytes() == name {
            return Some(place);
        }
    }
    None
}

/// The location that a left side names, if it is one of these.
fn place_named(places: &Places, left: &Left) -> Option<u8>
    ensures { result ≡ place_named places.now (left_view left.now) }
{
    match left {
        Left::Register { .. } => None,
        Left::Place { name } => number_of(places, name.as_str().as_bytes()),
    }
}

/// Whether a left side names this location.
fn names(places: &Places, place: u8, left: &Left) -> bool
    ensures { result ≡ is_number place (place_named places.now (left_view left.now)) }
{
    match place_named(places, left) {
        Some(found) => found == place,
        None => false,
    }
}

/// The final value of a location, if a state gives it.
fn end_given(places: &Places, state: &Cond, place: u8) -> Option<u32>
    ensures { result ≡ end_given places.now (cond_view state.now).terms place }
{
    for term in state.terms.as_slice() {
        if names(places, place, &term.left) {
            return Some(term.value);
        }
    }
    None
}

/// The final value of each location, if a state gives it.
pub(crate) fn ends_given(
    alloc: Global,
    places: &Places,
    state: &Cond,
) -> Result<Vec<Option<u32>>, AllocError>
    ensures ends { IfOk result (λ ends. ends.items ≡ ends_given places.now (cond_view state.now).terms) }
    ensures few { IfOk result (λ ends. length ends.items ≤ 255) }
{
    let mut ends = Vec::new(alloc);
    for place in 0..places.len() {
        ends.push(end_given(places, state, place))?;
    }
    Ok(ends)
}
