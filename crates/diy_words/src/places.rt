ghost use Rattle.std.specs.Prelude.{◌≡◌, Ok, IfOk, IsOk};
ghost use Rattle.edges_from_text.specs.Relaxations.{relaxes_of};
ghost use Rattle.diy_words.specs.Requests.{asked_of, IsCrossing, places_of};

use crate::notes::begins_option;
use crate::options::{Tool, option_named};
use diy_io::{NoMemory, Words};
use edges_from_text::{Relaxes, read_relaxes};
use std::alloc::Global;

/// The lists of relaxations of the operands of diycross7, in order. The only error is running out of memory.
pub fn read_places(alloc: Global, words: &Words) -> Result<Vec<Relaxes>, NoMemory>
    // The arguments ask for something of diycross7.
    requires { IsCrossing (asked_of words.now) }
    ensures { IfOk result (λ places. places.items ≡ places_of (asked_of words.now)) }
{
    let mut places = Vec::new(alloc);
    let mut at = 1;
    while at < words.len() {
        let word = words.get(at);
        match option_named(Tool::Cross, word) {
            Some(_) => at += 2,
            None if begins_option(word.as_bytes()) => at += 1,
            None => {
                places.push(read_place(word))?;
                at += 1;
            }
        }
    }
    Ok(places)
}

/// The relaxations that a text spells.
fn read_place(text: &str) -> Relaxes
    requires { IsOk (relaxes_of text.now) }
    ensures { relaxes_of text.now ≡ Ok result }
{
    let mut relaxes = Relaxes::new();
    match read_relaxes(text, &mut relaxes) {
        Ok(()) => relaxes,
        Err(_) => unreachable!(),
    }
}
