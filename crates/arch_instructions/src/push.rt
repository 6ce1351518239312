ghost use Rattle.std.specs.Prelude.{◌≡◌, ◌≤◌, ◌++◌, length};
ghost use Rattle.arch_trait.specs.Writing.{name_in};

use arch_trait::{MAX_INSTRUCTION_TEXT, Places};
use arrayvec::ArrayString;

/// The text of an instruction.
pub(crate) type Text = ArrayString<MAX_INSTRUCTION_TEXT>;

/// Appends a text; one of at most two bytes without a loop over them.
#[inline]
pub fn push_short(text: &str, out: &mut Text)
    requires room { length (out.old.bytes ++ text.now) ≤ MAX_INSTRUCTION_TEXT }
    ensures { out.new.bytes ≡ out.old.bytes ++ text.now }
{
    match text.len() {
        0 => {}
        1 => out.push_str(text),
        2 => out.push_str(text),
        _ => out.push_str(text),
    }
}

/// Appends a word; one of three bytes without a loop over them.
#[inline]
pub(crate) fn push_word(word: &str, out: &mut Text)
    requires room { length (out.old.bytes ++ word.now) ≤ MAX_INSTRUCTION_TEXT }
    ensures { out.new.bytes ≡ out.old.bytes ++ word.now }
{
    match word.len() {
        3 => out.push_str(word),
        _ => out.push_str(word),
    }
}

/// Appends the name of a location, if it has one.
#[inline]
pub(crate) fn push_place(place: u8, places: &Places, out: &mut Text)
    requires room { length (out.old.bytes ++ name_in places.now place) ≤ MAX_INSTRUCTION_TEXT }
    ensures { out.new.bytes ≡ out.old.bytes ++ name_in places.now place }
{
    if place < places.len() {
        push_short(places.get(place).as_str(), out);
    }
}
