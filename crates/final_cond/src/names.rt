ghost use Rattle.std.specs.{Prelude.{◌≡◌, ◌≤◌, true, length, option_map, cond, Some, None}, Char.{is_ascii}, List.{list_all}};
ghost use Rattle.text_parts.specs.Names.{is_place_name, is_register_name};

use crate::cond::{PlaceName, RegName};
use arrayvec::ArrayString;
use std::str;
use text_parts::Class;

/// The most bytes that the name of a location or a register can have.
pub const MAX_CONDITION_NAME: usize = 16;

/// Whether these bytes have the form of a location's name: a letter or `_`, then letters, digits
/// and `_`, at most `MAX_CONDITION_NAME` bytes in all. Letters and digits are those of ASCII.
#[tactic(auto, using(text_parts::proofs::NameLaws::is_place_name_parts), unfolding(text_parts::specs::Names::is_place_name))]
pub fn is_place_name(name: &[u8]) -> bool
    ensures { result ≡ is_place_name name.now }
{
    match name {
        [] => false,
        [first, others @ ..] => {
            let begins = first.is_ascii_alphabetic() || *first == b'_';
            begins && Class::PlaceName.has_all(others) && name.len() <= MAX_CONDITION_NAME
        }
    }
}

/// Whether these bytes have the form of a register's name: a letter, then letters and digits, at
/// most `MAX_CONDITION_NAME` bytes in all. Letters and digits are those of ASCII.
#[tactic(auto, using(text_parts::proofs::NameLaws::is_register_name_parts), unfolding(text_parts::specs::Names::is_register_name))]
pub fn is_register_name(name: &[u8]) -> bool
    ensures { result ≡ is_register_name name.now }
{
    match name {
        [] => false,
        [first, others @ ..] => {
            let begins = first.is_ascii_alphabetic();
            begins && Class::RegisterName.has_all(others) && name.len() <= MAX_CONDITION_NAME
        }
    }
}

#[tactic(auto, using(text_parts::proofs::NameLaws::utf8_from_ascii))]
fn name_of(bytes: &[u8]) -> ArrayString<MAX_CONDITION_NAME>
    requires ascii { list_all is_ascii bytes.now ≡ true }
    requires short { length bytes.now ≤ MAX_CONDITION_NAME }
    ensures { result.bytes ≡ bytes.now }
{
    let mut name = ArrayString::new();
    match str::from_utf8(bytes) {
        Ok(text) => name.push_str(text),
        Err(_) => unreachable!(),
    }
    name
}

/// The name of a location, if these bytes have the form of one.
#[tactic(auto, using(text_parts::proofs::NameLaws::place_name_ascii, text_parts::proofs::NameLaws::place_name_short))]
pub fn place_name(name: &[u8]) -> Option<PlaceName>
    ensures { option_map (λ p. p.bytes) result ≡ cond (is_place_name name.now) (Some name.now) None }
{
    if is_place_name(name) {
        Some(name_of(name))
    } else {
        None
    }
}

/// The name of a register, if these bytes have the form of one.
#[tactic(auto, using(text_parts::proofs::NameLaws::register_name_ascii, text_parts::proofs::NameLaws::register_name_short))]
pub fn register_name(name: &[u8]) -> Option<RegName>
    ensures { option_map (λ p. p.bytes) result ≡ cond (is_register_name name.now) (Some name.now) None }
{
    if is_register_name(name) {
        Some(name_of(name))
    } else {
        None
    }
}
