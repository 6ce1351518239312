ghost use Rattle.std.specs.Prelude.{◌≡◌};
ghost use Rattle.text_parts.specs.NumberTexts.{number_of};

use std::str;
use text_parts::Class;

/// The number that these bytes represent in decimal. There is none if they aren't all digits, if
/// there are no bytes, if a zero leads other digits, or if the number is above `u32::MAX`.
#[tactic(auto, using(text_parts::proofs::NumberLaws::not_digits, text_parts::proofs::NumberLaws::leading_zero, text_parts::proofs::NumberLaws::parsed, text_parts::proofs::NumberLaws::digits_ascii))]
pub fn number_of(digits: &[u8]) -> Option<u32>
    ensures { result ≡ number_of digits.now }
{
    if !Class::Digit.has_all(digits) {
        return None;
    }
    if let [b'0', _, ..] = digits {
        return None;
    }
    match str::from_utf8(digits) {
        Ok(text) => text.parse().ok(),
        Err(_) => unreachable!(),
    }
}
