ghost use Rattle.std.specs.Prelude.{◌≡◌, ◌∷◌, []};
ghost use Rattle.text_parts.specs.NumberTexts.{number_of};
ghost use Rattle.arch_trait.specs.Writing.{register_at, immediate_number};

use arch_trait::MAX_IMMEDIATE;
use final_cond::number_of;

/// The number that these bytes write in decimal, as `number_of` returns it; one or two digits are read without it.
#[inline(always)]
#[tactic(auto, using(crate::proofs::ReadDigits::one_is, crate::proofs::ReadDigits::two_are))]
fn number(digits: &[u8]) -> Option<u32>
    ensures { result ≡ number_of digits.now }
{
    match digits {
        [a] => one_digit(*a, digits),
        [a, b] => two_digits(*a, *b, digits),
        _ => number_of(digits),
    }
}

#[inline(always)]
#[tactic(auto, using(crate::proofs::ReadDigits::one_read))]
fn one_digit(a: u8, digits: &[u8]) -> Option<u32>
    requires { digits.now ≡ a ∷ [] }
    ensures { result ≡ number_of digits.now }
{
    if b'0' <= a && a <= b'9' {
        Some(u32::from(a - b'0'))
    } else {
        number_of(digits)
    }
}

#[inline(always)]
#[tactic(auto, using(crate::proofs::ReadDigits::two_read))]
fn two_digits(a: u8, b: u8, digits: &[u8]) -> Option<u32>
    requires { digits.now ≡ a ∷ b ∷ [] }
    ensures { result ≡ number_of digits.now }
{
    if b'1' <= a && a <= b'9' && b'0' <= b && b <= b'9' {
        Some(10 * u32::from(a - b'0') + u32::from(b - b'0'))
    } else {
        number_of(digits)
    }
}

/// The register whose number these bytes write, among `count` registers of which the first has number `first`.
#[inline(always)]
pub(crate) fn register_in(first: u8, count: u8, digits: &[u8]) -> Option<u8>
    ensures { result ≡ register_at first count (number_of digits.now) }
{
    match number(digits) {
        Some(n) if n >= u32::from(first) => {
            let r = n - u32::from(first);
            if r < u32::from(count) {
                Some(r as u8)
            } else {
                None
            }
        }
        _ => None,
    }
}

/// The number that these bytes write, if it is at most `MAX_IMMEDIATE`.
#[inline(always)]
#[tactic(auto, unfolding(arch_trait::specs::Writing::immediate_number))]
pub(crate) fn immediate(digits: &[u8]) -> Option<u32>
    ensures { result ≡ immediate_number digits.now }
{
    match number(digits) {
        Some(n) if n <= MAX_IMMEDIATE => Some(n),
        _ => None,
    }
}
