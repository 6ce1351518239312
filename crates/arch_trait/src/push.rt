ghost use Rattle.std.specs.{Prelude.{◌≡◌, ◌<◌, ◌≤◌, ◌+◌, ◌++◌, ◌∷◌, [], length}, Fmt.{decimal}};
ghost use Rattle.arch_trait.specs.Writing.{label_name};

use arrayvec::ArrayString;
use itoa::Buffer;

/// Appends a number in decimal; one of one or two digits without a loop.
#[inline(always)]
#[tactic(auto, using(std::proofs::lemmas::Fmt::decimal_digit, crate::proofs::Digits::two_digits))]
pub fn push_number<const N: usize>(n: u32, out: &mut ArrayString<N>)
    requires room { length (out.old.bytes ++ decimal n) ≤ N }
    ensures { out.new.bytes ≡ out.old.bytes ++ decimal n }
{
    if n < 10 {
        push_digit(n, out);
    } else if n < 100 {
        push_digit(n / 10, out);
        push_digit(n % 10, out);
    } else {
        out.push_str(Buffer::new().format(n));
    }
}

/// Appends a digit.
#[inline]
pub fn push_digit<const N: usize>(digit: u32, out: &mut ArrayString<N>)
    requires one { digit < 10 }
    requires room { length out.old.bytes < N }
    ensures { out.new.bytes ≡ out.old.bytes ++ (48 + digit) ∷ [] }
{
    push_ascii(b'0' + digit as u8, out);
}

/// Appends the name of a label: LC and its number, in two digits if it is below 100.
#[inline]
pub fn push_label<const N: usize>(label: u8, out: &mut ArrayString<N>)
    requires room { length out.old.bytes + 4 ≤ N }
    ensures { out.new.bytes ≡ out.old.bytes ++ label_name label }
{
    out.push_str("LC");
    push_ascii(b'0' + label / 10, out);
    push_ascii(b'0' + label % 10, out);
}

/// Appends an ASCII byte.
#[inline]
#[tactic(auto, using(std::proofs::lemmas::Str::encode_ascii))]
pub(crate) fn push_ascii<const N: usize>(byte: u8, out: &mut ArrayString<N>)
    requires ascii { byte < 128 }
    requires room { length out.old.bytes < N }
    ensures { out.new.bytes ≡ out.old.bytes ++ byte ∷ [] }
{
    out.push(char::from(byte));
}
