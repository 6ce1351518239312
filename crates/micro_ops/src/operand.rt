ghost use Rattle.std.specs.Prelude.{◌≡◌};
ghost use Rattle.micro_ops.specs.Machine.{xored, plus, ored, sum_of_values, place_at, same_number};

use relax_edges::Value;

/// The bitwise exclusive or of two numbers.
pub(crate) fn exclusive_or(a: Value, b: Value) -> Option<Value>
    ensures { result ≡ xored a b }
{
    match (a, b) {
        (Value::Num(m), Value::Num(n)) => Some(Value::Num(m ^ n)),
        _ => None,
    }
}

/// A number plus an immediate, if the sum fits in 32 bits.
pub(crate) fn add_immediate(a: Value, n: u32) -> Option<Value>
    ensures { result ≡ plus a n }
{
    match a {
        Value::Num(m) => m.checked_add(n).map(Value::Num),
        Value::Place(_) => None,
    }
}

/// The bitwise or of a number and an immediate.
pub(crate) fn or_immediate(a: Value, n: u32) -> Option<Value>
    ensures { result ≡ ored a n }
{
    match a {
        Value::Num(m) => Some(Value::Num(m | n)),
        Value::Place(_) => None,
    }
}

/// The location of an address plus the number 0, in either order.
pub(crate) fn place(base: Value, index: Value) -> Option<u8>
    ensures { result ≡ place_at base index }
{
    match (base, index) {
        (Value::Place(place), Value::Num(0)) | (Value::Num(0), Value::Place(place)) => Some(place),
        _ => None,
    }
}

/// The sum of two numbers, if it fits in 32 bits, or of an address and the number 0.
pub(crate) fn sum(a: Value, b: Value) -> Option<Value>
    ensures { result ≡ sum_of_values a b }
{
    match (a, b) {
        (Value::Num(_), Value::Num(n)) => add_immediate(a, n),
        _ => place(a, b).map(Value::Place),
    }
}

/// Whether two numbers are equal.
pub(crate) fn equal(a: Value, b: Value) -> Option<bool>
    ensures { result ≡ same_number a b }
{
    match (a, b) {
        (Value::Num(m), Value::Num(n)) => Some(m == n),
        _ => None,
    }
}
