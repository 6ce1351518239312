ghost use Rattle.std.specs.{Prelude.{◌≡◌, ◌<◌, ◌≤◌, ◌+◌, ◌++◌, ◌∷◌, Some, None, true, cond, length}, List.{list_all}};
ghost use Rattle.arch_instructions.specs.FixedTexts.{text_around, barrier_text, fixed_text, has_room, is_short, have_room};

use crate::operands::barrier_number;
use crate::push::Text;
use arch_trait::{MAX_INSTRUCTION_TEXT, push_digit};
use micro_ops::{Barrier, Micro};

/// The texts before, between and after the two numbers of an instruction.
#[derive(Clone, Copy)]
pub struct TextsAround {
    pub before: &'static str,
    pub between: &'static str,
    pub after: &'static str,
}

/// A barrier and its text.
#[derive(Clone, Copy)]
pub struct BarrierText {
    pub barrier: Barrier,
    pub text: &'static str,
}

/// The texts of the instructions that are most frequent in tests, for numbers of one digit.
#[derive(Clone, Copy)]
pub struct FixedTexts {
    /// The number in the name of register 0.
    pub first: u8,
    /// For an instruction that sets a register to a number, around these two.
    pub number: TextsAround,
    /// For a load, around its register and its address register.
    pub load: TextsAround,
    /// For a store, around its register and its address register.
    pub store: TextsAround,
    pub barriers: &'static [BarrierText],
}

/// The texts around two numbers: `around!("lwz r", ",0(r", ")")`.
#[macro_export]
macro_rules! around {
    ($before:literal, $between:literal, $after:literal) => {
        $crate::TextsAround { before: $before, between: $between, after: $after }
    };
}

/// A barrier and its text: `barrier_text!("isync", Barrier::Fence(FenceKind::ISync))`.
#[macro_export]
macro_rules! barrier_text {
    ($text:literal, $barrier:expr) => {
        $crate::BarrierText { barrier: $barrier, text: $text }
    };
}

/// Makes `out` the fixed text of an operation. False if it has none; `out` may then be anything.
#[inline(always)]
pub(crate) fn print_short(texts: &FixedTexts, op: &Micro, out: &mut Text) -> bool
    requires room { have_room texts.now ≡ true }
    ensures { cond result (Some out.new.bytes) None ≡ fixed_text texts.now op.now }
{
    let first = u32::from(texts.first);
    match *op {
        Micro::Imm { dst, n } => print_around(&texts.number, first + u32::from(dst), n, out),
        Micro::Load {
            dst,
            base,
            index: None,
        } => print_around(
            &texts.load,
            first + u32::from(dst),
            first + u32::from(base),
            out,
        ),
        Micro::Store {
            src,
            base,
            index: None,
        } => print_around(
            &texts.store,
            first + u32::from(src),
            first + u32::from(base),
            out,
        ),
        Micro::Barrier { kind } => print_barrier(texts.barriers, kind, out),
        _ => false,
    }
}

/// Makes `out` two numbers with fixed texts around them. False if one of them has more than one digit.
#[inline(always)]
fn print_around(texts: &TextsAround, first: u32, second: u32, out: &mut Text) -> bool
    requires room { has_room texts.now ≡ true }
    ensures { cond result (Some out.new.bytes) None ≡ text_around texts.now first second }
{
    if first < 10 && second < 10 {
        print_two(texts, first, second, out);
        true
    } else {
        false
    }
}

/// Makes `out` two digits with fixed texts around them.
#[inline(always)]
fn print_two(texts: &TextsAround, first: u32, second: u32, out: &mut Text)
    requires first { first < 10 }
    requires second { second < 10 }
    requires room { has_room texts.now ≡ true }
    ensures { out.new.bytes ≡ texts.now.before.now ++ (48 + first) ∷ (texts.now.between.now ++ (48 + second) ∷ texts.now.after.now) }
{
    print_fixed(texts.before, out);
    push_digit(first, out);
    out.push_str(texts.between);
    push_digit(second, out);
    out.push_str(texts.after);
}

/// Makes `out` the text of a barrier. False if it has none.
#[inline(always)]
fn print_barrier(texts: &[BarrierText], barrier: Barrier, out: &mut Text) -> bool
    requires room { list_all is_short texts.now ≡ true }
    ensures { cond result (Some out.new.bytes) None ≡ barrier_text texts.now barrier }
{
    let number = barrier_number(barrier);
    let mut left = texts;
    while let [first, remainder @ ..] = left {
        if barrier_number(first.barrier) == number {
            print_unrolled(first.text, out);
            return true;
        }
        left = remainder;
    }
    false
}

/// Makes `out` a text; one of four to six bytes without a loop over them.
#[inline(always)]
fn print_unrolled(text: &str, out: &mut Text)
    requires room { length text.now ≤ MAX_INSTRUCTION_TEXT }
    ensures { out.new.bytes ≡ text.now }
{
    match text.len() {
        4 => print_fixed(text, out),
        5 => print_fixed(text, out),
        6 => print_fixed(text, out),
        _ => print_fixed(text, out),
    }
}

/// Makes `out` this text, whatever it was before.
#[inline(always)]
pub fn print_fixed(text: &str, out: &mut Text)
    requires room { length text.now ≤ MAX_INSTRUCTION_TEXT }
    ensures { out.new.bytes ≡ text.now }
{
    out.clear();
    out.push_str(text);
}
