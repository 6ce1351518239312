ghost use Rattle.std.specs.Prelude.{◌≡◌, true, option_map, IfSome};
ghost use Rattle.final_cond.specs.{Conditions.{left_view}, ConditionReading.{left_at_start}};
ghost use Rattle.text_parts.specs.Blanks.{trim_blanks};
ghost use Rattle.litmus_text.specs.{InitialState.{worth_of, item_with, whole_left, item_of, item_if}, Views.{worth_seen, worth_formed, item_seen, item_formed}};

use crate::limits::MAX_THREADS;
use arch_trait::{Arch, register_named};
use final_cond::{Left, PlaceName, is_place_name, number_of, read_left};
use text_parts::{cut, trim_blanks};

/// What an item gives a register: a number, or the address of a location.
#[derive(Clone, Copy)]
pub(crate) enum Worth<'a> {
    Number(u32),
    Place(&'a [u8]),
}

/// An item of the initial state.
#[derive(Drop)]
pub(crate) enum Item<'a> {
    Empty,
    /// `T:REG=NUM` or `T:REG=LOCATION`, with the number of the register.
    Register {
        thread: u8,
        register: u8,
        worth: Worth<'a>,
    },
    /// `LOCATION=0` or `[LOCATION]=0`.
    Zero(PlaceName),
}

fn worth_of(text: &[u8]) -> Option<Worth<'_>>
    ensures worth { option_map worth_seen result ≡ worth_of text.now }
    ensures formed { IfSome result (λ worth. worth_formed worth ≡ true) }
{
    if let Some(number) = number_of(text) {
        return Some(Worth::Number(number));
    }
    if is_place_name(text) {
        Some(Worth::Place(text))
    } else {
        None
    }
}

fn item_with<'a, A: Arch>(left: Left, right: &'a [u8]) -> Option<Item<'a>>
    ensures item { option_map item_seen result ≡ item_with A.writing (left_view left) right.now }
    ensures formed { IfSome result (λ item. item_formed item ≡ true) }
{
    match left {
        Left::Register { thread, name } => {
            if usize::from(thread) >= MAX_THREADS {
                return None;
            }
            let register = register_named::<A>(name.as_str().as_bytes())?;
            let worth = worth_of(right)?;
            Some(Item::Register {
                thread,
                register,
                worth,
            })
        }
        Left::Place { name } => {
            if is_place_name(name.as_str().as_bytes()) && right == b"0".as_slice() {
                Some(Item::Zero(name))
            } else {
                None
            }
        }
    }
}

fn item_between<'a, A: Arch>(left: &'a [u8], right: &'a [u8]) -> Option<Item<'a>>
    ensures item { option_map item_seen result ≡ item_if A.writing (whole_left (left_at_start (trim_blanks left.now))) (trim_blanks right.now) }
    ensures formed { IfSome result (λ item. item_formed item ≡ true) }
{
    let Ok((left, rest)) = read_left(trim_blanks(left)) else {
        return None;
    };
    if !rest.is_empty() {
        return None;
    }
    item_with::<A>(left, trim_blanks(right))
}

/// The item in a text, if it is one. Blanks may come at both ends and around the `=`.
#[tactic(auto, unfolding(crate::specs::InitialState::item_of))]
pub(crate) fn item_of<A: Arch>(text: &[u8]) -> Option<Item<'_>>
    ensures item { option_map item_seen result ≡ item_of A.writing text.now }
    ensures formed { IfSome result (λ item. item_formed item ≡ true) }
{
    let text = trim_blanks(text);
    if text.is_empty() {
        return Some(Item::Empty);
    }
    let (left, right) = cut(b'=', text)?;
    item_between::<A>(left, right)
}
