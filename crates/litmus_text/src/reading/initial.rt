ghost use Rattle.std.specs.Prelude.{◌≡◌, ◌<◌, ◌+◌, ◌^◌, true, length, option_map, IfSome, IfOk};
ghost use Rattle.text_parts.specs.{Names.{is_place_name}, Lines.{but_last}};
ghost use Rattle.litmus_text.specs.{ReadingAnswers.{GivesInMemory}, TextCuts.{pieces}};
ghost use Rattle.litmus_text.specs.InitialState.{nothing_begun, is_given, with_worth, name_begun, item_put, item_read, braced, braced_read, initial_read};
ghost use Rattle.litmus_text.specs.Views.{text_left, joined_seen, pieces_read, begun_seen, worth_seen, worth_formed, item_seen, item_formed, braced_seen};

use crate::errors::{ReadError, TestKind, error_at_line};
use crate::reading::items::{Item, Worth, item_of};
use crate::reading::joined::Joined;
use crate::reading::lines::Lines;
use crate::reading::text::Text;
use arch_trait::{Arch, Places};
use final_cond::PlaceName;
use relax_edges::Value;
use std::alloc::{AllocError, Global};
use text_parts::{cut, without_blanks, without_last_blanks};

/// A thread, and the value of one of its registers.
pub(crate) type Given = (u8, (u8, Value));

/// The initial state so far.
#[derive(Drop)]
pub(crate) struct Begun {
    pub(crate) names: Places,
    pub(crate) values: Vec<Given>,
}

impl Begun {
    pub(crate) fn new(alloc: Global) -> Begun
        ensures { begun_seen result ≡ nothing_begun }
    {
        Begun {
            names: Places::new(),
            values: Vec::new(alloc),
        }
    }

    fn is_given(&self, thread: u8, register: u8) -> bool
        ensures { result ≡ is_given thread register self.now.values.items }
    {
        self.values
            .iter()
            .any(|given| given.0 == thread && given.1.0 == register)
    }

    /// Gives a register a value, at a line.
    fn give(
        &mut self,
        line: u64,
        thread: u8,
        register: u8,
        worth: Worth<'_>,
    ) -> Result<(), ReadError>
        requires { worth_formed worth ≡ true }
        ensures { GivesInMemory (λ _. begun_seen self.new) result (with_worth line (begun_seen self.old) thread register (worth_seen worth.entry)) }
    {
        let value = match worth {
            Worth::Number(number) => Value::Num(number),
            Worth::Place(name) => match self.names.add_bytes(name) {
                Some(place) => Value::Place(place),
                None => return Err(ReadError::Text(error_at_line(TestKind::TooLarge, line))),
            },
        };
        self.values.push((thread, (register, value)))?;
        Ok(())
    }

    /// Names a location, at a line.
    fn name(&mut self, line: u64, name: &PlaceName) -> Result<(), ReadError>
        requires { is_place_name name.now.bytes ≡ true }
        ensures { GivesInMemory (λ _. begun_seen self.new) result (name_begun line (begun_seen self.old) name.now.bytes) }
    {
        match self.names.add_bytes(name.as_str().as_bytes()) {
            Some(_) => Ok(()),
            None => Err(ReadError::Text(error_at_line(TestKind::TooLarge, line))),
        }
    }

    /// Takes an item, given its first line and its last.
    fn put(&mut self, first: u64, last: u64, item: &Option<Item<'_>>) -> Result<(), ReadError>
        requires { IfSome item.now (λ i. item_formed i ≡ true) }
        ensures { GivesInMemory (λ _. begun_seen self.new) result (item_put first last (begun_seen self.old) (option_map item_seen item.now)) }
    {
        match item {
            None => Err(ReadError::Text(error_at_line(TestKind::BadInit, first))),
            Some(Item::Empty) => Ok(()),
            Some(
                Item::Register {
                    thread,
                    register,
                    worth,
                },
            ) => {
                if self.is_given(*thread, *register) {
                    return Err(ReadError::Text(error_at_line(TestKind::BadInit, first)));
                }
                self.give(last, *thread, *register, *worth)
            }
            Some(Item::Zero(name)) => self.name(first, name),
        }
    }
}

/// Reads the item in a piece that begins at byte number `i` of a text.
#[tactic(auto, unfolding(crate::specs::InitialState::item_read))]
fn read_item<A: Arch>(
    joined: &Joined,
    i: usize,
    piece: &[u8],
    begun: &mut Begun,
) -> Result<(), ReadError>
    requires { i + length piece.now < 2 ^ 64 }
    ensures { GivesInMemory (λ _. begun_seen begun.new) result (item_read A.writing (joined_seen joined.now) i piece.now (begun_seen begun.old)) }
{
    let first = joined.line_at(i + (piece.len() - without_blanks(piece).len()));
    let last = joined.line_at(i + without_last_blanks(piece).len().saturating_sub(1));
    begun.put(first, last, &item_of::<A>(piece))
}

/// Reads the items of a text that a `}` ends.
fn read_items<A: Arch>(joined: &Joined, begun: &mut Begun) -> Result<(), ReadError>
    ensures { GivesInMemory (λ _. begun_seen begun.new) result (pieces_read A.writing joined.now (pieces 59 joined.now.bytes.items) begun.old) }
{
    let mut i = 0;
    let mut rest = joined.bytes.as_slice();
    'items: loop {
        match cut(b';', rest) {
            Some((piece, remainder)) => {
                read_item::<A>(joined, i, piece, begun)?;
                i += piece.len() + 1;
                rest = remainder;
            }
            None => return read_item::<A>(joined, i, rest, begun),
        }
    }
}

/// Reads the items of a text that no `}` ends: those that a `;` ends.
fn read_ended_items<A: Arch>(joined: &Joined, begun: &mut Begun) -> Result<(), ReadError>
    ensures { GivesInMemory (λ _. begun_seen begun.new) result (pieces_read A.writing joined.now (but_last (pieces 59 joined.now.bytes.items)) begun.old) }
{
    let mut i = 0;
    let mut rest = joined.bytes.as_slice();
    'items: while let Some((piece, remainder)) = cut(b';', rest) {
        read_item::<A>(joined, i, piece, begun)?;
        i += piece.len() + 1;
        rest = remainder;
    }
    Ok(())
}

/// What ends the items: a `}`, with the rest of its line and what is left after that, or the text.
#[derive(Clone, Copy)]
pub(crate) enum Braced<'a> {
    Closed {
        number: u64,
        remainder: &'a [u8],
        rest: Text<'a>,
    },
    /// The text, with the number after that of its last line.
    Open(u64),
}

/// Appends the text up to the first `}`, or all of it, to `joined`, from the rest of a line on.
fn join_braced<'a>(
    joined: &mut Joined,
    number: u64,
    text: &'a [u8],
    rest: Text<'a>,
) -> Result<Braced<'a>, AllocError>
    ensures { IfOk result (λ end. braced_seen (joined_seen joined.new) end ≡ braced (joined_seen joined.old) number text.now (text_left rest.entry)) }
{
    let mut number = number;
    let mut text = text;
    let mut rest = rest;
    'lines: loop {
        if let Some((prefix, remainder)) = cut(b'}', text) {
            joined.push(number, prefix)?;
            return Ok(Braced::Closed {
                number,
                remainder,
                rest,
            });
        }
        joined.push(number, text)?;
        match rest.lines() {
            Lines::Ends(end) => return Ok(Braced::Open(end)),
            Lines::Line(line) => {
                joined.push(line.number, b" ")?;
                number = line.number;
                text = line.text;
                rest = line.rest;
            }
        }
    }
}

fn read_braced<'a, A: Arch>(
    joined: &Joined,
    end: Braced<'a>,
    begun: &mut Begun,
) -> Result<Text<'a>, ReadError>
    requires { begun_seen begun.old ≡ nothing_begun }
    ensures { GivesInMemory (λ rest. (begun_seen begun.new, text_left rest)) result (braced_read A.writing (braced_seen (joined_seen joined.now) end.entry)) }
{
    match end {
        Braced::Closed {
            number,
            remainder,
            rest,
        } => {
            read_items::<A>(joined, begun)?;
            if !remainder.is_empty() {
                return Err(ReadError::Text(error_at_line(TestKind::BadInit, number)));
            }
            Ok(rest)
        }
        Braced::Open(end) => {
            read_ended_items::<A>(joined, begun)?;
            Err(ReadError::Text(error_at_line(TestKind::EndMissing, end)))
        }
    }
}

/// Reads the initial state into `begun`, in which nothing may be given so far.
#[tactic(auto, unfolding(crate::specs::InitialState::initial_read))]
pub(crate) fn read_initial<'a, A: Arch>(
    alloc: Global,
    text: Text<'a>,
    begun: &mut Begun,
) -> Result<Text<'a>, ReadError>
    requires { begun_seen begun.old ≡ nothing_begun }
    ensures { GivesInMemory (λ rest. (begun_seen begun.new, text_left rest)) result (initial_read A.writing (text_left text.entry)) }
{
    let line = match text.lines() {
        Lines::Ends(end) => return Err(ReadError::Text(error_at_line(TestKind::EndMissing, end))),
        Lines::Line(line) => line,
    };
    let [b'{', inner @ ..] = line.text else {
        return Err(ReadError::Text(error_at_line(TestKind::BadInit, line.number)));
    };
    let mut joined = Joined::new(alloc);
    let end = join_braced(&mut joined, line.number, inner, line.rest)?;
    read_braced::<A>(&joined, end, begun)
}
