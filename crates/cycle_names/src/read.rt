ghost use Rattle.std.specs.{Prelude.{◌≡◌, ◌+◌, ◌-◌, ◌≤◌, ◌&&◌, ◌==◌, [], codes, length, take, drop, MatchResult, cond}, List.{position_or_len, slice_split}};
ghost use Rattle.std.specs.{Str.{bytes_eq}, Result.{result_ok}};
ghost use Rattle.cycle_names.specs.{Families.{family_edges}, CycleNames.{name_of}};
ghost use Rattle.cycle_names.specs.NameReading.{begins_with_word, named_family, is_link, link_with, first_mark, last_mark, marked_between, marked_along, marked_around, slot_with, first_name_word, after_word, without_last_byte, filled_alike, filled_each, slots_filled, is_dash, edges_of_words, words_read, edges_read, AddsEdges};
ghost use Rattle.cycle_names.specs.Laws.{are_of_arch, IsNamed, NamesNone};

use crate::family::{FAMILIES, Family};
use crate::link::is_spelled;
use crate::name::{MAX_CYCLE_NAME, name_of};
use arrayvec::{ArrayString, ArrayVec};
use edge_algebra::{Cycle, cycle};
use edges_from_text::read_edge_bytes;
use relax_edges::{ArchName, Dir, EDGES, Edge, MAX_EDGES, Mark};
use thiserror::Error;

type Edges = ArrayVec<Edge, MAX_EDGES>;

/// No cycle of the architecture has this name.
#[derive(Clone, Copy, Debug, Error)]
#[error("no cycle of the architecture has this name")]
pub struct NotAName;

/// The cycle of an architecture that has this name, in the rotation that it is named from.
/// The error is `NotAName` exactly when no cycle with only edges of the architecture has this name.
pub fn cycle_of(name: &str, arch: ArchName) -> Result<Cycle, NotAName>
    ensures { MatchResult result (λ c. IsNamed name.now arch c) (λ _. NamesNone name.now arch) }
{
    let mut edges = Edges::new();
    read_edges(name.as_bytes(), &mut edges)?;
    match cycle(edges.as_slice()) {
        Err(_) => Err(NotAName),
        Ok(found) => {
            if has_name(&found, name) && are_of_arch(found.edges(), arch) {
                Ok(found)
            } else {
                Err(NotAName)
            }
        }
    }
}

/// Whether a cycle has this name.
fn has_name(cycle: &Cycle, name: &str) -> bool
    ensures { result ≡ bytes_eq (name_of cycle.now) name.now }
{
    let mut text = ArrayString::<MAX_CYCLE_NAME>::new();
    name_of(cycle, &mut text);
    text.as_str() == name
}

/// Whether an architecture has all edges.
fn are_of_arch(edges: &[Edge], arch: ArchName) -> bool
    ensures { result ≡ are_of_arch arch edges.now }
{
    match edges {
        [] => true,
        [edge, rest @ ..] => edge.of_arch(arch) && are_of_arch(rest, arch),
    }
}

/// Adds the edges that a text would name, if they fit.
fn read_edges(text: &[u8], edges: &mut Edges) -> Result<(), NotAName>
    requires { edges.old.items ≡ [] }
    ensures { AddsEdges (edges_read text.now) edges.old.items edges.new.items result }
{
    match named_family(FAMILIES.as_slice(), text) {
        Some(family) => {
            let slots = edges_of(family);
            let (_, links) = text.split_at(family.word().len());
            let mut unmarked = Edges::new();
            fill(slots.as_slice(), links, &mut unmarked)?;
            mark_around(unmarked.as_slice(), edges)
        }
        None => read_other(text, edges),
    }
}

/// The first of some families whose name is the text, or which the text begins with, followed by a `+`.
fn named_family(families: &[Family], text: &[u8]) -> Option<Family>
    ensures { result ≡ named_family families.now text.now }
{
    match families {
        [] => None,
        [family, rest @ ..] => {
            if begins_with(family.word().as_bytes(), text) {
                Some(*family)
            } else {
                named_family(rest, text)
            }
        }
    }
}

/// Whether a text is a word, or begins with the word and a `+`.
fn begins_with(word: &[u8], text: &[u8]) -> bool
    ensures { result ≡ begins_with_word word.now text.now }
{
    match word {
        [] => match text {
            [] => true,
            [byte, ..] => *byte == b'+',
        },
        [first, word_left @ ..] => match text {
            [] => false,
            [byte, text_left @ ..] => first == byte && begins_with(word_left, text_left),
        },
    }
}

/// The edges of a family's cycle; none for `Other`.
pub fn edges_of(family: Family) -> Edges
    ensures { result.items ≡ family_edges family }
{
    let mut edges = Edges::new();
    for slot in family.slots() {
        edges.push(slot.edge());
    }
    edges
}

/// Adds the edges of some slots, with the links that a name gives.
fn fill(slots: &[Edge], links: &[u8], edges: &mut Edges) -> Result<(), NotAName>
    requires { length edges.old.items + length slots.now ≤ MAX_EDGES }
    ensures { AddsEdges (slots_filled slots.now links.now) edges.old.items edges.new.items result }
{
    match links {
        [] => fill_alike(slots, b"po", edges),
        [_, words @ ..] => {
            if words.contains(&b'+') {
                fill_each(slots, links, edges)
            } else {
                fill_alike(slots, but_last(words), edges)
            }
        }
    }
}

fn but_last(text: &[u8]) -> &[u8]
    ensures { result.now ≡ without_last_byte text.now }
{
    match text {
        [] => text,
        [prefix @ .., _] => prefix,
    }
}

/// Adds the edges of some slots, with this word for each link.
fn fill_alike(slots: &[Edge], word: &[u8], edges: &mut Edges) -> Result<(), NotAName>
    requires { length edges.old.items + length slots.now ≤ MAX_EDGES }
    ensures { AddsEdges (filled_alike slots.now word.now) edges.old.items edges.new.items result }
{
    match slots {
        [] => Ok(()),
        [slot, rest @ ..] => {
            edges.push(edge_with(*slot, word)?);
            fill_alike(rest, word, edges)
        }
    }
}

/// Adds the edges of some slots, with the next word of the text for each link; a `+` comes before each word.
fn fill_each(slots: &[Edge], links: &[u8], edges: &mut Edges) -> Result<(), NotAName>
    requires { length edges.old.items + length slots.now ≤ MAX_EDGES }
    ensures { AddsEdges (filled_each slots.now links.now) edges.old.items edges.new.items result }
{
    match slots {
        [] => Ok(()),
        [slot, rest @ ..] => {
            if slot.is_diff() {
                let (word, remainder) = split_word(links);
                edges.push(link_with(*slot, word)?);
                fill_each(rest, remainder, edges)
            } else {
                edges.push(*slot);
                fill_each(rest, links, edges)
            }
        }
    }
}

/// The word after the first byte of a text, up to the next `+`, and the text from there on.
fn split_word(text: &[u8]) -> (&[u8], &[u8])
    ensures word { result.0.now ≡ first_name_word text.now }
    ensures remainder { result.1.now ≡ after_word text.now }
{
    match text {
        [] => (text, text),
        [_, words @ ..] => words.split_at(len_before(b'+', words)),
    }
}

/// How many bytes a text has before the first of this value, or all if there is none.
fn len_before(byte: u8, text: &[u8]) -> usize
    ensures value { result ≡ position_or_len (λ b. b == byte) text.now }
    ensures within { result ≤ length text.now }
{
    match text {
        [] => 0,
        [first, rest @ ..] => {
            if *first == byte {
                0
            } else {
                1 + len_before(byte, rest)
            }
        }
    }
}

/// The edge of a slot: the slot itself, or, if it is a link, the link with this word.
fn edge_with(slot: Edge, word: &[u8]) -> Result<Edge, NotAName>
    ensures { result_ok result ≡ slot_with slot word.now }
{
    if slot.is_diff() {
        link_with(slot, word)
    } else {
        Ok(slot)
    }
}

/// The link with the ends of a slot and with this word.
fn link_with(slot: Edge, word: &[u8]) -> Result<Edge, NotAName>
    ensures { result_ok result ≡ link_with slot word.now }
{
    let from = slot.source();
    let to = slot.target();
    for rank in 0..EDGES {
        let edge = Edge::at_rank(rank);
        if is_link(from, to, word, edge) {
            return Ok(edge);
        }
    }
    Err(NotAName)
}

fn is_link(from: Dir, to: Dir, word: &[u8], edge: Edge) -> bool
    ensures { result ≡ is_link from to word.now edge }
{
    edge.is_diff() && edge.source() == from && edge.target() == to && is_spelled(edge, word)
}

/// Adds the edges of a cycle, its external edges with the marks of the edges next to them.
fn mark_around(unmarked: &[Edge], edges: &mut Edges) -> Result<(), NotAName>
    requires { length edges.old.items + length unmarked.now ≤ MAX_EDGES }
    ensures { AddsEdges (marked_around unmarked.now) edges.old.items edges.new.items result }
{
    let before = last_mark(Mark::Plain, unmarked);
    let remainder = first_mark(unmarked, Mark::Plain);
    mark_along(before, unmarked, remainder, edges)
}

/// The mark of the access that the last of some edges enters; `mark` if there are none.
fn last_mark(mark: Mark, edges: &[Edge]) -> Mark
    ensures { result ≡ last_mark mark edges.now }
{
    match edges {
        [] => mark,
        [edge, rest @ ..] => last_mark(edge.target_mark(), rest),
    }
}

/// The mark of the access that the first of some edges leaves; `mark` if there are none.
fn first_mark(edges: &[Edge], mark: Mark) -> Mark
    ensures { result ≡ first_mark edges.now mark }
{
    match edges {
        [] => mark,
        [edge, ..] => edge.source_mark(),
    }
}

/// Adds edges, the external ones with the marks of the edges next to them; before the first and after
/// the last come these marks.
fn mark_along(from: Mark, unmarked: &[Edge], to: Mark, edges: &mut Edges) -> Result<(), NotAName>
    requires { length edges.old.items + length unmarked.now ≤ MAX_EDGES }
    ensures { AddsEdges (marked_along from unmarked.now to) edges.old.items edges.new.items result }
{
    match unmarked {
        [] => Ok(()),
        [edge, rest @ ..] => {
            let next = first_mark(rest, to);
            edges.push(mark_between(from, *edge, next)?);
            mark_along(edge.target_mark(), rest, to, edges)
        }
    }
}

/// An external edge with these marks, if there is one; another edge as it is.
fn mark_between(from: Mark, edge: Edge, to: Mark) -> Result<Edge, NotAName>
    ensures { result_ok result ≡ marked_between from edge to }
{
    if edge.is_external() {
        Edge::with_marks(edge.kind(), from, to).ok_or(NotAName)
    } else {
        Ok(edge)
    }
}

/// Adds the edges whose spellings a text has after `C+`, joined by `-`.
fn read_other(text: &[u8], edges: &mut Edges) -> Result<(), NotAName>
    requires { edges.old.items ≡ [] }
    ensures { AddsEdges (words_read text.now) edges.old.items edges.new.items result }
{
    match text {
        [b'C', b'+', words @ ..] => read_words(words, edges),
        _ => Err(NotAName),
    }
}

/// Adds the edges whose spellings a text has, joined by `-`.
fn read_words(text: &[u8], edges: &mut Edges) -> Result<(), NotAName>
    ensures { AddsEdges (edges_of_words (slice_split is_dash text.now)) edges.old.items edges.new.items result }
{
    let (word, remainder) = text.split_at(len_before(b'-', text));
    let Ok(edge) = read_edge_bytes(word) else {
        return Err(NotAName);
    };
    if edges.is_full() {
        return Err(NotAName);
    }
    edges.push(edge);
    match remainder {
        [] => Ok(()),
        [_, words @ ..] => read_words(words, edges),
    }
}
