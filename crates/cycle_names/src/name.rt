ghost use Rattle.std.specs.{Prelude.{◌≡◌, ◌<◌, ◌≤◌, ◌++◌, List, [], None, codes, length}, List.{join_by}};
ghost use Rattle.relax_edges.specs.{WordParts.{word_of}, declared.edge.Edge.{Edge}};
ghost use Rattle.cycle_names.specs.{Rotations.{family_of, found_family, named_rotation}, CycleNames.{name_of}, Fitting.{IsFitOf}, Laws.{IsName}};

use crate::family::Family;
use crate::fit::{Fit, named_fit};
use crate::words::{Separator, push_links, push_rotation, push_rotation_twice};
use arrayvec::ArrayString;
use edge_algebra::Cycle;
use relax_edges::Edge;

/// The most bytes of a name.
pub const MAX_CYCLE_NAME: usize = 800;

/// The most bytes of the line of a cycle: its name, a colon, a blank, its edges and a line feed.
pub const MAX_NAME_LINE: usize = 2 * MAX_CYCLE_NAME + 3;

/// The family of a cycle; `Other` if it belongs to none of the table.
///
/// A cycle belongs to a family if one of its rotations has the family's external edges at their
/// positions and, for each `PodXY`, a link from X to Y, that is, an edge to another location in the
/// same thread, whatever their marks, and if each access between two external edges is plain. No
/// cycle belongs to two families.
pub fn family_of(cycle: &Cycle) -> Family
    ensures { result ≡ family_of cycle.now }
{
    match named_fit(cycle.edges()) {
        Some(fit) => fit.family,
        None => Family::Other,
    }
}

/// Replaces what `out` holds by the name of a cycle. Two cycles have the same name exactly when they
/// are the same, each a rotation of the other.
///
/// The name of a cycle of a family is only the family's name if the words of all links are `po`;
/// otherwise a `+`, the word and an `s` follow if all words are equal, and otherwise a `+` and the
/// word of each link. The word of a link with marks ends in their letters, such as `popl`. Among the
/// rotations that fit the family, the one whose list of words comes first in byte order counts. Any
/// other cycle is named `C+` and the names of the edges of its normal form, joined by `-`.
pub fn name_of(cycle: &Cycle, out: &mut ArrayString<MAX_CYCLE_NAME>)
    ensures name { out.new.bytes ≡ name_of cycle.now }
    ensures form { IsName out.new.bytes }
{
    name_and_family(cycle, out);
}

/// Replaces what `out` holds by the name of a cycle, as `name_of` does, and returns the family of the cycle.
pub fn name_and_family(cycle: &Cycle, out: &mut ArrayString<MAX_CYCLE_NAME>) -> Family
    ensures name { out.new.bytes ≡ name_of cycle.now }
    ensures form { IsName out.new.bytes }
    ensures family { result ≡ family_of cycle.now }
{
    out.clear();
    match named_fit(cycle.edges()) {
        Some(fit) => {
            push_family_name(cycle.edges(), fit, out);
            fit.family
        }
        None => {
            push_own_name(cycle, out);
            Family::Other
        }
    }
}

/// Replaces what `line` holds by the name of a cycle, a colon, a blank, and the names of the edges of the
/// rotation that the cycle is named from, joined by blanks. There is space for a line feed after that.
/// `words` is working space: what it holds doesn't matter, and is unknown afterwards.
#[tactic(auto, using(crate::proofs::CycleOf::name_short))]
pub fn name_and_words(
    cycle: &Cycle,
    words: &mut ArrayString<MAX_CYCLE_NAME>,
    line: &mut ArrayString<MAX_NAME_LINE>,
)
    ensures text { line.new.bytes ≡ name_of cycle.now ++ codes ": " ++ join_by word_of (codes " ") (named_rotation cycle.now) }
    ensures room { length line.new.bytes < MAX_NAME_LINE }
{
    line.clear();
    match named_fit(cycle.edges()) {
        Some(fit) => {
            push_family_name(cycle.edges(), fit, line);
            line.push_str(": ");
            push_rotation(cycle.edges(), fit.place, Separator::Blank, line);
        }
        None => {
            words.clear();
            push_own_words(cycle, line, words);
            line.push_str(": ");
            line.push_str(words.as_str());
        }
    }
}

/// Adds the name of a cycle of a family to an empty text.
#[tactic(auto, using(crate::proofs::CycleOf::name_in_family))]
fn push_family_name<const N: usize>(edges: &[Edge], fit: Fit, name: &mut ArrayString<N>)
    requires fit { IsFitOf edges.now fit }
    requires empty { name.old.bytes ≡ [] }
    requires room { MAX_CYCLE_NAME ≤ N }
    ensures { name.new.bytes ≡ name_of edges.now }
{
    name.push_str(fit.family.word());
    push_links(edges, fit.place, name);
}

/// Adds the name of a cycle of no family to an empty text.
fn push_own_name(cycle: &Cycle, name: &mut ArrayString<MAX_CYCLE_NAME>)
    requires empty { name.old.bytes ≡ [] }
    requires none { found_family cycle.now ≡ None }
    ensures { name.new.bytes ≡ name_of cycle.now }
{
    name.push_str("C+");
    push_rotation(
        cycle.edges(),
        usize::from(cycle.least_place()),
        Separator::Dash,
        name,
    );
}

/// Adds the name of a cycle of no family to an empty text, and the names of the edges of the rotation
/// that it is named from, joined by blanks, to another.
fn push_own_words(
    cycle: &Cycle,
    name: &mut ArrayString<MAX_NAME_LINE>,
    words: &mut ArrayString<MAX_CYCLE_NAME>,
)
    requires empty { name.old.bytes ≡ [] }
    requires no_words { words.old.bytes ≡ [] }
    requires none { found_family cycle.now ≡ None }
    ensures name { name.new.bytes ≡ name_of cycle.now }
    ensures words { words.new.bytes ≡ join_by word_of (codes " ") (named_rotation cycle.now) }
{
    name.push_str("C+");
    let least = usize::from(cycle.least_place());
    push_rotation_twice(cycle.edges(), least, name, words);
}
