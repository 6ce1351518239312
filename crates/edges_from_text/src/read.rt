ghost use Rattle.std.specs.{Prelude.{◌≡◌, ◌≤◌, [], ◌∷◌, Some, None, is_ok, if◌then◌else◌, length, take}};
ghost use Rattle.std.specs.{List.{position_or_len}, Option.{option_map}};
ghost use Rattle.relax_edges.specs.HashedWords.{hashed};
ghost use Rattle.edges_from_text.specs.{Spelled.{separates, edges_spelled, edges_of}, KeptEdges.{edges_added}};

use crate::edge::{UnknownEdge, read_hashed_edge};
use crate::list::EdgeList;
use relax_edges::WordHash;
use text_parts::Class;

/// What separates the edges of a text.
#[derive(Clone, Copy)]
pub enum Separators {
    /// Spaces and tabs.
    Blanks,
    /// Spaces, tabs and commas.
    BlanksAndCommas,
}

impl Separators {
    /// Whether a byte separates edges.
    fn has(self, byte: u8) -> bool
        ensures { result ≡ separates self byte }
    {
        // One comparison tells letters and digits, most bytes of a text, from all separators: two instructions less per byte.
        byte <= b','
            && match self {
                Separators::Blanks => Class::Blank.has(byte),
                Separators::BlanksAndCommas => Class::Blank.has(byte) || byte == b',',
            }
    }
}

/// The word that a text begins with, up to its first separator: its length and its hash.
#[derive(Clone, Copy)]
struct FirstWord {
    len: usize,
    hash: WordHash,
}

fn first_word(text: &[u8], separators: Separators) -> FirstWord
    ensures len { result.len ≡ position_or_len (separates separators) text.now }
    ensures within { result.len ≤ length text.now }
    ensures hash { result.hash.hash ≡ hashed 0 (take result.len text.now) }
{
    let mut hash = WordHash::new();
    let mut rest = text;
    while let [byte, remainder @ ..] = rest {
        if separators.has(*byte) {
            break;
        }
        hash = hash.with(*byte);
        rest = remainder;
    }
    FirstWord {
        len: text.len() - rest.len(),
        hash,
    }
}

/// Appends the edges that a text spells, or returns `UnknownEdge` if a word in it spells no edge: then
/// nothing is known about `edges`.
pub fn read_edges(
    text: &[u8],
    separators: Separators,
    edges: &mut EdgeList,
) -> Result<(), UnknownEdge>
    ensures { (if is_ok result then Some edges.new else None) ≡ option_map (edges_added edges.old) (edges_of separators text.now) }
{
    let mut rest = text;
    while !rest.is_empty() {
        let first = first_word(rest, separators);
        let (word, after) = rest.split_at(first.len);
        read_word(word, first.hash, edges)?;
        rest = match after {
            [_, remainder @ ..] => remainder,
            [] => after,
        };
    }
    Ok(())
}

/// Appends the edge that a word spells; an empty word is skipped.
fn read_word(word: &[u8], hash: WordHash, edges: &mut EdgeList) -> Result<(), UnknownEdge>
    requires { hash.hash ≡ hashed 0 word.now }
    ensures { (if is_ok result then Some edges.new else None) ≡ option_map (edges_added edges.old) (edges_spelled (word.now ∷ [])) }
{
    if word.is_empty() {
        return Ok(());
    }
    match read_hashed_edge(word, hash) {
        Ok(edge) => {
            edges.push(edge);
            Ok(())
        }
        Err(error) => Err(error),
    }
}
