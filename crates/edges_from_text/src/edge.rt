ghost use Rattle.std.specs.{Prelude.{◌≡◌}, Result.{result_ok}};
ghost use Rattle.relax_edges.specs.{Spelling.{edge_of}, HashedWords.{hashed}};
ghost use Rattle.edges_from_text.specs.WordReading.{named, may_be_plain, named_with_co, other_named};

use relax_edges::{ArchName, Edge, WordHash};
use thiserror::Error;

/// Whether `PP`, which marks nothing, may follow the name of an edge: it has no marks, and AArch64 has it.
fn may_be_plain(edge: Edge) -> bool
    ensures { result ≡ may_be_plain edge }
{
    match edge {
        Edge::Marked(_) => false,
        _ => edge.kind().is_of(ArchName::AArch64),
    }
}

/// The edge whose printed name this is with `Co` in place of its `Ws`.
#[tactic(auto, unfolding(crate::specs::WordReading::named_with_co))]
fn read_with_co(word: &[u8]) -> Option<Edge>
    ensures { result ≡ named_with_co word.now }
{
    match word {
        [b'C', b'o', reach] => Edge::named(&[b'W', b's', *reach]),
        [b'C', b'o', reach, from, to] => Edge::named(&[b'W', b's', *reach, *from, *to]),
        _ => None,
    }
}

/// The edge that a word spells by `PP` at its end, or else by `Co`. A separate function keeps
/// `read_edge_bytes` short for printed names, which are the most frequent.
#[tactic(auto, unfolding(crate::specs::WordReading::other_named))]
#[inline(never)]
fn read_other(word: &[u8]) -> Option<Edge>
    ensures { result ≡ other_named word.now }
{
    let Some(name) = word.strip_suffix(b"PP".as_slice()) else {
        return read_with_co(word);
    };
    let edge = match Edge::named(name) {
        Some(edge) => edge,
        None => read_with_co(name)?,
    };
    if may_be_plain(edge) { Some(edge) } else { None }
}

/// No edge has this spelling.
#[derive(Clone, Copy, Debug, Error)]
#[error("no edge has this spelling")]
pub struct UnknownEdge;

/// The edge that these bytes spell, by the rules of `read_edge`.
pub fn read_edge_bytes(text: &[u8]) -> Result<Edge, UnknownEdge>
    ensures { result_ok result ≡ edge_of text.now }
{
    spelled(text, Edge::named(text))
}

/// The same, by the hash of the bytes.
pub(crate) fn read_hashed_edge(text: &[u8], hash: WordHash) -> Result<Edge, UnknownEdge>
    requires { hash.hash ≡ hashed 0 text.now }
    ensures { result_ok result ≡ edge_of text.now }
{
    spelled(text, Edge::named_by_hash(text, hash))
}

/// The edge that these bytes spell, given the edge with this printed name, if there is one.
#[tactic(auto, using(crate::proofs::EdgeReadings::edge_of_other))]
fn spelled(text: &[u8], printed: Option<Edge>) -> Result<Edge, UnknownEdge>
    requires { printed ≡ named text.now }
    ensures { result_ok result ≡ edge_of text.now }
{
    match printed {
        Some(edge) => Ok(edge),
        None => read_other(text).ok_or(UnknownEdge),
    }
}

/// The edge that a text spells: an edge is spelled as it is printed, and `Wsi` and `Wse` are
/// spelled `Coi` and `Coe` too, with the same letters of marks after them. `PP`, which marks
/// nothing, may follow each spelling of an edge without marks that AArch64 has. `UnknownEdge` if
/// no edge has this spelling.
///
/// The spellings are those of the diy part of the herdtools manual, "Candidate relaxations", except
/// those with `DpCtrlIsb`, `ISync` and the RISC-V fences, which are own.
pub fn read_edge(text: &str) -> Result<Edge, UnknownEdge>
    ensures { result_ok result ≡ edge_of text.now }
{
    read_edge_bytes(text.as_bytes())
}
