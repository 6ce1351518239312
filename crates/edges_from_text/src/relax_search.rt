ghost use Rattle.std.specs.Prelude.{◌≡◌, ◌<◌, ◌≤◌, ◌+◌, ◌∷◌, [], ◌++◌, true, length, map, Ok, Err, OnOk, MatchResult};
ghost use Rattle.arrayvec.specs.ArrayVec.{array_vec_len};
ghost use Rattle.relax_edges.specs.JoinedEdges.{is_joined};
ghost use Rattle.edges_from_text.specs.{RelaxText.words_of, RelaxKept.{keep_all, at_most_64}, Relaxations.word_edges};
ghost use Rattle.edges_from_text.specs.RelaxSearch.{paths_after, KeepsPaths};

use crate::relax::Relaxes;
use crate::relax_error::RelaxKind;
use crate::relax_words::{next_word, word_edges};
use arrayvec::ArrayVec;
use relax_edges::Edge;

fn extends(prefix: &[Edge], edge: Edge) -> bool
    requires { is_joined prefix.now ≡ true }
    ensures { result ≡ is_joined (prefix.now ++ edge ∷ []) }
{
    match prefix {
        [.., last] => last.joins(edge),
        [] => true,
    }
}

/// Keeps each path that begins with the chosen edges and continues with an edge of each word. Returns
/// whether there is one.
#[cycle(relax_search)]
pub(crate) fn keep_paths(
    words: &[u8],
    chosen: &mut ArrayVec<Edge, 8>,
    kept: &mut Relaxes,
) -> Result<bool, RelaxKind>
    requires path { is_joined chosen.old.items ≡ true }
    requires some { 0 < array_vec_len chosen.old + length (words_of words.now) }
    requires short { array_vec_len chosen.old + length (words_of words.now) ≤ 8 }
    requires few { length kept.old ≤ 64 }
    ensures chosen { OnOk result (chosen.new.items ≡ chosen.old.items) }
    ensures kept { MatchResult result
        (λ some. KeepsPaths kept.old (paths_after chosen.old.items (map word_edges (words_of words.now))) kept.new some)
        (λ kind. at_most_64 (keep_all kept.old (paths_after chosen.old.items (map word_edges (words_of words.now)))) ≡ Err kind) }
{
    let Some((word, remainder)) = next_word(words) else {
        kept.keep(chosen.as_slice())?;
        return Ok(true);
    };
    let edges = word_edges(word);
    let mut some = false;
    for edge in edges.as_slice() {
        some |= keep_after(*edge, remainder, chosen, kept)?;
    }
    Ok(some)
}

/// The same for the paths that begin with the chosen edges and one more, which has to join.
#[cycle(relax_search)]
fn keep_after(
    edge: Edge,
    words: &[u8],
    chosen: &mut ArrayVec<Edge, 8>,
    kept: &mut Relaxes,
) -> Result<bool, RelaxKind>
    requires path { is_joined chosen.old.items ≡ true }
    requires short { array_vec_len chosen.old + length (words_of words.now) < 8 }
    requires few { length kept.old ≤ 64 }
    ensures chosen { OnOk result (chosen.new.items ≡ chosen.old.items) }
    ensures kept { MatchResult result
        (λ some. KeepsPaths kept.old (paths_after (chosen.old.items ++ edge ∷ []) (map word_edges (words_of words.now))) kept.new some)
        (λ kind. at_most_64 (keep_all kept.old (paths_after (chosen.old.items ++ edge ∷ []) (map word_edges (words_of words.now)))) ≡ Err kind) }
{
    if !extends(chosen.as_slice(), edge) {
        return Ok(false);
    }
    chosen.push(edge);
    let some = keep_paths(words, chosen, kept)?;
    chosen.pop();
    Ok(some)
}
