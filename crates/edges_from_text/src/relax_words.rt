ghost use Rattle.std.specs.{Prelude.{◌≡◌, ◌<◌, ◌≤◌, ◌+◌, ◌∷◌, [], ◌++◌, length, MatchOption}, List.{list_any}, Option.{option_to_list}};
ghost use Rattle.arrayvec.specs.ArrayVec.{array_vec_len};
ghost use Rattle.relax_edges.specs.Spelling.{edge_of};
ghost use Rattle.edges_from_text.specs.{RelaxText.{is_separator, words_of, is_empty}, Relaxations.word_edges};
ghost use Rattle.edges_from_text.specs.Stars.{edges_by_last, edges_by_end};

use crate::edge::read_edge_bytes;
use crate::relax_runs::{RunEnd, is_separator, run_len};
use arrayvec::ArrayVec;
use relax_edges::Edge;

/// The first word of a text without brackets, and the text after it; `None` if there is no word.
#[tactic(auto, using(crate::proofs::RelaxWords::words_of_separator, crate::proofs::RelaxWords::words_of_word, crate::proofs::RelaxWords::word_len_some))]
pub(crate) fn next_word(text: &[u8]) -> Option<(&[u8], &[u8])>
    ensures words { MatchOption result (words_of text.now ≡ []) (λ p. words_of text.now ≡ p.0.now ∷ words_of p.1.now) }
    ensures shorter { MatchOption result (Unit {0}) (λ p. length p.1.now < length text.now) }
{
    let mut rest = text;
    while let [first, remainder @ ..] = rest {
        if !is_separator(*first) {
            return Some(rest.split_at(run_len(rest, RunEnd::Separator)));
        }
        rest = remainder;
    }
    None
}

/// A prefix and two bytes as one word; `None` if it would be longer than each spelling.
fn joined(prefix: &[u8], before: u8, last: u8) -> Option<ArrayVec<u8, 16>>
    ensures { MatchOption result (16 < length (prefix.now ++ before ∷ last ∷ [])) (λ word. word.items ≡ prefix.now ++ before ∷ last ∷ []) }
{
    let mut word = ArrayVec::new();
    word.try_extend_from_slice(prefix).ok()?;
    word.try_push(before).ok()?;
    word.try_push(last).ok()?;
    Some(word)
}

#[tactic(auto, using(crate::proofs::Stars::pushed_long))]
fn push_read(prefix: &[u8], before: u8, last: u8, edges: &mut ArrayVec<Edge, 4>)
    requires { array_vec_len edges.old < 4 }
    ensures { edges.new.items ≡ edges.old.items ++ option_to_list (edge_of (prefix.now ++ before ∷ last ∷ [])) }
{
    let Some(word) = joined(prefix, before, last) else {
        return;
    };
    if let Ok(edge) = read_edge_bytes(word.as_slice()) {
        edges.push(edge);
    }
}

#[tactic(auto, using(crate::proofs::Stars::pushed_twice, crate::proofs::Stars::pushed_once, crate::proofs::Stars::option_to_list_short))]
fn push_by_last(prefix: &[u8], before: u8, last: u8, edges: &mut ArrayVec<Edge, 4>)
    requires { array_vec_len edges.old ≤ 2 }
    ensures { edges.new.items ≡ edges.old.items ++ edges_by_last prefix.now before last }
{
    if last == b'*' {
        push_read(prefix, before, b'R', edges);
        push_read(prefix, before, b'W', edges);
    } else {
        push_read(prefix, before, last, edges);
    }
}

#[tactic(auto, using(crate::proofs::Stars::edges_by_last_few), unfolding(crate::specs::Stars::edges_by_end))]
fn edges_by_end(prefix: &[u8], before: u8, last: u8) -> ArrayVec<Edge, 4>
    ensures { result.items ≡ edges_by_end prefix.now before last }
{
    let mut edges = ArrayVec::new();
    if before == b'*' {
        push_by_last(prefix, b'R', last, &mut edges);
        push_by_last(prefix, b'W', last, &mut edges);
    } else {
        push_by_last(prefix, before, last, &mut edges);
    }
    edges
}

/// The edges that a word names: a star among its last two bytes means `R` and `W`.
#[tactic(auto, using(crate::proofs::Stars::word_edges_short))]
pub(crate) fn word_edges(word: &[u8]) -> ArrayVec<Edge, 4>
    ensures { result.items ≡ word_edges word.now }
{
    match word {
        [prefix @ .., before, last] => edges_by_end(prefix, *before, *last),
        _ => ArrayVec::new(),
    }
}

/// Whether some word names no edge.
pub(crate) fn has_unknown(words: &[u8]) -> bool
    ensures { result ≡ list_any (λ word. is_empty (word_edges word)) (words_of words.now) }
{
    let mut rest = words;
    while let Some((word, remainder)) = next_word(rest) {
        if word_edges(word).is_empty() {
            return true;
        }
        rest = remainder;
    }
    false
}

/// The number of words.
pub(crate) fn count_words(words: &[u8]) -> usize
    ensures { result ≡ length (words_of words.now) }
{
    let mut count = 0;
    let mut rest = words;
    while let Some((_, remainder)) = next_word(rest) {
        count += 1;
        rest = remainder;
    }
    count
}
