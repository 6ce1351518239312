ghost use Rattle.std.specs.Prelude.{◌≡◌, ◌<◌, ◌≤◌, ◌+◌, ◌∷◌, false, length, Some, None, OnOk, IfOk, MatchOption};
ghost use Rattle.edges_from_text.specs.{RelaxText.{is_separator, words_of, bracket_words}, RelaxKept.kept_item};
ghost use Rattle.edges_from_text.specs.{RelaxPrefix.{first_word_len, kept_prefix, ends_here, IsInside, IsFirstWord}, RelaxSearch.KeepsRelaxations};

use crate::relax::Relaxes;
use crate::relax_error::RelaxKind;
use crate::relax_runs::{RunEnd, is_separator, run_len};
use crate::relax_search::keep_paths;
use crate::relax_words::{count_words, has_unknown, next_word};
use arrayvec::ArrayVec;

/// The text inside a good bracket, from the text after its `[`; `None` if the bracket is bad.
#[tactic(auto, using(crate::proofs::Prefixes::bracket_open, crate::proofs::Prefixes::bracket_nested, crate::proofs::Prefixes::bracket_empty, crate::proofs::Prefixes::bracket_good))]
fn inside_bracket(remainder: &[u8]) -> Option<&[u8]>
    ensures { MatchOption result (bracket_words remainder.now ≡ None) (λ words. IsInside remainder.now words.now) }
{
    let len = run_len(remainder, RunEnd::Bracket);
    if len >= remainder.len() || remainder[len] != b']' {
        return None;
    }
    let words = &remainder[..len];
    match next_word(words) {
        Some(_) => Some(words),
        None => None,
    }
}

/// The word that a text begins with.
#[tactic(auto, using(crate::proofs::Prefixes::first_word))]
fn first_word(text: &[u8]) -> &[u8]
    requires { ends_here text.now ≡ false }
    ensures { IsFirstWord text.now result.now }
{
    &text[..run_len(text, RunEnd::Word)]
}

/// Keeps the relaxations of an item with these words, or returns why the item is refused.
#[tactic(auto, using(crate::proofs::Items::kept_words_unknown, crate::proofs::Items::kept_words_long, crate::proofs::Items::kept_words_some, crate::proofs::Items::kept_words_none, crate::proofs::Items::kept_words_refused))]
fn keep_words(words: &[u8], kept: &mut Relaxes) -> Result<(), RelaxKind>
    requires some { 0 < length (words_of words.now) }
    requires few { length kept.old ≤ 64 }
    ensures kept { KeepsRelaxations (kept_item kept.old (Some (words_of words.now))) kept.new result }
    ensures few { OnOk result (length kept.new ≤ 64) }
{
    if has_unknown(words) {
        return Err(RelaxKind::UnknownEdge);
    }
    if count_words(words) > 8 {
        return Err(RelaxKind::RelaxTooLong);
    }
    let mut chosen = ArrayVec::new();
    if keep_paths(words, &mut chosen, kept)? {
        Ok(())
    } else {
        Err(RelaxKind::DoesNotJoin)
    }
}

/// Keeps the relaxations of the item that a text begins with, and returns the length of the item; a
/// separator is skipped.
pub(crate) fn keep_item(text: &[u8], kept: &mut Relaxes) -> Result<usize, RelaxKind>
    requires some { 0 < length text.now }
    requires few { length kept.old ≤ 64 }
    ensures kept { KeepsRelaxations (kept_prefix kept.old text.now) kept.new result }
    ensures len { IfOk result (λ len. len ≡ first_word_len text.now) }
    ensures more { IfOk result (λ len. 0 < len) }
    ensures within { IfOk result (λ len. len ≤ length text.now) }
    ensures few { OnOk result (length kept.new ≤ 64) }
{
    let first = text[0];
    if first == b'[' {
        keep_bracket(&text[1..], kept)
    } else if first == b']' {
        Err(RelaxKind::BadBracket)
    } else if is_separator(first) {
        Ok(1)
    } else {
        keep_word(text, kept)
    }
}

/// Keeps the relaxations of a bracket, from the text after its `[`, and returns the bracket's length.
fn keep_bracket(remainder: &[u8], kept: &mut Relaxes) -> Result<usize, RelaxKind>
    requires { length kept.old ≤ 64 }
    ensures kept { KeepsRelaxations (kept_prefix kept.old (91 ∷ remainder.now)) kept.new result }
    ensures len { IfOk result (λ len. len ≡ first_word_len (91 ∷ remainder.now)) }
    ensures more { IfOk result (λ len. 0 < len) }
    ensures within { IfOk result (λ len. len ≤ length remainder.now + 1) }
    ensures few { OnOk result (length kept.new ≤ 64) }
{
    match inside_bracket(remainder) {
        Some(words) => {
            keep_words(words, kept)?;
            Ok(words.len() + 2)
        }
        None => Err(RelaxKind::BadBracket),
    }
}

/// Keeps the relaxations of the word that a text begins with, and returns the word's length.
fn keep_word(text: &[u8], kept: &mut Relaxes) -> Result<usize, RelaxKind>
    requires word { ends_here text.now ≡ false }
    requires few { length kept.old ≤ 64 }
    ensures kept { KeepsRelaxations (kept_prefix kept.old text.now) kept.new result }
    ensures len { IfOk result (λ len. len ≡ first_word_len text.now) }
    ensures more { IfOk result (λ len. 0 < len) }
    ensures within { IfOk result (λ len. len ≤ length text.now) }
    ensures few { OnOk result (length kept.new ≤ 64) }
{
    let word = first_word(text);
    keep_words(word, kept)?;
    Ok(word.len())
}
