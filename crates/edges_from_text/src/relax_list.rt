ghost use Rattle.std.specs.Prelude.{◌≡◌, ◌≤◌, [], length, Ok, Err, OnErr, MatchResult};
ghost use Rattle.edges_from_text.specs.{RelaxText.items_of, RelaxSearch.KeepsRelaxations, RelaxKept.kept_items, Relaxations.relaxes_of};

use crate::relax::Relaxes;
use crate::relax_error::RelaxError;
use crate::relax_items::keep_item;

/// Keeps the relaxations of each item of a text, or returns the first error.
fn keep_items(text: &[u8], kept: &mut Relaxes) -> Result<(), RelaxError>
    requires { length kept.old ≤ 64 }
    ensures { KeepsRelaxations (kept_items kept.old (items_of text.now)) kept.new result }
{
    let mut at = 0;
    while at < text.len() {
        match keep_item(&text[at..], kept) {
            Ok(len) => at += len,
            Err(kind) => return Err(RelaxError { at, kind }),
        }
    }
    Ok(())
}

/// Reads a text of relaxations into `out`.
///
/// The text is a list of items, and may be empty. An item is a word, or a bracket of one or more words,
/// such as `[PodWR Fre]`. Commas, spaces and tabs separate words; they may also come elsewhere
/// between items and at both ends. A word spells an edge; a star among its last two bytes means `R`
/// and `W`, so `Pod**` is four edges. An item yields each choice of one edge per word in which each
/// edge joins the next; the last word varies fastest, and in a word the last star. After `Ok`, `out`
/// holds exactly the relaxations of all items in order, each at its first position.
///
/// The first item from the left with an error is refused, by the first of these errors: `BadBracket`
/// (a bracket that isn't closed, has no word or holds a `[`, or a `]` outside a bracket), `UnknownEdge`
/// (a word names no edge), `RelaxTooLong` (more than 8 words in a bracket), `DoesNotJoin` (in no choice
/// does each edge join the next), `TooManyRelaxes` (it would make a 65th relaxation). `at` is the byte,
/// from 0, where that item begins, and `out` is then empty.
///
/// Source: the diy part of the herdtools manual, option `-relax`.
#[tactic(auto, using(crate::proofs::RelaxRule::relaxes_of_text))]
pub fn read_relaxes(text: &str, out: &mut Relaxes) -> Result<(), RelaxError>
    ensures read { MatchResult result (λ _. relaxes_of text.now ≡ Ok out.new) (λ error. relaxes_of text.now ≡ Err error) }
    ensures refused { OnErr result (out.new ≡ []) }
{
    out.clear();
    match keep_items(text.as_bytes(), out) {
        Ok(()) => Ok(()),
        Err(error) => {
            out.clear();
            Err(error)
        }
    }
}
