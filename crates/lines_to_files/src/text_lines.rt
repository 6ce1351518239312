ghost use Rattle.std.specs.Prelude.{◌≡◌, ◌∷◌, ◌<◌, [], true, length, IfSome, MatchOption};
ghost use Rattle.text_parts.specs.{Cuts.{is_without}, Lines.{unended}};
ghost use Rattle.lines_to_files.specs.TextLines.{lines_by};

use text_parts::{cut, without_return};

/// Whether what comes after the last line feed of a text is a line.
#[derive(Clone, Copy)]
pub(crate) enum LastLine {
    /// It is one, unless it is empty.
    Counts,
    /// It is none, since what follows it wasn't read.
    Unread,
}

/// The first line of a text, and the text after it, if there is a line.
pub(crate) fn next_line(last: LastLine, text: &[u8]) -> Option<(&[u8], &[u8])>
    ensures lines { MatchOption result (lines_by last text.now ≡ []) (λ parts. lines_by last text.now ≡ parts.0.now ∷ lines_by last parts.1.now) }
    ensures less { IfSome result (λ parts. length parts.1.now < length text.now) }
{
    match cut(b'\n', text) {
        Some((line, later)) => Some((without_return(line), later)),
        None => last_line(last, text),
    }
}

/// The same for a text without a line feed.
#[tactic(auto, using(crate::proofs::FirstLines::last_counts, crate::proofs::FirstLines::empty_counts, crate::proofs::FirstLines::none_unread))]
fn last_line(last: LastLine, text: &[u8]) -> Option<(&[u8], &[u8])>
    requires { is_without 10 text.now ≡ true }
    ensures lines { MatchOption result (lines_by last text.now ≡ []) (λ parts. lines_by last text.now ≡ parts.0.now ∷ lines_by last parts.1.now) }
    ensures less { IfSome result (λ parts. length parts.1.now < length text.now) }
{
    match last {
        LastLine::Counts => {
            if text.is_empty() {
                return None;
            }
            Some((text, b""))
        }
        LastLine::Unread => None,
    }
}

/// What comes after the last line feed of a text; all of it if it has none.
#[tactic(auto, using(crate::proofs::FirstLines::unended_later, crate::proofs::FirstLines::unended_whole))]
pub(crate) fn unended(text: &[u8]) -> &[u8]
    ensures { result.now ≡ unended text.now }
{
    let mut rest = text;
    while let Some((_, later)) = cut(b'\n', rest) {
        rest = later;
    }
    rest
}
