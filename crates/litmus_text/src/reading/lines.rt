ghost use Rattle.std.specs.Prelude.{◌≡◌, ◌<◌, length};
ghost use Rattle.litmus_text.specs.{TextLines.{line_kept, is_passed, is_comment, lines_from}, Views.{text_left, lines_seen, IsShorter}};

use crate::reading::text::Text;
use text_parts::{cut, trim_blanks, without_return};

/// A line that isn't skipped, and what is left after it.
#[derive(Clone, Copy)]
pub(crate) struct Line<'a> {
    pub(crate) number: u64,
    pub(crate) text: &'a [u8],
    pub(crate) rest: Text<'a>,
}

/// What is left of a text, by its first line that isn't skipped.
#[derive(Clone, Copy)]
pub(crate) enum Lines<'a> {
    /// There is no such line; with the number after that of the last line.
    Ends(u64),
    Line(Line<'a>),
}

/// Whether a text begins with `(*` and ends with `*)`.
fn is_comment(text: &[u8]) -> bool
    ensures { result ≡ is_comment text.now }
{
    text.starts_with(b"(*") && text.ends_with(b"*)")
}

/// Whether a line is skipped: it is only blanks, or a comment between blanks.
#[tactic(auto, using(crate::proofs::CutLaws::passed_is))]
fn is_passed(text: &[u8]) -> bool
    ensures { result ≡ is_passed text.now }
{
    let inner = trim_blanks(text);
    inner.is_empty() || is_comment(inner)
}

impl<'a> Text<'a> {
    /// The lines of a whole text, which are numbered from 1.
    pub(crate) fn new(bytes: &'a [u8]) -> Text<'a>
        ensures { text_left result ≡ lines_from 1 bytes.now }
    {
        Text { bytes, number: 1 }
    }

    /// The first line, and what is left after it.
    fn first(self) -> (&'a [u8], Text<'a>)
        requires { 0 < length self.bytes.now }
        ensures line { text_left self.entry ≡ line_kept self.entry.number result.0.now (text_left result.1) }
        ensures shorter { length result.1.bytes.now < length self.entry.bytes.now }
    {
        match cut(b'\n', self.bytes) {
            Some((line, bytes)) => (
                without_return(line),
                Text {
                    bytes,
                    number: self.number + 1,
                },
            ),
            None => (
                self.bytes,
                Text {
                    bytes: &[],
                    number: self.number + 1,
                },
            ),
        }
    }

    /// The first line that isn't skipped, with what is left after it.
    pub(crate) fn lines(self) -> Lines<'a>
        ensures lines { lines_seen result ≡ text_left self.entry }
        ensures shorter { IsShorter result (length self.entry.bytes.now) }
    {
        let mut left = self;
        while !left.bytes.is_empty() {
            let (text, rest) = left.first();
            if !is_passed(text) {
                return Lines::Line(Line {
                    number: left.number,
                    text,
                    rest,
                });
            }
            left = rest;
        }
        Lines::Ends(left.number)
    }
}
