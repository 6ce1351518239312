ghost use Rattle.std.specs.{Prelude.{◌≡◌}, Char.{is_ascii_alphabetic}};
ghost use Rattle.text_parts.specs.{LeadingRuns.{leading_run, after_run}, Blanks.{unblanked}, Words.{is_argument_byte, words}};
ghost use Rattle.litmus_text.specs.{TextCuts.{pieces}, Header.{two_words}, Views.{cut_seen, pieces_left, FirstPiece}};

use text_parts::{Class, cut, next_word, split_run, without_blanks};

/// The pieces that are left of a text between signs.
#[derive(Clone, Copy)]
pub(crate) struct Pieces<'a> {
    pub(crate) sign: u8,
    /// The text of the pieces that are left, if there are any.
    pub(crate) rest: Option<&'a [u8]>,
}

impl<'a> Pieces<'a> {
    pub(crate) fn new(sign: u8, text: &'a [u8]) -> Pieces<'a>
        ensures { pieces_left result ≡ pieces sign text.now }
    {
        Pieces {
            sign,
            rest: Some(text),
        }
    }

    /// The first piece that is left, and those after it, if any is left.
    pub(crate) fn first(self) -> Option<(&'a [u8], Pieces<'a>)>
        ensures { FirstPiece result (pieces_left self.entry) }
    {
        let text = self.rest?;
        match cut(self.sign, text) {
            Some((piece, remainder)) => Some((piece, Pieces::new(self.sign, remainder))),
            None => Some((
                text,
                Pieces {
                    sign: self.sign,
                    rest: None,
                },
            )),
        }
    }
}

/// The words between blanks, if there are exactly two.
pub(crate) fn two_words(text: &[u8]) -> Option<(&[u8], &[u8])>
    ensures { cut_seen result ≡ two_words (words text.now) }
{
    let (first, remainder) = next_word(text)?;
    let (second, remainder) = next_word(remainder)?;
    match next_word(remainder) {
        None => Some((first, second)),
        Some(_) => None,
    }
}

/// The letters at the beginning of a text, and the text after them.
pub(crate) fn split_letters(text: &[u8]) -> (&[u8], &[u8])
    ensures letters { result.0.now ≡ leading_run is_ascii_alphabetic text.now }
    ensures rest { result.1.now ≡ after_run is_ascii_alphabetic text.now }
{
    split_run(Class::Letter, text)
}

/// The first word of a line: it ends before a blank or a parenthesis.
pub(crate) fn first_word_of_line(text: &[u8]) -> &[u8]
    ensures { result.now ≡ leading_run is_argument_byte (unblanked text.now) }
{
    split_run(Class::Word, without_blanks(text)).0
}
