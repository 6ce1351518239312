ghost use Rattle.std.specs.Prelude.{◌≡◌, ◌<◌, length, option_map, IfSome};
ghost use Rattle.text_parts.specs.Words.{words, words_seen};

use crate::blanks::without_blanks;
use crate::classes::Class;
use crate::runs::split_run;

/// The first word between blanks, and the text after it; `None` if the text has no word.
pub fn next_word(text: &[u8]) -> Option<(&[u8], &[u8])>
    ensures words { words text.now ≡ words_seen (option_map (λ parts. (parts.0.now, parts.1.now)) result) }

    // The word isn't empty, so less is left.
    ensures some { IfSome result (λ parts. 0 < length parts.0.now) }
    ensures less { IfSome result (λ parts. length parts.1.now < length text.now) }
{
    let (word, rest) = split_run(Class::Inked, without_blanks(text));
    if word.is_empty() {
        return None;
    }
    Some((word, rest))
}
