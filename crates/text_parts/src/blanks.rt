ghost use Rattle.std.specs.Prelude.{◌≡◌, ◌≤◌, length};
ghost use Rattle.text_parts.specs.Blanks.{unblanked, before_blanks, trim_blanks};

use crate::classes::Class;
use crate::runs::split_run;

/// A text without the blanks (spaces and tabs) at its start.
#[tactic(auto, using(crate::proofs::RunLaws::after_run_short))]
pub fn without_blanks(text: &[u8]) -> &[u8]
    ensures text { result.now ≡ unblanked text.now }
    ensures short { length result.now ≤ length text.now }
{
    split_run(Class::Blank, text).1
}

/// A text without the blanks at its end.
pub fn without_last_blanks(text: &[u8]) -> &[u8]
    ensures { result.now ≡ before_blanks text.now }
{
    let mut text = text;
    while let [prefix @ .., last] = text {
        if !Class::Blank.has(*last) {
            break;
        }
        text = prefix;
    }
    text
}

/// A text without the blanks at both ends.
pub fn trim_blanks(text: &[u8]) -> &[u8]
    ensures { result.now ≡ trim_blanks text.now }
{
    without_last_blanks(without_blanks(text))
}
