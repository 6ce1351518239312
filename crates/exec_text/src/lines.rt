ghost use Rattle.exec_text.specs.ExecutionSteps.{FirstLine};

use text_parts::{cut, without_return};

/// The first line of a text, if it has one, and the text after it. A carriage return before a line feed is dropped.
#[tactic(auto, using(crate::proofs::FirstLines::line_cut, crate::proofs::FirstLines::line_last))]
pub(crate) fn first_line(text: &[u8]) -> Option<(&[u8], &[u8])>
    ensures { FirstLine result text.now }
{
    if text.is_empty() {
        return None;
    }
    match cut(b'\n', text) {
        Some((line, rest)) => Some((without_return(line), rest)),
        None => Some((text, &[])),
    }
}
