ghost use Rattle.std.specs.{Prelude.{◌≡◌, ◌≤◌, length}, List.{position, position_or_len}};
ghost use Rattle.edges_from_text.specs.{RelaxText.{is_separator, is_bracket}, RelaxRuns.end_test};

/// What ends a run of bytes in the text of relaxations.
#[derive(Clone, Copy)]
pub(crate) enum RunEnd {
    Separator,
    Bracket,
    /// A separator or a bracket.
    Word,
}

impl RunEnd {
    fn is_at(self, byte: u8) -> bool
        ensures { result ≡ end_test self byte }
    {
        match self {
            RunEnd::Separator => is_separator(byte),
            RunEnd::Bracket => is_bracket(byte),
            RunEnd::Word => is_separator(byte) || is_bracket(byte),
        }
    }
}

/// Whether a byte separates words: a comma, a space or a tab.
pub(crate) fn is_separator(byte: u8) -> bool
    ensures { result ≡ is_separator byte }
{
    matches!(byte, b',' | b' ' | b'\t')
}

fn is_bracket(byte: u8) -> bool
    ensures { result ≡ is_bracket byte }
{
    matches!(byte, b'[' | b']')
}

fn first_end(text: &[u8], end: RunEnd) -> Option<usize>
    ensures { result ≡ position (end_test end) text.now }
{
    text.iter().position(|byte| end.is_at(*byte))
}

/// How many bytes of a text come before the first that ends a run: all if there is none.
#[tactic(auto, using(crate::proofs::RelaxWords::position_unwrapped))]
pub(crate) fn run_len(text: &[u8], end: RunEnd) -> usize
    ensures value { result ≡ position_or_len (end_test end) text.now }
    ensures within { result ≤ length text.now }
{
    first_end(text, end).unwrap_or(text.len())
}
