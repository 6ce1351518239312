ghost use Rattle.std.specs.{Prelude.{◌≡◌, ◌==◌}, List.{position, slice_split}};
ghost use Rattle.arch_trait.specs.{InstructionReading.{operands_in}, InstructionPieces.{operand_texts, name_seen}, Writing.{nothing}, OperandCuts.{Cut}};

use micro_ops::Micro;
use text_parts::trim_blanks;

/// Why the text of a cell isn't an instruction, or can't be kept.
#[derive(Clone, Copy, Debug, PartialEq, Eq, thiserror::Error)]
pub enum InstrError {
    /// The architecture has no instruction of this form, or a name in it doesn't have its form.
    #[error("no such instruction")]
    BadInstruction,
    /// It names one location more than a test can have.
    #[error("too many places")]
    TooManyPlaces,
    /// It names one label more than a thread can have.
    #[error("too many labels")]
    TooManyLabels,
}

/// The operands of an instruction, as they are written.
#[derive(Clone, Copy)]
pub enum Operands<'a> {
    None,
    One(&'a [u8]),
    Two(&'a [u8], &'a [u8]),
    Three(&'a [u8], &'a [u8], &'a [u8]),
    Four(&'a [u8], &'a [u8], &'a [u8], &'a [u8]),
    /// More than four.
    More,
}

/// What an instruction names: nothing, a location or a label.
#[derive(Clone, Copy)]
pub enum Named<'a> {
    Nothing,
    Place(&'a [u8]),
    Label(&'a [u8]),
}

/// An instruction as it is read, before its name has a number: its operation, with 0 as the number
/// of a location or label, and the name.
#[derive(Clone, Copy)]
pub struct Raw<'a> {
    pub op: Micro,
    pub name: Named<'a>,
}

impl Raw<'_> {
    /// The instruction of an operation that names neither a location nor a label.
    pub fn without_name(op: Micro) -> Raw<'static>
        ensures op { result.op ≡ op }
        ensures name { name_seen result.name ≡ nothing }
    {
        Raw {
            op,
            name: Named::Nothing,
        }
    }
}

/// The text before the first comma and the text after it, if there is a comma.
#[tactic(auto, using(crate::proofs::Commas::cut_none, crate::proofs::Commas::cut_some))]
fn cut_comma(text: &[u8]) -> Option<(&[u8], &[u8])>
    ensures { Cut result text.now }
{
    match comma_in(text) {
        Some(comma) => Some((&text[..comma], &text[comma + 1..])),
        None => None,
    }
}

fn comma_in(text: &[u8]) -> Option<usize>
    ensures { result ≡ position (λ b. b == 44) text.now }
{
    text.iter().position(|byte| *byte == b',')
}

/// The operands in the text after the first word.
pub(crate) fn operands_of(text: &[u8]) -> Operands<'_>
    ensures { operand_texts result ≡ operands_in text.now }
{
    let text = trim_blanks(text);
    if text.is_empty() {
        return Operands::None;
    }
    let Some((first, rest)) = cut_comma(text) else {
        return Operands::One(trim_blanks(text));
    };
    let Some((second, rest)) = cut_comma(rest) else {
        return Operands::Two(trim_blanks(first), trim_blanks(rest));
    };
    let Some((third, rest)) = cut_comma(rest) else {
        return Operands::Three(trim_blanks(first), trim_blanks(second), trim_blanks(rest));
    };
    match cut_comma(rest) {
        None => Operands::Four(
            trim_blanks(first),
            trim_blanks(second),
            trim_blanks(third),
            trim_blanks(rest),
        ),
        Some(_) => Operands::More,
    }
}
