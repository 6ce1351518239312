ghost use Rattle.std.specs.Prelude.{◌≡◌};
ghost use Rattle.arch_trait.specs.{Writing.{immediate_number, label_raw}, InstructionPieces.{raw_seen, operand_texts}, Forms.{label_alone}};

use crate::reading::{Named, Operands, Raw};
use final_cond::number_of;
use micro_ops::Micro;

/// The greatest number that the text of an instruction can hold.
pub const MAX_IMMEDIATE: u32 = 2047;

/// The number that these digits represent in decimal, without leading zeros. `None` if they represent
/// none, or one above `MAX_IMMEDIATE`.
#[tactic(auto, unfolding(crate::specs::Writing::immediate_number))]
pub fn immediate(digits: &[u8]) -> Option<u32>
    ensures { result ≡ immediate_number digits.now }
{
    match number_of(digits) {
        Some(n) if n <= MAX_IMMEDIATE => Some(n),
        _ => None,
    }
}

/// A label as an instruction of its own, if the word ends with a colon and has no operands.
pub fn read_label_alone<'a>(word: &'a [u8], operands: Operands<'a>) -> Option<Raw<'a>>
    ensures { raw_seen result ≡ label_alone word.now (operand_texts operands.entry) }
{
    match operands {
        Operands::None => read_label(word),
        _ => None,
    }
}

/// A label as an instruction of its own, if the word ends with a colon.
#[tactic(auto, unfolding(crate::specs::Writing::label_raw))]
fn read_label(word: &[u8]) -> Option<Raw<'_>>
    ensures { raw_seen result ≡ label_raw word.now }
{
    match word {
        [name @ .., b':'] => Some(Raw {
            op: Micro::Label { label: 0 },
            name: Named::Label(name),
        }),
        _ => None,
    }
}
