ghost use Rattle.std.specs.Prelude.{◌≡◌, ◌<◌, ◌≤◌, ◌+◌, ◌++◌, ◌∷◌, [], true, length, codes, slice_index_or};
ghost use Rattle.arch_trait.specs.Writing.{op_text, name_in, place_below};
ghost use Rattle.arch_x86.specs.Table.{writing, x86_register_names};

use crate::REGISTER_NAMES;
use arch_instructions::{print_fixed, push_short};
use arch_trait::{MAX_INSTRUCTION_TEXT, Places, push_digit};
use arrayvec::ArrayString;
use micro_ops::{Barrier, Micro};
use relax_edges::FenceKind;

/// The text of an instruction.
type Text = ArrayString<MAX_INSTRUCTION_TEXT>;

/// Makes `out` the text of a load, of a store of one digit or of the fence: the text by the table, in
/// fewer machine instructions. Returns false for any other operation.
#[inline(always)]
#[tactic(auto, using(crate::proofs::ShortTexts::load_text, crate::proofs::ShortTexts::store_text, crate::proofs::ShortTexts::fence_text))]
pub(crate) fn print_short(op: &Micro, places: &Places, out: &mut Text) -> bool
    requires { place_below (length places.now) op.now ≡ true }
    ensures { result ≡ true → out.new.bytes ≡ op_text writing (name_in places.now) op.now }
{
    match *op {
        Micro::LoadAt { dst, place } if usize::from(dst) < REGISTER_NAMES.len() => {
            print_load(dst, places.get(place).as_str(), out);
            true
        }
        Micro::StoreAt { place, n } if n < 10 => {
            print_store(places.get(place).as_str(), n, out);
            true
        }
        Micro::Barrier {
            kind: Barrier::Fence(FenceKind::MFence),
        } => {
            print_fixed("MFENCE", out);
            true
        }
        _ => false,
    }
}

/// Makes `out` the text of a load from a location with this name.
#[inline(always)]
#[tactic(auto, using(std::proofs::Common::append_assoc))]
fn print_load(dst: u8, place: &str, out: &mut Text)
    requires register { dst < length x86_register_names }
    requires short { length place.now ≤ 16 }
    ensures { out.new.bytes ≡ codes "MOV " ++ (slice_index_or x86_register_names dst [] ++ (codes ",[" ++ (place.now ++ codes "]"))) }
{
    print_fixed("MOV ", out);
    out.push_str(REGISTER_NAMES[usize::from(dst)]);
    out.push_str(",[");
    push_short(place, out);
    out.push_str("]");
}

/// Makes `out` the text of a store of a digit to a location with this name.
#[inline(always)]
#[tactic(auto, using(std::proofs::Common::append_assoc))]
fn print_store(place: &str, n: u32, out: &mut Text)
    requires digit { n < 10 }
    requires short { length place.now ≤ 16 }
    ensures { out.new.bytes ≡ codes "MOV [" ++ (place.now ++ (codes "],$" ++ (48 + n) ∷ [])) }
{
    print_fixed("MOV [", out);
    push_short(place, out);
    out.push_str("],$");
    push_digit(n, out);
}
