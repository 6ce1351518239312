ghost use Rattle.std.specs.{Prelude.{◌≡◌, ◌<◌, ◌≤◌, ℕ, List, true, length}, Str.{bytes_eq}};
ghost use Rattle.arch_trait.specs.{PlaceNames.{number_in}, InstructionReading.{instr_read, read_numbered}, InstructionPieces.{ReadsPieces, name_seen}};
ghost use Rattle.arch_trait.specs.Writing.{place, label, with_number};

use crate::arch::Arch;
use crate::places::Places;
use crate::reading::{InstrError, Named, operands_of};
use final_cond::{RegName, is_place_name, is_register_name};
use micro_ops::Micro;
use text_parts::{Class, split_run, without_blanks};

/// The instruction in the bytes of a cell, as `Arch::read_instr` reads it.
pub fn read_cell<A: Arch>(
    text: &[u8],
    places: &mut Places,
    labels: &mut Places,
) -> Result<Micro, InstrError>
    ensures { ReadsPieces result places.old labels.old places.new labels.new (instr_read A.writing text.now places.old labels.old) }
{
    let (word, rest) = split_run(Class::Inked, without_blanks(text));
    match A::read_raw(word, operands_of(rest)) {
        None => Err(InstrError::BadInstruction),
        Some(raw) => number(raw.op, raw.name, places, labels),
    }
}

fn number(
    op: Micro,
    name: Named<'_>,
    places: &mut Places,
    labels: &mut Places,
) -> Result<Micro, InstrError>
    ensures { ReadsPieces result places.old labels.old places.new labels.new (read_numbered op (name_seen name.entry) places.old labels.old) }
{
    match name {
        Named::Nothing => Ok(op),
        Named::Place(name) => number_place(op, name, places),
        Named::Label(name) => number_label(op, name, labels),
    }
}

fn number_place(op: Micro, name: &[u8], places: &mut Places) -> Result<Micro, InstrError>
    ensures { (labels : List (List ℕ)) → ReadsPieces result places.old labels places.new labels (read_numbered op (place name.now) places.old labels) }
{
    if !is_place_name(name) {
        return Err(InstrError::BadInstruction);
    }
    match places.add_bytes(name) {
        Some(i) => Ok(with_number(op, i)),
        None => Err(InstrError::TooManyPlaces),
    }
}

#[tactic(auto, using(crate::proofs::Tables::label_is_name))]
fn number_label(op: Micro, name: &[u8], labels: &mut Places) -> Result<Micro, InstrError>
    ensures { (places : List (List ℕ)) → ReadsPieces result places labels.old places labels.new (read_numbered op (label name.now) places labels.old) }
{
    if !is_register_name(name) {
        return Err(InstrError::BadInstruction);
    }
    match labels.add_bytes(name) {
        Some(i) => Ok(with_number(op, i)),
        None => Err(InstrError::TooManyLabels),
    }
}

/// The operation with this number for its location or label, if it has one.
fn with_number(op: Micro, i: u8) -> Micro
    ensures { result ≡ with_number op i }
{
    match op {
        Micro::LoadAt { dst, .. } => Micro::LoadAt { dst, place: i },
        Micro::StoreAt { n, .. } => Micro::StoreAt { place: i, n },
        Micro::BranchEq { .. } => Micro::BranchEq { label: i },
        Micro::BranchNz { a, .. } => Micro::BranchNz { a, label: i },
        Micro::Label { .. } => Micro::Label { label: i },
        _ => op,
    }
}

/// The register with this name, as `Arch::register_of` returns it.
pub fn register_named<A: Arch>(name: &[u8]) -> Option<u8>
    ensures { result ≡ number_in A.writing.registers name.now }
{
    let mut known = RegName::new();
    for r in 0..A::REGISTERS {
        A::register_name(r, &mut known);
        if known.as_str().as_bytes() == name {
            return Some(r);
        }
    }
    None
}
