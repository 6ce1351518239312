//! AArch64: accesses by address registers, dependencies by `EOR`, branches by `CBNZ`.
#![tactic(auto)]

ghost use Rattle.std.specs.Prelude.{refl};
ghost use Rattle.relax_edges.specs.declared.kinds.ArchName.TheVariants as archs;
ghost use Rattle.arch_aarch64.specs.{Puts.{puts as a64}, Table.{writing as a64_writing}, Laws.{laws as a64_laws}};
ghost use Rattle.arch_aarch64.specs.ReadsBack.{reads_back as a64_reads_back, reads_own as a64_reads_own};
ghost use Rattle.arch_aarch64.specs.InCells.{writes_cells as a64_writes_cells, makes_one_access as a64_makes_one_access};

mod own;
mod table;

use crate::table::{NAMES, fixed_texts, table};
use arch_instructions::{
    has_by, print_with, put_link, put_load, put_store, read_by, registers_needed,
};
use arch_trait::{
    Arch, AskedAccess, Instrs, Link, MAX_INSTRUCTION_TEXT, Operands, Places, Raw, Regs, Shape,
};
use arrayvec::ArrayString;
use final_cond::RegName;
use micro_ops::Micro;
use relax_edges::ArchName;

/// The architecture AArch64.
pub struct A64;

impl Arch for A64 {
    ghost puts = { a64 };

    ghost writing = { a64_writing };

    ghost NAME = { archs.AArch64 };

    ghost REGISTERS = { 28 };

    const NAME: ArchName = ArchName::AArch64;

    const REGISTERS: u8 = 28;

    fn has(op: &Micro) -> bool {
        has_by(table(), op)
    }

    fn need(shape: &Shape) -> u32 {
        registers_needed(shape)
    }

    fn put_link(link: Link, from: Option<u8>, label: u8, out: &mut Instrs) {
        put_link::<A64>(link, from, label, out);
    }

    fn put_load(regs: &mut Regs, access: AskedAccess, out: &mut Instrs) -> u8 {
        put_load::<A64>(regs, access, out)
    }

    fn put_store(regs: &mut Regs, access: AskedAccess, value: u8, out: &mut Instrs) {
        put_store::<A64>(regs, access, value, out);
    }

    #[tactic(auto, using(crate::specs::Clear::is_clear_table))]
    fn print(op: &Micro, places: &Places, out: &mut ArrayString<MAX_INSTRUCTION_TEXT>) {
        print_with(table(), fixed_texts(), op, places, out);
    }

    fn read_raw<'a>(word: &'a [u8], operands: Operands<'a>) -> Option<Raw<'a>> {
        read_by(table(), word, operands)
    }

    #[tactic(auto, using(arch_trait::proofs::FormBacks::name_at))]
    fn register_name(r: u8, out: &mut RegName) {
        out.clear();
        NAMES.push(r, out);
    }

    ghost same_name = { refl };

    ghost same_registers = { refl };

    ghost laws = { a64_laws };

    ghost reads_back = { a64_reads_back };

    ghost writes_cells = { a64_writes_cells };

    ghost makes_one_access = { a64_makes_one_access };

    ghost reads_own = { a64_reads_own };
}
