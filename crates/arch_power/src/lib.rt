//! Power: accesses by address registers, dependencies by `xor`, branches by `cmpw` and `beq`.
#![tactic(auto)]

ghost use Rattle.std.specs.Prelude.{refl};
ghost use Rattle.relax_edges.specs.declared.kinds.ArchName.TheVariants as archs;
ghost use Rattle.arch_power.specs.{Puts.{puts as power}, Laws.{laws as power_laws}, ReadsBack.{reads_back as power_reads_back, reads_own as power_reads_own}};
ghost use Rattle.arch_power.specs.{InCells.{writes_cells as power_writes_cells, makes_one_access as power_makes_one_access}, Table.{writing as power_writing}};

mod own;
mod table;

use crate::table::{NAMES, fixed_texts, table};
use arch_instructions::{
    has_by, print_with, put_link, put_load, put_store, read_by, registers_needed,
};
use arch_trait::{
    Arch, AskedAccess, Instrs, Link, MAX_INSTRUCTION_TEXT, Operands, Places, Raw, Regs, Shape,
};
use arrayvec::ArrayString;
use final_cond::RegName;
use micro_ops::Micro;
use relax_edges::ArchName;

/// The architecture Power.
pub struct Power;

impl Arch for Power {
    ghost puts = { power };

    ghost writing = { power_writing };

    ghost NAME = { archs.PPC };

    ghost REGISTERS = { 28 };

    const NAME: ArchName = ArchName::PPC;

    const REGISTERS: u8 = 28;

    fn has(op: &Micro) -> bool {
        has_by(table(), op)
    }

    fn need(shape: &Shape) -> u32 {
        registers_needed(shape)
    }

    fn put_link(link: Link, from: Option<u8>, label: u8, out: &mut Instrs) {
        put_link::<Power>(link, from, label, out);
    }

    fn put_load(regs: &mut Regs, access: AskedAccess, out: &mut Instrs) -> u8 {
        put_load::<Power>(regs, access, out)
    }

    fn put_store(regs: &mut Regs, access: AskedAccess, value: u8, out: &mut Instrs) {
        put_store::<Power>(regs, access, value, out);
    }

    #[tactic(auto, using(crate::specs::Clear::is_clear_table))]
    fn print(op: &Micro, places: &Places, out: &mut ArrayString<MAX_INSTRUCTION_TEXT>) {
        print_with(table(), fixed_texts(), op, places, out);
    }

    fn read_raw<'a>(word: &'a [u8], operands: Operands<'a>) -> Option<Raw<'a>> {
        read_by(table(), word, operands)
    }

    #[tactic(auto, using(arch_trait::proofs::FormBacks::name_at))]
    fn register_name(r: u8, out: &mut RegName) {
        out.clear();
        NAMES.push(r, out);
    }

    ghost same_name = { refl };

    ghost same_registers = { refl };

    ghost laws = { power_laws };

    ghost reads_back = { power_reads_back };

    ghost writes_cells = { power_writes_cells };

    ghost makes_one_access = { power_makes_one_access };

    ghost reads_own = { power_reads_own };
}
