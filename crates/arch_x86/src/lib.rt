//! X86: loads and stores that name their location, and MFENCE.
#![tactic(auto)]

ghost use Rattle.std.specs.Prelude.{refl};
ghost use Rattle.relax_edges.specs.declared.kinds.ArchName.TheVariants as archs;
ghost use Rattle.arch_x86.specs.{Puts.{puts as x86}, Laws.{laws as x86_laws}, Table.{writing as x86_writing}};
ghost use Rattle.arch_x86.specs.ReadsBack.{reads_back as x86_reads_back, reads_own as x86_reads_own};
ghost use Rattle.arch_x86.specs.InCells.{writes_cells as x86_writes_cells, makes_one_access as x86_makes_one_access};

mod short;
mod table;

use crate::short::print_short;
use crate::table::table;
use arch_instructions::{has_by, print_by, read_by};
use arch_trait::{
    Arch, AskedAccess, Instrs, Link, MAX_INSTRUCTION_TEXT, Operands, Places, Raw, Regs, Shape,
};
use arrayvec::ArrayString;
use final_cond::RegName;
use micro_ops::{Barrier, Micro};
use relax_edges::ArchName;

/// The architecture X86.
pub struct X86;

const REGISTER_NAMES: [&str; 6] = ["EAX", "EBX", "ECX", "EDX", "ESI", "EDI"];

impl Arch for X86 {
    ghost puts = { x86 };

    ghost writing = { x86_writing };

    ghost NAME = { archs.X86 };

    ghost REGISTERS = { 6 };

    const NAME: ArchName = ArchName::X86;

    const REGISTERS: u8 = 6;

    fn has(op: &Micro) -> bool {
        has_by(table(), op)
    }

    fn need(shape: &Shape) -> u32 {
        u32::from(shape.loads)
    }

    fn put_link(link: Link, _from: Option<u8>, _label: u8, out: &mut Instrs) {
        if let Link::Fence(fence) = link {
            out.push(Micro::Barrier {
                kind: Barrier::Fence(fence),
            });
        }
    }

    fn put_load(regs: &mut Regs, access: AskedAccess, out: &mut Instrs) -> u8 {
        let dst = regs.take();
        out.push(Micro::LoadAt {
            dst,
            place: access.place,
        });
        dst
    }

    fn put_store(_regs: &mut Regs, access: AskedAccess, value: u8, out: &mut Instrs) {
        out.push(Micro::StoreAt {
            place: access.place,
            n: u32::from(value),
        });
    }

    #[tactic(auto, using(crate::specs::Clear::is_clear_table))]
    fn print(op: &Micro, places: &Places, out: &mut ArrayString<MAX_INSTRUCTION_TEXT>) {
        if !print_short(op, places, out) {
            print_by(table(), op, places, out);
        }
    }

    fn read_raw<'a>(word: &'a [u8], operands: Operands<'a>) -> Option<Raw<'a>> {
        read_by(table(), word, operands)
    }

    fn register_name(r: u8, out: &mut RegName) {
        out.clear();
        out.push_str(REGISTER_NAMES[usize::from(r)]);
    }

    ghost same_name = { refl };

    ghost same_registers = { refl };

    ghost laws = { x86_laws };

    ghost reads_back = { x86_reads_back };

    ghost writes_cells = { x86_writes_cells };

    ghost makes_one_access = { x86_makes_one_access };

    ghost reads_own = { x86_reads_own };
}
