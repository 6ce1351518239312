ghost use Rattle.std.specs.Prelude.{◌≡◌, ◌<◌, ◌≤◌, ◌+◌, ◌++◌, ℕ, true, false, is_some, length};
ghost use Rattle.arrayvec.specs.ArrayVec.{array_vec_len};
ghost use Rattle.relax_edges.specs.{declared.kinds.ArchName.{ArchName as TheName}, EdgeTable.{is_of_arch, mark_fits, mark_is_of}};
ghost use Rattle.arch_trait.specs.{Links.{link_is_of, depends_on_load, is_data}, Threads.{Puts}, Laws.{link_room, access_room, IsArch}, PlaceNames.{number_in}};
ghost use Rattle.arch_trait.specs.{Writing.{Writing, WritesBack, op_text, name_in, place_below, label_below}, InstructionReading.{instr_read, ReadsOwn}};
ghost use Rattle.arch_trait.specs.{InstructionPieces.{operand_texts, raw_seen, ReadsPieces}, Cells.{WritesCells, MakesOneAccess}};
ghost use Rattle.relax_edges.specs.declared.kinds.Dir.TheVariants as dirs;

use crate::access::AskedAccess;
use crate::cells::{read_cell, register_named};
use crate::link::Link;
use crate::places::Places;
use crate::reading::{InstrError, Operands, Raw};
use crate::regs::Regs;
use crate::step::{MAX_STEPS, Shape};
use arrayvec::{ArrayString, ArrayVec};
use final_cond::RegName;
use micro_ops::Micro;
use relax_edges::{ArchName, Edge};

/// The most operations that one access with its link can have.
pub const MAX_STEP_INSTRS: usize = 6;

/// The most operations that a thread can have: those of `MAX_STEPS` accesses.
pub const MAX_INSTRS: usize = MAX_STEPS * MAX_STEP_INSTRS;

/// The most bytes that an instruction's text can have.
pub const MAX_INSTRUCTION_TEXT: usize = 40;

/// The operations of a thread.
pub type Instrs = ArrayVec<Micro, MAX_INSTRS>;

/// An architecture: its edges, its registers, the code for one access, and the text of its
/// instructions.
pub trait Arch {
    ghost puts: { Puts };

    ghost writing: { Writing };

    ghost NAME: { TheName };

    ghost REGISTERS: { ℕ };

    /// The name of the architecture.
    const NAME: ArchName;

    /// How many registers it has for a thread of a test.
    const REGISTERS: u8;

    /// Whether the operation is that of an instruction of the architecture, on registers that tests
    /// use.
    fn has(op: &Micro) -> bool
        ensures { result ≡ puts.has op.now };

    /// How many registers a thread of this shape needs.
    fn need(shape: &Shape) -> u32
        ensures { result ≡ puts.need shape.now };

    /// Appends the code that comes before an access for its link. `from` is the register that a
    /// dependency is on; `label` is the number of the label that a branch goes to.
    fn put_link(link: Link, from: Option<u8>, label: u8, out: &mut Instrs)
        requires of_arch { link_is_of link puts.name ≡ true }
        requires given { depends_on_load link ≡ true → is_some from ≡ true }
        requires room { array_vec_len out.old + link_room link ≤ MAX_INSTRS }
        ensures { out.new.items ≡ out.old.items ++ puts.link link from label };

    /// Appends the code of a load with its mark from its location, and returns the register that it
    /// loads to.
    fn put_load(regs: &mut Regs, access: AskedAccess, out: &mut Instrs) -> u8
        requires of_arch { link_is_of access.link puts.name ≡ true }
        requires to_load { is_data access.link ≡ false }
        requires mark_fitting { mark_fits dirs.R access.mark ≡ true }
        requires mark_of_arch { mark_is_of access.mark puts.name ≡ true }
        requires given { depends_on_load access.link ≡ true → is_some access.source ≡ true }
        requires left { (puts.load regs.old access.link access.mark access.source access.place).regs.next ≤ regs.old.count }
        requires room { array_vec_len out.old + access_room access.link ≤ MAX_INSTRS }
        ensures register { result ≡ puts.filled regs.old access.link access.source access.place }
        ensures taken { regs.new ≡ (puts.load regs.old access.link access.mark access.source access.place).regs }
        ensures code { out.new.items ≡ out.old.items ++ (puts.load regs.old access.link access.mark access.source access.place).code };

    /// Appends the code of a store, with its mark, of the value to its location.
    fn put_store(regs: &mut Regs, access: AskedAccess, value: u8, out: &mut Instrs)
        requires of_arch { link_is_of access.link puts.name ≡ true }
        requires mark_fitting { mark_fits dirs.W access.mark ≡ true }
        requires mark_of_arch { mark_is_of access.mark puts.name ≡ true }
        requires given { depends_on_load access.link ≡ true → is_some access.source ≡ true }
        requires left { (puts.store regs.old access.link access.mark access.source access.place value).regs.next ≤ regs.old.count }
        requires room { array_vec_len out.old + access_room access.link ≤ MAX_INSTRS }
        ensures taken { regs.new ≡ (puts.store regs.old access.link access.mark access.source access.place value).regs }
        ensures code { out.new.items ≡ out.old.items ++ (puts.store regs.old access.link access.mark access.source access.place value).code };

    /// Makes `out` the text of an operation.
    fn print(op: &Micro, places: &Places, out: &mut ArrayString<MAX_INSTRUCTION_TEXT>)
        requires has { puts.has op.now ≡ true }
        requires place { place_below (length places.now) op.now ≡ true }
        requires label { label_below 64 op.now ≡ true }
        ensures { out.new.bytes ≡ op_text writing (name_in places.now) op.now };

    /// The instruction with this first word and these operands, before its name has a number. `None`
    /// if the architecture has no instruction of this form; the form of the name isn't checked.
    fn read_raw<'a>(word: &'a [u8], operands: Operands<'a>) -> Option<Raw<'a>>
        ensures { raw_seen result ≡ writing.raw (record { word = word.now; operands = operand_texts operands.entry }) };

    /// Makes `out` the name of a register, as conditions write it.
    fn register_name(r: u8, out: &mut RegName)
        requires { r < REGISTERS }
        ensures { out.new.bytes ≡ name_in writing.registers r };

    /// Whether the architecture has the edge.
    final fn supports(edge: Edge) -> bool
        ensures { result ≡ is_of_arch edge puts.name }
    {
        edge.of_arch(Self::NAME)
    }

    /// The register with this name, or `None` if no register that tests use has it.
    final fn register_of(name: &str) -> Option<u8>
        ensures { result ≡ number_in writing.registers name.now }
    {
        register_named::<Self>(name.as_bytes())
    }

    /// The instruction in the text of a cell. Blanks may come at both ends, after the first word and
    /// around commas. A location or label gets the number of its name in the table, to which a new
    /// name is added last. After an error both tables are as they were.
    final fn read_instr(
        text: &str,
        places: &mut Places,
        labels: &mut Places,
    ) -> Result<Micro, InstrError>
        ensures { ReadsPieces result places.old labels.old places.new labels.new (instr_read writing text.now places.old labels.old) }
    {
        read_cell::<Self>(text.as_bytes(), places, labels)
    }

    ghost same_name: { puts.name ≡ NAME };

    ghost same_registers: { puts.registers ≡ REGISTERS };

    ghost laws: { IsArch puts };

    ghost reads_back: { WritesBack puts writing };

    ghost writes_cells: { WritesCells puts writing };

    ghost makes_one_access: { MakesOneAccess puts };

    ghost reads_own: { ReadsOwn puts writing };
}
