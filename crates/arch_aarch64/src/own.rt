ghost use Rattle.arch_aarch64.specs.Puts.{instructions};

use crate::A64;
use arch_instructions::{OwnInstructions, add_number, indexed_load, indexed_store};
use arch_trait::Instrs;
use micro_ops::Micro;

/// `CBNZ`, accesses with an index register, and `ADD` of an immediate.
impl OwnInstructions for A64 {
    ghost own = { instructions };

    fn put_branch(source: u8, label: u8, out: &mut Instrs) {
        out.push(Micro::BranchNz { a: source, label });
    }

    fn put_dependent_load(dependency: u8, value: u8, address: u8, out: &mut Instrs) {
        out.push(indexed_load(dependency, value, address));
    }

    fn put_dependent_store(dependency: u8, value: u8, address: u8, out: &mut Instrs) {
        out.push(indexed_store(dependency, value, address));
    }

    fn join_number(dependency: u8, number: u8) -> Micro {
        add_number(dependency, number)
    }
}
