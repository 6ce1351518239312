ghost use Rattle.std.specs.Prelude.{◌≡◌};
ghost use Rattle.micro_ops.specs.declared.operation.Micro.TheVariants as ops;
ghost use Rattle.arch_riscv.specs.Puts.{instructions};

use crate::Riscv;
use arch_instructions::OwnInstructions;
use arch_trait::Instrs;
use micro_ops::Micro;

/// `bne`, an address that is added to the dependency before the access, and `ori` of an immediate.
impl OwnInstructions for Riscv {
    ghost own = { instructions };

    fn put_branch(source: u8, label: u8, out: &mut Instrs) {
        out.push(Micro::BranchNz { a: source, label });
    }

    fn put_dependent_load(dependency: u8, value: u8, address: u8, out: &mut Instrs) {
        out.push(add_address(dependency, address));
        out.push(Micro::Load {
            dst: value,
            base: dependency,
            index: None,
        });
    }

    fn put_dependent_store(dependency: u8, value: u8, address: u8, out: &mut Instrs) {
        out.push(add_address(dependency, address));
        out.push(Micro::Store {
            src: value,
            base: dependency,
            index: None,
        });
    }

    fn join_number(dependency: u8, number: u8) -> Micro {
        Micro::OrImm {
            dst: dependency,
            a: dependency,
            n: u32::from(number),
        }
    }
}

/// The operation that adds an address to the number 0 in `dependency`.
fn add_address(dependency: u8, address: u8) -> Micro
    ensures { result ≡ ops.Add dependency dependency address }
{
    Micro::Add {
        dst: dependency,
        a: dependency,
        b: address,
    }
}
