ghost use Rattle.std.specs.Prelude.{◌≡◌, ◌≤◌, ◌+◌, ◌++◌};
ghost use Rattle.arrayvec.specs.ArrayVec.{array_vec_len};
ghost use Rattle.arch_trait.specs.Addressed.{Instructions};

use arch_trait::{Instrs, MAX_INSTRS};
use micro_ops::Micro;

/// The own instructions of an architecture whose accesses name a register that holds the address.
/// The rest of the code of a thread is the same for all these architectures.
pub trait OwnInstructions {
    ghost own: { Instructions };

    /// Appends a branch to `label` that depends on register `source`: at most two operations.
    fn put_branch(source: u8, label: u8, out: &mut Instrs)
        requires { array_vec_len out.old + 2 ≤ MAX_INSTRS }
        ensures code { out.new.items ≡ out.old.items ++ own.branch source label }
        ensures few { array_vec_len out.new ≤ array_vec_len out.old + 2 };

    /// Appends a load into register `value` from the address in register `address`, so that the address
    /// depends on register `dependency`, which holds 0.
    fn put_dependent_load(dependency: u8, value: u8, address: u8, out: &mut Instrs)
        requires { array_vec_len out.old + 2 ≤ MAX_INSTRS }
        ensures { out.new.items ≡ out.old.items ++ own.load dependency value address };

    /// Appends a store of register `value` to the address in register `address`, so that the address
    /// depends on register `dependency`, which holds 0.
    fn put_dependent_store(dependency: u8, value: u8, address: u8, out: &mut Instrs)
        requires { array_vec_len out.old + 2 ≤ MAX_INSTRS }
        ensures { out.new.items ≡ out.old.items ++ own.store dependency value address };

    /// The operation that makes register `dependency`, which holds 0, hold `number`, so that the number
    /// depends on what the 0 depends on.
    fn join_number(dependency: u8, number: u8) -> Micro
        ensures { result ≡ own.joins dependency number };
}
