ghost use Rattle.std.specs.Prelude.{◌≡◌, ◌<◌, ◌++◌, IfOk, OnOk, All};
ghost use Rattle.final_cond.specs.Conditions.{cond_view, left_view, term_view};
ghost use Rattle.arch_trait.specs.PlaceNames.{number_in};
ghost use Rattle.state_verdicts.specs.StateParts.{register_named, known_registers, with_register};

use arch_trait::Arch;
use final_cond::{Cond, Left};
use std::alloc::{AllocError, Global};

/// The register of a thread that a left side names, if it is a register of that thread that tests use.
fn register_named<A: Arch>(thread: u8, left: &Left) -> Option<u8>
    ensures { result ≡ register_named (number_in A.writing.registers) thread (left_view left.now) }
{
    match left {
        Left::Register {
            thread: other,
            name,
        } => {
            if *other == thread {
                A::register_of(name.as_str())
            } else {
                None
            }
        }
        Left::Place { .. } => None,
    }
}

/// The registers of a thread whose values a state gives, in its order.
pub(crate) fn known_registers<A: Arch>(
    alloc: Global,
    thread: u8,
    state: &Cond,
) -> Result<Vec<(u8, u32)>, AllocError>
    ensures { IfOk result (λ known. known.items ≡ known_registers (number_in A.writing.registers) thread (cond_view state.now).terms) }
{
    let mut known = Vec::new(alloc);
    for term in state.terms.as_slice() {
        if let Some(register) = register_named::<A>(thread, &term.left) {
            known.push((register, term.value))?;
        }
    }
    Ok(known)
}
