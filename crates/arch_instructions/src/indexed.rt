ghost use Rattle.std.specs.Prelude.{◌≡◌, Some};
ghost use Rattle.micro_ops.specs.declared.operation.Micro.TheVariants as ops;

use micro_ops::Micro;

/// A load into register `value` from the sum of registers `address` and `dependency`.
pub fn indexed_load(dependency: u8, value: u8, address: u8) -> Micro
    ensures { result ≡ ops.Load value address (Some dependency) }
{
    Micro::Load {
        dst: value,
        base: address,
        index: Some(dependency),
    }
}

/// A store of register `value` to the sum of registers `address` and `dependency`.
pub fn indexed_store(dependency: u8, value: u8, address: u8) -> Micro
    ensures { result ≡ ops.Store value address (Some dependency) }
{
    Micro::Store {
        src: value,
        base: address,
        index: Some(dependency),
    }
}

/// An operation that adds a number to what register `dependency` holds.
pub fn add_number(dependency: u8, number: u8) -> Micro
    ensures { result ≡ ops.AddImm dependency dependency number }
{
    Micro::AddImm {
        dst: dependency,
        a: dependency,
        n: u32::from(number),
    }
}
