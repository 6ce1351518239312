ghost use Rattle.std.specs.Prelude.{◌≡◌, ◌<◌, All, OnErr, IfSome, true, replicate};
ghost use Rattle.micro_ops.specs.Machine.{num, step, write_effect, loading, storing, branching, place_reached, address_mask};
ghost use Rattle.micro_ops.specs.{Running.{initial_state, is_load, starting}, Machines.{state_of, held_by_register, effect, InRange}};

use crate::held::Held;
use crate::operand::{add_immediate, equal, exclusive_or, or_immediate, place, sum};
use crate::operation::{Item, Micro};
use relax_edges::{Dir, Mark, Value};
use std::marker::Model;
use thiserror::Error;

/// The machine of one thread, between two operations.
///
/// Contracts see what it holds.
#[derive(Drop)]
pub struct Machine {
    registers: [Held; 32],
    flag: bool,
    flag_mask: u64,
    control: u64,
    loads: u8,
}

impl Model for Machine {
    ghost use Rattle.micro_ops.specs.Machines.{Contents};

    ghost Value = { Contents };

    ghost view = { λ m. record {
      registers = m.registers;
      flag = m.flag;
      flag_mask = m.flag_mask;
      control = m.control;
      loads = m.loads;
    } };
}

/// What a step leads to: the item that it makes and the label that it jumps to, if any.
#[derive(Clone, Copy)]
pub struct Stepped {
    pub item: Option<Item>,
    pub jump: Option<u8>,
}

/// No rule fits the operands, or a load has nothing to read.
#[derive(Clone, Copy, Debug, Error)]
#[error("no rule fits the operands, or a load has nothing to read")]
pub struct Stuck;

/// The number `n`, which depends on the loads that the mask names.
fn number(n: u32, mask: u64) -> Held
    ensures { result ≡ num n mask }
{
    let value = Value::Num(n);
    Held { value, mask }
}

/// Registers that hold the number 0 and depend on no load.
fn blank_registers() -> [Held; 32]
    ensures { result ≡ replicate 32 (num 0 0) }
{
    [number(0, 0); 32]
}

/// Gives each register that `init` names the value of its first entry.
fn name_registers(registers: &mut [Held], init: &[(u8, Value)])
    requires blank { registers.old ≡ replicate 32 (num 0 0) }
    requires in_range { All (λ named. named.0 < 32) init.now }
    ensures { held_by_register registers.new ≡ starting init.now }
{
    for k in (0..init.len()).rev() {
        let (register, value) = init[k];
        registers[usize::from(register)] = Held { value, mask: 0 };
    }
}

impl Stepped {
    fn new(item: Option<Item>, jump: Option<u8>) -> Stepped
        ensures { result ≡ record { item = item; jump = jump } }
    {
        Stepped { item, jump }
    }
}

impl Machine {
    /// The machine of a thread before its first operation: the registers that `init` names, all
    /// below 32, hold the values that it gives them (if it names one twice, the first), the others
    /// hold the number 0, and no mask names a load.
    pub fn new(init: &[(u8, Value)]) -> Machine
        requires { All (λ named. named.0 < 32) init.now }
        ensures { state_of result ≡ initial_state init.now }
    {
        let mut registers = blank_registers();
        name_registers(&mut registers, init);
        Machine {
            registers,
            flag: false,
            flag_mask: 0,
            control: 0,
            loads: 0,
        }
    }

    /// How many loads have been stepped so far.
    pub fn loads(&self) -> u8
        ensures { result ≡ (state_of self.now).loads }
    {
        self.loads
    }

    /// What a register below 32 holds.
    pub fn content_of(&self, register: u8) -> Held
        requires { register < 32 }
        ensures { result ≡ (state_of self.now).regs register }
    {
        self.registers[usize::from(register)]
    }

    /// Steps one operation by its rule; a load reads `read`. It is stuck exactly when no rule
    /// fits the operands, or a load has nothing to read, and then the machine is unchanged.
    /// Registers are below 32, and at most 64 loads can be stepped.
    pub fn step(&mut self, op: Micro, read: Option<u32>) -> Result<Stepped, Stuck>
        requires in_range { InRange op }
        requires room { is_load op ≡ true → (state_of self.old).loads < 64 }
        ensures gives { effect result (state_of self.new) ≡ step op (state_of self.old) read }
        ensures unchanged { OnErr result (self.new ≡ self.old) }
    {
        match op {
            Micro::Imm { dst, n } => self.write(dst, 0, Some(Value::Num(n))),
            Micro::Xor { dst, a, b } => self.exclusive_or(dst, a, b),
            Micro::AddImm { dst, a, n } => {
                let held = self.content_of(a);
                self.write(dst, held.mask, add_immediate(held.value, n))
            }
            Micro::OrImm { dst, a, n } => {
                let held = self.content_of(a);
                self.write(dst, held.mask, or_immediate(held.value, n))
            }
            Micro::Add { dst, a, b } => {
                let left = self.content_of(a);
                let right = self.content_of(b);
                self.write(dst, left.mask | right.mask, sum(left.value, right.value))
            }
            Micro::Load { dst, base, index } => {
                self.load(
                    Mark::Plain,
                    dst,
                    self.place(base, index),
                    self.address_mask(base, index),
                    read,
                )
            }
            Micro::LoadAt { dst, place } => self.load(Mark::Plain, dst, Some(place), 0, read),
            Micro::LoadAcq { dst, base } => {
                self.load(
                    Mark::Acquire,
                    dst,
                    self.place(base, None),
                    self.address_mask(base, None),
                    read,
                )
            }
            Micro::Store { src, base, index } => {
                self.store(
                    Mark::Plain,
                    self.place(base, index),
                    self.address_mask(base, index),
                    self.content_of(src),
                )
            }
            Micro::StoreAt { place, n } => self.store(Mark::Plain, Some(place), 0, number(n, 0)),
            Micro::StoreRel { src, base } => {
                self.store(
                    Mark::Release,
                    self.place(base, None),
                    self.address_mask(base, None),
                    self.content_of(src),
                )
            }
            Micro::Cmp { a, b } => self.compare(a, b),
            Micro::BranchEq { label } => Ok(self.branch(self.flag_mask, self.flag, label)),
            Micro::BranchNz { a, label } => {
                let held = self.content_of(a);
                let Value::Num(n) = held.value else {
                    return Err(Stuck);
                };
                Ok(self.branch(held.mask, n != 0, label))
            }
            Micro::Label { .. } => Ok(Stepped::new(None, None)),
            Micro::Barrier { kind } => {
                let ctrl_mask = self.control;
                Ok(Stepped::new(Some(Item::Barrier { kind, ctrl_mask }), None))
            }
        }
    }

    /// The location of an access, if its operands give one.
    fn place(&self, base: u8, index: Option<u8>) -> Option<u8>
        requires base { base < 32 }
        requires index { IfSome index (λ i. i < 32) }
        ensures { result ≡ place_reached (state_of self.now) base index }
    {
        match index {
            None => place(self.content_of(base).value, Value::Num(0)),
            Some(index) => place(self.content_of(base).value, self.content_of(index).value),
        }
    }

    /// The loads that the address of an access depends on.
    fn address_mask(&self, base: u8, index: Option<u8>) -> u64
        requires base { base < 32 }
        requires index { IfSome index (λ i. i < 32) }
        ensures { result ≡ address_mask (state_of self.now) base index }
    {
        match index {
            None => self.content_of(base).mask,
            Some(index) => self.content_of(base).mask | self.content_of(index).mask,
        }
    }

    fn write(&mut self, register: u8, mask: u64, value: Option<Value>) -> Result<Stepped, Stuck>
        requires { register < 32 }
        ensures gives { effect result (state_of self.new) ≡ write_effect (state_of self.old) register mask value }
        ensures unchanged { OnErr result (self.new ≡ self.old) }
    {
        let value = value.ok_or(Stuck)?;
        self.registers[usize::from(register)] = Held { value, mask };
        Ok(Stepped::new(None, None))
    }

    fn exclusive_or(&mut self, register: u8, a: u8, b: u8) -> Result<Stepped, Stuck>
        requires { InRange (Micro.Xor register a b) }
        ensures gives { effect result (state_of self.new) ≡ step (Micro.Xor register a b) (state_of self.old) None }
        ensures unchanged { OnErr result (self.new ≡ self.old) }
    {
        let left = self.content_of(a);
        if a == b {
            return self.write(register, left.mask, Some(Value::Num(0)));
        }
        let right = self.content_of(b);
        self.write(
            register,
            left.mask | right.mask,
            exclusive_or(left.value, right.value),
        )
    }

    #[tactic(auto, using(std::proofs::lemmas::Nat::one_shl))]
    fn load(
        &mut self,
        mark: Mark,
        register: u8,
        place: Option<u8>,
        mask: u64,
        read: Option<u32>,
    ) -> Result<Stepped, Stuck>
        requires register { register < 32 }
        requires room { (state_of self.old).loads < 64 }
        ensures gives { effect result (state_of self.new) ≡ loading mark (state_of self.old) register place mask read }
        ensures unchanged { OnErr result (self.new ≡ self.old) }
    {
        let (place, value) = place.zip(read).ok_or(Stuck)?;
        let item = Item::Access {
            dir: Dir::R,
            mark,
            place,
            value,
            addr_mask: mask,
            data_mask: 0,
            ctrl_mask: self.control,
        };
        self.registers[usize::from(register)] = number(value, 1 << self.loads);
        self.loads += 1;
        Ok(Stepped::new(Some(item), None))
    }

    fn store(
        &self,
        mark: Mark,
        place: Option<u8>,
        mask: u64,
        source: Held,
    ) -> Result<Stepped, Stuck>
        ensures { effect result (state_of self.now) ≡ storing mark (state_of self.now) place mask source.value source.mask }
    {
        let (Some(place), Value::Num(value)) = (place, source.value) else {
            return Err(Stuck);
        };
        let item = Item::Access {
            dir: Dir::W,
            mark,
            place,
            value,
            addr_mask: mask,
            data_mask: source.mask,
            ctrl_mask: self.control,
        };
        Ok(Stepped::new(Some(item), None))
    }

    fn compare(&mut self, a: u8, b: u8) -> Result<Stepped, Stuck>
        requires { InRange (Micro.Cmp a b) }
        ensures gives { effect result (state_of self.new) ≡ step (Micro.Cmp a b) (state_of self.old) None }
        ensures unchanged { OnErr result (self.new ≡ self.old) }
    {
        let left = self.content_of(a);
        let right = self.content_of(b);
        let same = if a == b {
            Some(true)
        } else {
            equal(left.value, right.value)
        };
        self.flag = same.ok_or(Stuck)?;
        self.flag_mask = left.mask | right.mask;
        Ok(Stepped::new(None, None))
    }

    fn branch(&mut self, mask: u64, taken: bool, label: u8) -> Stepped
        ensures { effect (Ok result) (state_of self.new) ≡ branching (state_of self.old) mask taken label }
    {
        self.control |= mask;
        Stepped::new(None, if taken { Some(label) } else { None })
    }
}
