ghost use Rattle.std.specs.Prelude.{◌≡◌, ◌<◌, ◌≤◌, ◌^◌, ◌++◌, [], ◌∷◌, length, All, Option, Some, None, OnOk, OnErr, IfOk, IfErr, IsErrOf, count_by, true, false};
ghost use Rattle.micro_ops.specs.{Machine.{step}, Machines.{state_of, InRange}};
ghost use Rattle.micro_ops.specs.Running.{At, beginning, go, led, is_load, is_label, is_past, lands, runs, outcome, Ended, ReadsLeft};
ghost use Rattle.micro_ops.specs.{RunThreads.{value_in_run, goes_on, CausedBy}, Runners.{point_of, error_of}};

use crate::machine::Machine;
use crate::operation::{Item, Micro};
use relax_edges::Value;
use std::alloc::Global;
use std::marker::Model;
use thiserror::Error;

/// What a thread did in a run that ended: its items, in order, and what its registers hold.
///
/// Contracts see both.
#[derive(Drop)]
pub struct Trace {
    items: Vec<Item>,
    machine: Machine,
}

impl Model for Trace {
    ghost use Rattle.micro_ops.specs.RunThreads.{EndedRun};

    ghost Value = { EndedRun };

    ghost view = { λ t. record { items = t.items.items; registers = t.machine.registers } };
}

impl Trace {
    /// The accesses and barriers, in order.
    pub fn items(&self) -> &[Item]
        ensures { result.now ≡ self.now.items }
    {
        &self.items
    }

    /// The value of a register below 32 at the end.
    pub fn register(&self, register: u8) -> Value
        requires { register < 32 }
        ensures { result ≡ value_in_run self.now register }
    {
        self.machine.content_of(register).value
    }
}

/// Why a run has no trace.
#[derive(Clone, Copy, Debug, Error)]
pub enum RunError {
    /// The operation with this number, from 0, is stuck: no rule fits its operands, or it is a
    /// load and no read is left.
    #[error("operation {at} is stuck")]
    Stuck { at: u32 },
    /// The code ended before all reads were used.
    #[error("the code ended before all reads were used")]
    ReadsLeft,
    /// Memory ran out.
    #[error("out of memory")]
    NoMemory,
}

/// Why a runner can't go on.
#[derive(Clone, Copy)]
enum Halt {
    Stuck,
    NoMemory,
}

/// Runs the code of a thread from its initial registers on the numbers that its loads read.
///
/// It is stuck at an operation if no rule fits its operands, or it is a load and no read is left;
/// reads are left if the code ends before all are used. Instead of any result it may return
/// `NoMemory`. Registers are below 32; if `init` names one twice, the first entry counts. Each
/// branch's label comes later in the code, which has at most 64 loads and fewer than 2^32 operations.
pub fn run_thread(
    alloc: Global,
    code: &[Micro],
    init: &[(u8, Value)],
    reads: &[u32],
) -> Result<Trace, RunError>
    requires in_range { All InRange code.now }
    requires registers { All (λ named. named.0 < 32) init.now }
    requires lands { lands code.now ≡ true }
    requires few_loads { count_by is_load code.now ≤ 64 }
    requires short { length code.now < 2 ^ 32 }
    ensures ended { IfOk result (λ trace. runs code.now init.now reads.now ≡ Ended trace.items (value_in_run trace)) }
    ensures refused { IfErr result (λ error. CausedBy error code.now init.now reads.now) }
{
    let mut runner = Runner::new(alloc, init, reads);
    for (index, op) in code.iter().enumerate() {
        if let Err(halt) = runner.go(*op) {
            return Err(halt.stops_at(index as u32));
        }
    }
    runner.end()
}

/// A run, as far as it has come. On the way to a label it skips operations.
#[derive(Drop)]
struct Runner<'a> {
    machine: Machine,
    items: Vec<Item>,
    past: Option<u8>,
    reads: &'a [u32],
}

impl<'a> Model for Runner<'a> {
    ghost use Rattle.micro_ops.specs.Runners.{RunProgress};

    ghost Value = { RunProgress };

    ghost view = { λ r. record {
      machine = r.machine;
      made = r.items.items;
      past = r.past;
      reads = r.reads.now;
    } };
}

impl Micro {
    fn is_load(self) -> bool
        ensures { result ≡ is_load self }
    {
        matches!(
            self,
            Micro::Load { .. } | Micro::LoadAt { .. } | Micro::LoadAcq { .. }
        )
    }

    fn is_label(self, label: u8) -> bool
        ensures { result ≡ is_label label self }
    {
        match self {
            Micro::Label { label: own } => own == label,
            _ => false,
        }
    }
}

impl Halt {
    fn stops_at(self, at: u32) -> RunError
        ensures { result ≡ error_of self at }
    {
        match self {
            Halt::Stuck => RunError::Stuck { at },
            Halt::NoMemory => RunError::NoMemory,
        }
    }
}

impl<'a> Runner<'a> {
    fn new(alloc: Global, init: &[(u8, Value)], reads: &'a [u32]) -> Runner<'a>
        requires { All (λ named. named.0 < 32) init.now }
        ensures { point_of result ≡ At (beginning init.now reads.now) }
    {
        Runner {
            machine: Machine::new(init),
            items: Vec::new(alloc),
            past: None,
            reads,
        }
    }

    /// The trace of a run whose code is over and that isn't on the way to a label.
    fn end(self) -> Result<Trace, RunError>
        requires { is_past (point_of self) ≡ false }
        ensures ended { IfOk result (λ trace. outcome (point_of self.entry) ≡ Ended trace.items (value_in_run trace)) }
        ensures left { IfErr result (λ error. (error ≡ RunError.ReadsLeft) × (outcome (point_of self.entry) ≡ ReadsLeft)) }
    {
        if self.reads.is_empty() {
            Ok(Trace {
                items: self.items,
                machine: self.machine,
            })
        } else {
            Err(RunError::ReadsLeft)
        }
    }

    fn step(&mut self, op: Micro, read: Option<u32>) -> Result<(), Halt>
        requires in_range { InRange op }
        requires room { is_load op ≡ true → (state_of self.old.machine).loads < 64 }
        ensures led { OnOk result (point_of self.new ≡ led (step op (state_of self.old.machine) read) self.old.reads self.old.made) }
        ensures stuck { IsErrOf result Halt.Stuck → step op (state_of self.old.machine) read ≡ None }
    {
        let Ok(stepped) = self.machine.step(op, read) else {
            return Err(Halt::Stuck);
        };
        if let Some(item) = stepped.item {
            self.items.push(item).map_err(|_| Halt::NoMemory)?;
        }
        self.past = stepped.jump;
        Ok(())
    }

    /// Steps a load, which reads the next number; it is stuck if none is left.
    fn load(&mut self, op: Micro) -> Result<(), Halt>
        requires in_range { InRange op }
        requires room { (state_of self.old.machine).loads < 64 }
        requires load { is_load op ≡ true }
        requires here { self.old.past ≡ None }
        ensures went { OnOk result (point_of self.new ≡ go op (point_of self.old)) }
        ensures stuck { IsErrOf result Halt.Stuck → goes_on (go op (point_of self.old)) ≡ false }
    {
        let [read, rest @ ..] = self.reads else {
            return Err(Halt::Stuck);
        };
        self.reads = rest;
        self.step(op, Some(*read))
    }

    fn go(&mut self, op: Micro) -> Result<(), Halt>
        requires in_range { InRange op }
        requires room { is_load op ≡ true → (state_of self.old.machine).loads < 64 }
        ensures went { OnOk result (point_of self.new ≡ go op (point_of self.old)) }
        ensures stuck { IsErrOf result Halt.Stuck → goes_on (go op (point_of self.old)) ≡ false }
    {
        if let Some(label) = self.past {
            if op.is_label(label) {
                self.past = None;
            }
            return Ok(());
        }
        if op.is_load() {
            self.load(op)
        } else {
            self.step(op, None)
        }
    }
}
