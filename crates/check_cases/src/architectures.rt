ghost use Rattle.std.specs.{Prelude.{◌≡◌, ◌&&◌, ◌≤◌, false, length}, List.{All}};
ghost use Rattle.arch_trait.specs.{Threads.{FitSteps}, Writing.{place_below, label_below}};

mod aarch64;
mod arm;
mod power;
mod riscv;
mod x86;

use arch_aarch64::A64;
use arch_arm::Arm;
use arch_power::Power;
use arch_riscv::Riscv;
use arch_trait::{
    Arch, InstrError, Link, MAX_INSTRUCTION_TEXT, MAX_STEPS, Places, Step, compile_thread,
};
use arch_x86::X86;
use arrayvec::ArrayString;
use micro_ops::Micro;
use relax_edges::{Dir, Mark};
use std::process::Abort;

/// A thread and its code.
struct Thread {
    /// Its accesses.
    steps: &'static [Step],
    /// The texts of its instructions, with `; ` between.
    code: &'static str,
    /// Its address registers with their locations.
    links: &'static [(u8, u8)],
}

/// What is tried on an architecture.
struct Cases {
    /// Threads whose code was worked out by hand.
    threads: &'static [Thread],
    /// The accesses of a thread for which there are enough registers.
    enough: &'static [Step],
    /// The accesses of a thread that needs more registers than there are.
    too_many: &'static [Step],
    /// Texts that are read in turn, and the operations that they are. Before them x and y are named.
    spellings: &'static [(&'static str, Micro)],
    /// How many locations and labels have names after all texts, those of `faults` too.
    named: (u8, u8),
    /// Texts, with `|` between, that are no instruction. They add no names.
    faults: &'static [&'static str],
}

const READ_X: Step = Step {
    dir: Dir::R,
    mark: Mark::Plain,
    place: 0,
    value: 0,
    link: Link::Plain,
};

const WRITE_X: Step = Step {
    dir: Dir::W,
    mark: Mark::Plain,
    place: 0,
    value: 1,
    link: Link::Plain,
};

/// Threads, one per line: accesses, their code, and the locations in address registers.
macro_rules! threads {
    ($([$($step:expr),*] => $code:literal, $links:expr;)*) => {
        &[$(Thread { steps: &[$($step),*], code: $code, links: &$links }),*]
    };
}

/// Accesses that read the locations in turn.
macro_rules! reads_of {
    ($($place:literal)*) => {
        &[$(Step { place: $place, ..READ_X }),*]
    };
}

/// Pairs, one per line.
macro_rules! pairs {
    ($($first:expr => $second:expr;)*) => {
        &[$(($first, $second)),*]
    };
}

use pairs;
use reads_of;
use threads;

/// Whether an operation can be printed if two locations have names.
fn is_printable(op: &Micro) -> bool
    ensures { result ≡ (place_below 2 op.now && label_below 64 op.now) }
{
    match *op {
        Micro::LoadAt { place, .. } | Micro::StoreAt { place, .. } => place < 2,
        Micro::BranchEq { label } | Micro::BranchNz { label, .. } | Micro::Label { label } => {
            label < 64
        }
        _ => true,
    }
}

/// Asserts that the code of the thread has these texts, and these locations in its address registers.
fn compiles<A: Arch>(rt: &impl Abort, thread: &Thread)
    requires fit { FitSteps A.puts.name false thread.now.steps.now }
    requires few { length thread.now.steps.now ≤ MAX_STEPS }
{
    let code = compile_thread::<A>(thread.steps).expect(rt, "registers enough");
    let places = Places::letters(2);
    let mut texts = thread.code.split("; ");
    for op in code.instrs.as_slice() {
        let mut text: ArrayString<MAX_INSTRUCTION_TEXT> = ArrayString::new();
        assert!(rt; A::has(op) && is_printable(op));
        A::print(op, &places, &mut text);
        assert_eq!(rt; Some(text.as_str()), texts.next());
    }
    assert_eq!(rt; texts.next(), None);
    assert_eq!(rt; code.links.as_slice(), thread.links);
}

/// Asserts that each spelling is read as its operation, and that each text of `faults` is refused.
fn reads<A: Arch>(rt: &impl Abort, cases: &Cases) {
    let mut places = Places::letters(2);
    let mut labels = Places::new();
    for (text, op) in cases.spellings {
        let read = A::read_instr(text, &mut places, &mut labels);
        assert_eq!(rt; read, Ok(*op), "{text}");
    }
    for text in cases.faults.iter().flat_map(|texts| texts.split('|')) {
        let read = A::read_instr(text, &mut places, &mut labels);
        assert_eq!(rt; read, Err(InstrError::BadInstruction), "{text}");
    }
    assert_eq!(rt; (places.len(), labels.len()), cases.named);
}

/// Asserts all cases of the architecture.
fn meets<A: Arch>(rt: &impl Abort, cases: &Cases)
    requires fit { All (λ t. FitSteps A.puts.name false t.steps.now × (length t.steps.now ≤ MAX_STEPS)) cases.now.threads.now }
    requires enough { FitSteps A.puts.name false cases.now.enough.now × (length cases.now.enough.now ≤ MAX_STEPS) }
    requires too_many { FitSteps A.puts.name false cases.now.too_many.now × (length cases.now.too_many.now ≤ MAX_STEPS) }
{
    for thread in cases.threads {
        compiles::<A>(rt, thread);
    }
    assert!(rt; compile_thread::<A>(cases.enough).is_ok());
    assert!(rt; compile_thread::<A>(cases.too_many).is_err());
    reads::<A>(rt, cases);
}

#[test]
fn on_x86(rt: HostRuntime) {
    meets::<X86>(&rt, &x86::CASES);
}

#[test]
fn on_power(rt: HostRuntime) {
    meets::<Power>(&rt, &power::CASES);
}

#[test]
fn on_aarch64(rt: HostRuntime) {
    meets::<A64>(&rt, &aarch64::CASES);
}

#[test]
fn on_riscv(rt: HostRuntime) {
    meets::<Riscv>(&rt, &riscv::CASES);
}

#[test]
fn on_arm(rt: HostRuntime) {
    meets::<Arm>(&rt, &arm::CASES);
}
