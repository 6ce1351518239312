use arch_power::Power;
use litmus_text::read_test;
use micro_ops::{Item, RunError, Trace, run_thread};
use relax_edges::{Dir, Mark, Value};
use std::alloc::Global;
use std::test::Fail;

/// Message passing on Power, as it is printed. Its reader is `P1`, in which `r1` is register 0.
const MESSAGE_PASSING: &str =
    "PPC MP+lwsync+addr\n\"LwSyncdWW Rfe DpAddrdR Fre\"\n{\n0:r2=x; 0:r4=y;\n1:r2=y; 1:r5=x;\n}\n P0           | P1            ;\n li r1,1      | lwz r1,0(r2)  ;\n stw r1,0(r2) | xor r3,r1,r1  ;\n lwsync       | lwzx r4,r3,r5 ;\n li r3,1      |               ;\n stw r3,0(r4) |               ;\nexists (1:r1=1 /\\ 1:r4=0)\n";

/// What the reader's registers hold if it reads 1 and 0, those that don't hold the number 0.
const REGISTERS: [(u8, Value); 3] = [
    (0, Value::Num(1)),
    (1, Value::Place(1)),
    (4, Value::Place(0)),
];

/// The reader's run on these numbers, as the text is read; none if the text isn't a test of two threads.
fn run_reader(alloc: Global, reads: &[u32]) -> Option<Result<Trace, RunError>> {
    let test = read_test::<Power>(alloc, MESSAGE_PASSING.as_bytes()).ok()?;
    if test.threads() != 2 {
        return None;
    }
    Some(run_thread(alloc, test.code(1), test.init(1), reads))
}

/// Whether an item is the plain read of this value at this place on whose address the reads of the mask bear, and nothing else.
fn is_read(item: &Item, place: u8, value: u32, addr_mask: u64) -> bool {
    match item {
        Item::Access {
            dir: Dir::R,
            mark: Mark::Plain,
            place: at,
            value: read,
            addr_mask: by,
            data_mask: 0,
            ctrl_mask: 0,
        } => { *at == place && *read == value && *by == addr_mask }
        _ => false,
    }
}

/// The value that a register is to hold.
fn value_in(register: u8) -> Value {
    for (named, value) in REGISTERS {
        if named == register {
            return value;
        }
    }
    Value::Num(0)
}

/// It reads y, and then x at an address that depends on the first read.
#[test]
fn the_reader_of_message_passing_runs(rt: HostRuntime) -> Result<(), Fail> {
    let run = run_reader(rt.alloc(), &[1, 0]).ok_or("the text is a test")?;
    let trace = run.ok().ok_or("two numbers are enough")?;
    match trace.items() {
        [first, second] => {
            assert!(rt; is_read(first, 1, 1, 0));
            assert!(rt; is_read(second, 0, 0, 1));
        }
        _ => return Err("it makes two accesses".into()),
    }
    for register in 0..32 {
        assert_eq!(rt; trace.register(register), value_in(register), "{register}");
    }
    Ok(())
}

/// With fewer numbers the run is stuck, and with more some are left.
#[test]
fn the_reader_of_message_passing_takes_two_reads(rt: HostRuntime) {
    let one = run_reader(rt.alloc(), &[1]);
    assert!(rt; matches!(one, Some(Err(RunError::Stuck { at: 2 }))));
    let three = run_reader(rt.alloc(), &[1, 0, 0]);
    assert!(rt; matches!(three, Some(Err(RunError::ReadsLeft))));
}
