ghost use Rattle.std.specs.Prelude.{◌≡◌, ◌<◌, ◌≤◌, ◌+◌, ◌++◌, [], ◌↔◌, true, false, cond, length, is_some, IfOk, OnOk, OnErr, IsErr};
ghost use Rattle.arrayvec.specs.ArrayVec.{array_vec_len};
ghost use Rattle.relax_edges.specs.EdgeTable.{mark_fits, mark_is_of};
ghost use Rattle.arch_trait.specs.{Links.{depends_on_load, branches, is_data, link_is_of}, Laws.{access_room}};
ghost use Rattle.arch_trait.specs.Threads.{FitStep, FitSteps, compiled, shape_of, setting_out, from_of, put_of, filled_by, way_seen, further, step_code, next_filled, put_before, thread_code, thread_regs, thread_loads};
ghost use Rattle.arch_trait.specs.Codes.{thread_code_of, MakesSteps, IsFormedCode};

use crate::access::AskedAccess;
use crate::arch::{Arch, Instrs, MAX_INSTRS, MAX_STEP_INSTRS};
use crate::link::Link;
use crate::regs::{Links, Regs};
use crate::shape::shape_of;
use crate::step::{MAX_STEPS, Step};
use crate::way::Way;
use arrayvec::ArrayVec;
use relax_edges::Dir;

/// The code of a thread.
#[derive(Default, Drop)]
pub struct Code {
    /// Its operations.
    pub instrs: Instrs,
    /// Its address registers with their locations, in the order of taking.
    pub links: Links,
    /// The register of each load, in order.
    pub loads: ArrayVec<u8, MAX_STEPS>,
}

/// A thread needs more registers than the architecture has.
#[derive(Clone, Copy, Debug, thiserror::Error)]
#[error("a thread needs more registers than the architecture has")]
pub struct TooManyRegisters;

/// The code of a thread that makes these accesses in order. There are at most `MAX_STEPS`; each link
/// is one of the architecture's, a dependency follows a load, a data dependency leads to a store, and
/// each mark is one of the architecture's and fits what its access does. It fails exactly when the
/// thread needs more registers than the architecture has.
///
/// Whatever numbers its loads read, the code makes these accesses, each with its mark and with the
/// barriers and the dependencies of its link and no others, and leaves the numbers in the registers
/// of the loads.
pub fn compile_thread<A: Arch>(steps: &[Step]) -> Result<Code, TooManyRegisters>
    requires fit { FitSteps A.puts.name false steps.now }
    requires few { length steps.now ≤ MAX_STEPS }
    ensures ok { IfOk result (λ code. thread_code_of code ≡ compiled A.puts steps.now) }
    ensures makes { IfOk result (λ code. MakesSteps steps.now (thread_code_of code)) }
    ensures formed { IfOk result (λ code. IsFormedCode A.puts steps.now (thread_code_of code)) }
    ensures refused { IsErr result ↔ (A.puts.registers < A.puts.need (shape_of steps.now)) }
{
    let mut code = Code::default();
    compile_into::<A>(steps, &mut code)?;
    Ok(code)
}

/// Makes `code` the code of the thread, as `compile_thread` does. After an error, `code` is as it
/// was.
pub fn compile_into<A: Arch>(steps: &[Step], code: &mut Code) -> Result<(), TooManyRegisters>
    requires fit { FitSteps A.puts.name false steps.now }
    requires few { length steps.now ≤ MAX_STEPS }
    ensures ok { OnOk result (thread_code_of code.new ≡ compiled A.puts steps.now) }
    ensures makes { OnOk result (MakesSteps steps.now (thread_code_of code.new)) }
    ensures formed { OnOk result (IsFormedCode A.puts steps.now (thread_code_of code.new)) }
    ensures refused { IsErr result ↔ (A.puts.registers < A.puts.need (shape_of steps.now)) }
    ensures err { OnErr result (code.new ≡ code.old) }
{
    if A::need(&shape_of(steps)) > u32::from(A::REGISTERS) {
        return Err(TooManyRegisters);
    }
    let mut way = Way {
        regs: Regs::new(A::REGISTERS),
        last: None,
        label: 0,
    };
    put_steps::<A>(steps, &mut way, code);
    code.links = way.regs.into_links();
    Ok(())
}

fn put_steps<A: Arch>(steps: &[Step], way: &mut Way, code: &mut Code)
    requires fit { FitSteps A.puts.name false steps.now }
    requires few { length steps.now ≤ MAX_STEPS }
    requires left { A.puts.need (shape_of steps.now) ≤ A.puts.registers }
    requires begins { way_seen way.old ≡ setting_out A.puts.registers }
    ensures regs { way.new.regs ≡ thread_regs A.puts (setting_out A.puts.registers) steps.now }
    ensures instrs { code.new.instrs.items ≡ thread_code A.puts (setting_out A.puts.registers) steps.now }
    ensures loads { code.new.loads.items ≡ thread_loads A.puts (setting_out A.puts.registers) steps.now }
{
    code.instrs.clear();
    code.loads.clear();
    for step in steps {
        put_step::<A>(*step, way, code);
    }
}

fn put_step<A: Arch>(step: Step, way: &mut Way, code: &mut Code)
    requires fit { FitStep A.puts.name (is_some way.old.last) step }
    requires left { (further A.puts (way_seen way.old) step).regs.next ≤ way.old.regs.count }
    requires room { array_vec_len code.old.instrs + MAX_STEP_INSTRS ≤ MAX_INSTRS }
    requires loads_room { array_vec_len code.old.loads < MAX_STEPS }
    requires label_room { way.old.label < 255 }
    ensures way { way_seen way.new ≡ further A.puts (way_seen way.old) step }
    ensures instrs { code.new.instrs.items ≡ code.old.instrs.items ++ step_code A.puts (way_seen way.old) step }
    ensures loads { code.new.loads.items ≡ code.old.loads.items ++ put_before (next_filled A.puts (way_seen way.old) step) [] }
{
    let from = source(step.link, way.last);
    A::put_link(step.link, from, way.label, &mut code.instrs);
    way.last = put_access::<A>(step, from, &mut way.regs, &mut code.instrs);
    if let Some(register) = way.last {
        code.loads.push(register);
    }
    way.label = next_label(step.link, way.label);
}

fn source(link: Link, last: Option<u8>) -> Option<u8>
    ensures { result ≡ from_of link last }
{
    if link.is_dependency() { last } else { None }
}

fn next_label(link: Link, label: u8) -> u8
    requires { label < 255 }
    ensures { result ≡ label + cond (branches link) 1 0 }
{
    if link.branches() { label + 1 } else { label }
}

fn put_access<A: Arch>(
    step: Step,
    from: Option<u8>,
    regs: &mut Regs,
    out: &mut Instrs,
) -> Option<u8>
    requires of_arch { link_is_of step.link A.puts.name ≡ true }
    requires to_store { is_data step.link ≡ true → step.dir ≡ Dir.W }
    requires mark_fitting { mark_fits step.dir step.mark ≡ true }
    requires mark_of_arch { mark_is_of step.mark A.puts.name ≡ true }
    requires given { depends_on_load step.link ≡ true → is_some from ≡ true }
    requires left { (put_of A.puts regs.old from step step.dir).regs.next ≤ regs.old.count }
    requires room { array_vec_len out.old + access_room step.link ≤ MAX_INSTRS }
    ensures filled { result ≡ filled_by A.puts regs.old from step step.dir }
    ensures taken { regs.new ≡ (put_of A.puts regs.old from step step.dir).regs }
    ensures code { out.new.items ≡ out.old.items ++ (put_of A.puts regs.old from step step.dir).code }
{
    let Step {
        dir,
        mark,
        place,
        value,
        link,
    } = step;
    let access = AskedAccess {
        link,
        mark,
        source: from,
        place,
    };
    match dir {
        Dir::R => Some(A::put_load(regs, access, out)),
        Dir::W => {
            A::put_store(regs, access, value, out);
            None
        }
    }
}
