ghost use Rattle.std.specs.Prelude.{◌≡◌, ◌≤◌, Some};
ghost use Rattle.arrayvec.specs.ArrayVec.{array_vec_len};
ghost use Rattle.arch_trait.specs.Writing.{name_in};
ghost use Rattle.test_maker.specs.Made.{AreOfArch};
ghost use Rattle.co_tests.specs.CutResolution.{cut_of};
ghost use Rattle.co_tests.specs.{Shape.{HasShape}, Threads.{PutsThreads}};

use crate::refusal::CoRefusal;
use crate::steps::step_of;
use arch_trait::{Arch, Step, ThreadCodes, TooManyRegisters};
use arrayvec::ArrayVec;
use final_cond::Cond;
use relax_edges::{Edge, MAX_EDGES};
use test_maker::put_thread;

/// Makes `threads` the code of the threads of a cycle at one location that is cut at an edge, and
/// appends what their loads read to the condition. What `threads` held before is dropped. If a thread
/// needs too many registers, it returns `TooManyRegisters` with the first.
pub fn put_threads<A: Arch>(
    edges: &[Edge],
    cut: usize,
    threads: &mut ThreadCodes,
    cond: &mut Cond,
) -> Result<(), CoRefusal>
    requires shape { HasShape edges.now }
    requires of_arch { AreOfArch A.puts edges.now }
    requires cut { cut_of edges.now ≡ Some cut }
    requires room { array_vec_len cond.old.terms ≤ 1 }
    ensures { PutsThreads A.puts (name_in A.writing.registers) edges.now threads.new cond.old cond.new result }
{
    let mut steps: ArrayVec<Step, MAX_EDGES> = ArrayVec::new();
    let mut thread = 0;
    threads.clear();
    for (i, edge) in edges.iter().enumerate() {
        steps.push(step_of(edges, cut, i));
        if edge.is_external() {
            match put_thread::<A>(thread, steps.as_slice(), threads, cond) {
                Ok(()) => {}
                Err(TooManyRegisters) => return Err(CoRefusal::TooManyRegisters { thread }),
            }
            thread += 1;
            steps.clear();
        }
    }
    Ok(())
}
