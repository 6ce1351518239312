ghost use Rattle.std.specs.Prelude.{◌≡◌, ◌<◌, ◌≤◌, ◌++◌, ◌∷◌, [], ◌↔◌, false, List, length, map, take, IsErr, OnOk, OnErr};
ghost use Rattle.arrayvec.specs.ArrayVec.{array_vec_len};
ghost use Rattle.arch_trait.specs.{Codes.{thread_code_of, IsFormedCode}, Threads.{FitSteps, ThreadCode, compiled, shape_of}};

use crate::arch::Arch;
use crate::code::{Code, TooManyRegisters, compile_into};
use crate::step::{MAX_STEPS, Step};
use arrayvec::ArrayVec;
use relax_edges::MAX_EDGES;
use std::marker::Model;

/// The code of the threads of a test. It keeps what was made for further threads of earlier tests:
/// the code of the next thread overwrites that, so that no space is cleared for it again.
#[derive(Drop)]
pub struct ThreadCodes {
    codes: ArrayVec<Code, MAX_EDGES>,
    count: usize,
}

impl Model for ThreadCodes {
    ghost use Rattle.std.specs.Prelude.{◌≤◌, length, take};
    ghost use Rattle.arrayvec.specs.ArrayVec.{ArrayVec as Items};
    ghost use Rattle.arch_trait.specs.declared.code.Code.{Code as OneCode};

    ghost Value = { Items OneCode };

    ghost view = { λ t. record { items = take t.count t.codes.items } };

    ghost invariant = { λ t. t.count ≤ length t.codes.items };
}

impl ThreadCodes {
    /// The code of no thread.
    pub fn new() -> ThreadCodes
        ensures { result.items ≡ [] }
    {
        ThreadCodes {
            codes: ArrayVec::new(),
            count: 0,
        }
    }

    /// Removes all threads.
    pub fn clear(&mut self)
        ensures { self.new.items ≡ [] }
    {
        self.count = 0;
    }

    /// The code of each thread.
    pub fn as_slice(&self) -> &[Code]
        ensures value { result.now ≡ self.now.items }
        ensures fits { length result.now ≤ MAX_EDGES }
    {
        &self.codes.as_slice()[..self.count]
    }

    /// The registers of the loads of the last thread, in order.
    pub fn last_loads(&self) -> &[u8]
        requires { 0 < length self.now.items }
        ensures { (before : List ThreadCode) (last : ThreadCode) → map thread_code_of self.now.items ≡ before ++ last ∷ [] → result.now ≡ last.loads }
    {
        self.codes.as_slice()[self.count - 1].loads.as_slice()
    }

    /// Adds the code of one more thread, as `compile_into` makes it. After an error the threads are
    /// as they were.
    pub fn compile_next<A: Arch>(&mut self, steps: &[Step]) -> Result<(), TooManyRegisters>
        requires fit { FitSteps A.puts.name false steps.now }
        requires few { length steps.now ≤ MAX_STEPS }
        requires room { length self.old.items < MAX_EDGES }
        ensures ok { OnOk result (map thread_code_of self.new.items ≡ map thread_code_of self.old.items ++ compiled A.puts steps.now ∷ []) }
        ensures formed { OnOk result (IsFormedCode A.puts steps.now (compiled A.puts steps.now)) }
        ensures refused { IsErr result ↔ (A.puts.registers < A.puts.need (shape_of steps.now)) }
        ensures err { OnErr result (self.new.items ≡ self.old.items) }
    {
        have_place(self.count, &mut self.codes);
        match compile_into::<A>(steps, &mut self.codes[self.count]) {
            Ok(()) => {
                self.count += 1;
                Ok(())
            }
            Err(refusal) => Err(refusal),
        }
    }
}

/// Appends an empty thread if there is none at this index.
fn have_place(place: usize, codes: &mut ArrayVec<Code, MAX_EDGES>)
    requires next { place ≤ array_vec_len codes.old }
    requires room { place < MAX_EDGES }
    ensures within { place < array_vec_len codes.new }
    ensures before { take place codes.new.items ≡ take place codes.old.items }
{
    if codes.len() == place {
        codes.push(Code::default());
    }
}
