ghost use Rattle.std.specs.Prelude.{◌≡◌, ◌++◌, ◌∷◌, [], None, cond, IfOk, is_ok};

use diy_io::NoMemory;
use std::alloc::Global;

/// What a test was before its running block: which facts it had, and how many states.
#[derive(Clone, Copy)]
pub(crate) struct TestBefore {
    pub(crate) had_condition: bool,
    pub(crate) had_hash: bool,
    pub(crate) once_validated: bool,
    pub(crate) always_validated: bool,
    pub(crate) starred: u64,
    pub(crate) plain: u64,
    pub(crate) states: usize,
}

/// What takes the running block out of a table.
#[derive(Drop)]
pub(crate) struct Undo {
    /// What the running test was before the block, if it was there.
    pub(crate) before: Option<TestBefore>,
    /// The states to whose counts the block added, by their indices, each with its count before that; the oldest first.
    pub(crate) counts: Vec<(usize, u64)>,
}

impl Undo {
    /// The running test wasn't there before the block, and nothing is noted.
    pub(crate) fn new(alloc: Global) -> Undo
        ensures before { result.before ≡ None }
        ensures counts { result.counts.items ≡ [] }
    {
        Undo {
            before: None,
            counts: Vec::new(alloc),
        }
    }

    /// Begins a block of which this was before.
    pub(crate) fn begin(&mut self, before: Option<TestBefore>)
        ensures before { self.new.before ≡ before }
        ensures counts { self.new.counts.items ≡ [] }
    {
        self.before = before;
        self.counts.clear();
    }

    /// Notes the count that the state at an index has before the block adds to it.
    pub(crate) fn note(&mut self, i: usize, count: u64) -> Result<(), NoMemory>
        ensures counts { self.new.counts.items ≡ cond (is_ok result) (self.old.counts.items ++ (i, count) ∷ []) self.old.counts.items }
        ensures before { self.new.before ≡ self.old.before }
    {
        self.counts.push((i, count))?;
        Ok(())
    }
}
