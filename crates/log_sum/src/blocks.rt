ghost use Rattle.std.specs.Prelude.{◌≡◌, [], None};
ghost use Rattle.log_sum.specs.{SumViews.{tests_view}, Facts.{a_kind}, TextPlaces.{index_among}, BlockBefore.{FitsEntries}};
ghost use Rattle.log_sum.specs.Undoing.{UnlessNoMemory, entries_undone, tests_undone};
ghost use Rattle.log_sum.specs.Feeding.{FactPut, ForEntries, ForRunningTest};

use crate::errors::Fault;
use crate::first_seen::FirstSeen;
use crate::kinds::Kind;
use crate::table::Table;
use crate::test_sum::TestSum;
use crate::undo::{TestBefore, Undo};
use std::alloc::Global;

impl Table {
    /// A table without tests.
    pub(crate) fn new(alloc: Global) -> Table
        ensures tests { tests_view result ≡ [] }
        ensures undone { tests_undone result ≡ [] }
    {
        Table {
            tests: FirstSeen::new(alloc),
            running: 0,
            undo: Undo::new(alloc),
        }
    }

    /// Begins a block of the test with this name, which must have this kind.
    pub(crate) fn begin(&mut self, alloc: Global, name: &[u8], kind: Kind) -> Result<(), Fault>
        ensures put { ForEntries self.old (λ entries. FactPut entries name.now (a_kind kind) self.new result) }
        ensures undone { UnlessNoMemory result (tests_undone self.new ≡ tests_view self.old) }
    {
        match self.tests.index_of(name) {
            Some(i) => {
                self.run(i);
                self.put_kind(kind)
            }
            None => self.put_new(alloc, name, kind),
        }
    }

    /// Checks the kind of the running test.
    fn put_kind(&self, kind: Kind) -> Result<(), Fault>
        ensures { ForRunningTest self.now (λ entries name. FactPut entries name (a_kind kind) self.now result) }
    {
        if self.running >= self.tests.entries.len() {
            return Ok(());
        }
        self.tests.entries[self.running].1.put_kind(kind)?;
        Ok(())
    }

    /// Puts a test that no block had before last; its block is running then.
    fn put_new(&mut self, alloc: Global, name: &[u8], kind: Kind) -> Result<(), Fault>
        requires { index_among name.now self.old.tests.entries.items ≡ None }
        ensures put { ForEntries self.old (λ entries. FactPut entries name.now (a_kind kind) self.new result) }
        ensures undone { UnlessNoMemory result (tests_undone self.new ≡ tests_view self.old) }
    {
        let test = TestSum::new(alloc, kind);
        let last = self.tests.index_or_put(alloc, name, test)?;
        self.running = last;
        self.undo.begin(None);
        Ok(())
    }

    /// Begins a block of the test at an index, if there is one.
    fn run(&mut self, i: usize)
        ensures undone { tests_undone self.new ≡ tests_view self.old }
        ensures tests { self.new.tests ≡ self.old.tests }
        ensures running { self.new.running ≡ i }
    {
        let before = self.before(i);
        self.running = i;
        self.undo.begin(before);
    }

    /// What the test at an index is before a block.
    fn before(&self, i: usize) -> Option<TestBefore>
        ensures fits { FitsEntries result self.now.tests.entries.items i }
        ensures undone { entries_undone result [] self.now.tests.entries.items i ≡ tests_view self.now }
    {
        if i >= self.tests.entries.len() {
            return None;
        }
        Some(self.tests.entries[i].1.before())
    }

    /// Ends the running block, which stays.
    pub(crate) fn end_block(&mut self)
        ensures undone { tests_undone self.new ≡ tests_view self.old }
        ensures tests { tests_view self.new ≡ tests_view self.old }
        ensures running { self.new.running ≡ self.old.running }
    {
        self.run(self.running);
    }

    /// Takes the running block out.
    pub(crate) fn undo_block(&mut self)
        ensures tests { tests_view self.new ≡ tests_undone self.old }
        ensures undone { tests_undone self.new ≡ tests_undone self.old }
    {
        self.take_block_out();
        self.run(self.running);
    }

    /// Takes the running block out, of which nothing is noted then.
    fn take_block_out(&mut self)
        ensures { tests_view self.new ≡ tests_undone self.old }
    {
        match self.undo.before.take() {
            Some(before) => {
                if self.running < self.tests.entries.len() {
                    self.tests.entries[self.running]
                        .1
                        .undo(before, &mut self.undo.counts);
                }
            }
            None => self.tests.forget_from(self.running),
        }
    }
}
