ghost use Rattle.log_sum.specs.{SumViews.{row_code_said}, Facts.{a_condition, a_hash}};
ghost use Rattle.log_sum.specs.Undoing.{TableUndoneStays};
ghost use Rattle.log_sum.specs.Feeding.{FactPut, RowPut, ForRunningTest};

use crate::errors::Fault;
use crate::kinds::Verdict;
use crate::lines::Row;
use crate::states::StateReader;
use crate::table::Table;
use std::alloc::Global;

impl Table {
    /// Adds a row to the running test.
    pub(crate) fn put_row(
        &mut self,
        alloc: Global,
        reader: &mut StateReader,
        row: Row<'_>,
    ) -> Result<(), Fault>
        ensures put { ForRunningTest self.old (λ entries name. RowPut entries name (row_code_said row.entry) self.new result) }
        ensures undone { TableUndoneStays self.old self.new result }
    {
        if self.running >= self.tests.entries.len() {
            return Ok(());
        }
        self.tests.entries[self.running]
            .1
            .put_row(alloc, reader, row, &mut self.undo)
    }

    /// Adds a condition to the running test, with the verdict of its block.
    pub(crate) fn put_condition(&mut self, text: Vec<u8>, verdict: Verdict) -> Result<(), Fault>
        ensures put { ForRunningTest self.old (λ entries name. FactPut entries name (a_condition text.items verdict) self.new result) }
        ensures undone { TableUndoneStays self.old self.new result }
    {
        if self.running >= self.tests.entries.len() {
            return Ok(());
        }
        self.tests.entries[self.running]
            .1
            .put_condition(text, verdict)?;
        Ok(())
    }

    /// Adds a hash to the running test.
    pub(crate) fn put_hash(&mut self, alloc: Global, text: &[u8]) -> Result<(), Fault>
        ensures put { ForRunningTest self.old (λ entries name. FactPut entries name (a_hash text.now) self.new result) }
        ensures undone { TableUndoneStays self.old self.new result }
    {
        if self.running >= self.tests.entries.len() {
            return Ok(());
        }
        self.tests.entries[self.running].1.put_hash(alloc, text)
    }
}
