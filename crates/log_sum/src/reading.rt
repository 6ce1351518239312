ghost use Rattle.std.specs.Prelude.{◌≡◌, [], true, false, Some};
ghost use Rattle.log_sum.specs.{Undoing.{TableUndoneStays, UnlessNoMemory, tests_undone}, Skipping.{is_opening}, Sieving.{is_outside, says_opening}};
ghost use Rattle.log_sum.specs.declared.kinds.Place.TheVariants.{Outside};
ghost use Rattle.log_sum.specs.{SumViews.{said_read, row_code_said, progress_view, tests_view}, LogReading.{next_line, LogSeen, nothing_seen, text_judged, end_judged}};
ghost use Rattle.log_sum.specs.Feeding.{RowPut, FollowsSeen, JudgedTo, SaidTo, ForRunningTest};

use crate::errors::{Fault, LogKind};
use crate::kinds::Place;
use crate::lines::{Row, Said, read_line};
use crate::places::place_after;
use crate::states::StateReader;
use crate::table::Table;
use std::alloc::Global;

/// How far logs have been read, line by line.
#[derive(Drop)]
pub(crate) struct Reading {
    alloc: Global,
    pub(crate) table: Table,
    states: StateReader,
    /// The position in the running log.
    pub(crate) place: Place,
    /// The number of the running line.
    pub(crate) line: u64,
}

impl Reading {
    /// A reading that has read nothing.
    pub(crate) fn new(alloc: Global) -> Reading
        ensures seen { FollowsSeen (progress_view result) nothing_seen }
        ensures undone { tests_undone result.table ≡ [] }
    {
        Reading {
            alloc,
            table: Table::new(alloc),
            states: StateReader::new(alloc),
            place: Place::Outside,
            line: 1,
        }
    }

    /// Reads a line, which is given without its end.
    pub(crate) fn judge(&mut self, text: &[u8]) -> Result<(), Fault>
        ensures judged { (seen : LogSeen) → FollowsSeen (progress_view self.old) seen → JudgedTo (progress_view self.new) (text_judged seen text.now) result }
        ensures undone { is_opening (Some text.now) ≡ false → TableUndoneStays self.old.table self.new.table result }
        ensures begun { is_opening (Some text.now) ≡ true → self.old.place ≡ Outside → UnlessNoMemory result (tests_undone self.new.table ≡ tests_view self.old.table) }
    {
        let said = read_line(self.alloc, self.place, text)?;
        self.put(said)?;
        self.line = self.line.saturating_add(1);
        Ok(())
    }

    /// Passes over a line, whatever it says.
    pub(crate) fn pass_line(&mut self)
        ensures line { progress_view self.new ≡ record (progress_view self.old) { line = next_line self.old.line } }
        ensures undone { tests_undone self.new.table ≡ tests_undone self.old.table }
    {
        self.line = self.line.saturating_add(1);
    }

    /// Whether the reading is outside the blocks.
    pub(crate) fn is_outside(&self) -> bool
        ensures { result ≡ is_outside self.now.place }
    {
        matches!(self.place, Place::Outside)
    }

    /// Takes the running block out; the reading is outside the blocks then.
    pub(crate) fn leave_block_out(&mut self)
        ensures tests { (progress_view self.new).tests ≡ tests_undone self.old.table }
        ensures undone { tests_undone self.new.table ≡ tests_undone self.old.table }
        ensures place { self.new.place ≡ Outside }
        ensures line { self.new.line ≡ self.old.line }
    {
        self.table.undo_block();
        self.place = Place::Outside;
    }

    /// Ends a log outside the blocks.
    pub(crate) fn end_outside(&mut self)
        ensures line { progress_view self.new ≡ record (progress_view self.old) { line = 1 } }
        ensures undone { tests_undone self.new.table ≡ tests_view self.old.table }
    {
        self.table.end_block();
        self.line = 1;
    }

    /// Ends a log. `Truncated` inside a block.
    pub(crate) fn end(&mut self) -> Result<(), Fault>
        ensures { (seen : LogSeen) → FollowsSeen (progress_view self.old) seen → JudgedTo (progress_view self.new) (end_judged seen) result }
    {
        match self.place {
            Place::Outside => {
                self.line = 1;
                Ok(())
            }
            _ => Err(Fault::Wrong(LogKind::Truncated)),
        }
    }

    /// Takes what a line says.
    fn put(&mut self, said: Said<'_>) -> Result<(), Fault>
        ensures put { SaidTo (progress_view self.old) (progress_view self.new) (said_read said.entry) result }
        ensures line { self.new.line ≡ self.old.line }
        ensures undone { says_opening (said_read said.entry) ≡ false → TableUndoneStays self.old.table self.new.table result }
        ensures begun { says_opening (said_read said.entry) ≡ true → UnlessNoMemory result (tests_undone self.new.table ≡ tests_view self.old.table) }
    {
        self.place = place_after(self.place, &said);
        match said {
            Said::Begins(name, kind) => self.table.begin(self.alloc, name, kind),
            Said::State(row) => self.put_row(row),
            Said::Conditioned(text, verdict) => self.table.put_condition(text, verdict),
            Said::Hashed(text) => self.table.put_hash(self.alloc, text),
            Said::PassedOver | Said::Counts(_) | Said::Judged | Said::Ends => Ok(()),
        }
    }

    /// Adds a row to the running test.
    fn put_row(&mut self, row: Row<'_>) -> Result<(), Fault>
        ensures put { ForRunningTest self.old.table (λ entries name. RowPut entries name (row_code_said row.entry) self.new.table result) }
        ensures place { self.new.place ≡ self.old.place }
        ensures line { self.new.line ≡ self.old.line }
        ensures undone { TableUndoneStays self.old.table self.new.table result }
    {
        self.table.put_row(self.alloc, &mut self.states, row)
    }
}
