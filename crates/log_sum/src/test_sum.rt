ghost use Rattle.std.specs.Prelude.{◌≡◌, []};
ghost use Rattle.log_sum.specs.SumViews.{GivesParsed, GivesOr, TestTold, row_code_said, test_view};
ghost use Rattle.log_sum.specs.{Facts.{same_kind, same_state_mark, a_kind, a_condition, a_hash, a_row, row_with}};
ghost use Rattle.log_sum.specs.{BlockBefore.{IsBefore}, Undoing.{CountNoted, UndoneKept, UndoneStays, test_undone}};
ghost use Rattle.log_sum.specs.{StateEntries.{ForStateAt, count_in}, SummingSteps.{fact_to, of_kind, row_to, with_verdict, marked, with_marked}};

use crate::errors::{Fault, LogKind};
use crate::kinds::{Kind, Mark, Verdict};
use crate::lines::Row;
use crate::state_table::StateTable;
use crate::states::StateReader;
use crate::undo::{TestBefore, Undo};
use std::alloc::Global;

/// What the logs so far say about a test.
#[derive(Drop)]
pub(crate) struct TestSum {
    pub(crate) kind: Kind,
    pub(crate) condition: Option<Vec<u8>>,
    pub(crate) hash: Option<Vec<u8>>,
    pub(crate) once_validated: bool,
    pub(crate) always_validated: bool,
    pub(crate) starred: u64,
    pub(crate) plain: u64,
    pub(crate) states: StateTable,
}

fn same_kind(one: Kind, other: Kind) -> bool
    ensures { result ≡ same_kind one other }
{
    match (one, other) {
        (Kind::Allowed, Kind::Allowed) => true,
        (Kind::Forbidden, Kind::Forbidden) => true,
        (Kind::Required, Kind::Required) => true,
        _ => false,
    }
}

fn same_mark(one: Mark, other: Mark) -> bool
    ensures { result ≡ same_state_mark one other }
{
    match (one, other) {
        (Mark::Starred, Mark::Starred) => true,
        (Mark::Plain, Mark::Plain) => true,
        _ => false,
    }
}

impl TestSum {
    /// A test of which only the kind is known.
    #[tactic(auto, unfolding(crate::specs::Summed::summed))]
    pub(crate) fn new(alloc: Global, kind: Kind) -> TestSum
        ensures { test_view result ≡ of_kind kind }
    {
        TestSum {
            kind,
            condition: None,
            hash: None,
            once_validated: false,
            always_validated: true,
            starred: 0,
            plain: 0,
            states: StateTable::new(alloc),
        }
    }

    /// Checks the kind that a block says.
    #[tactic(auto, unfolding(crate::specs::SummingSteps::fact_to))]
    pub(crate) fn put_kind(&self, kind: Kind) -> Result<(), LogKind>
        ensures { GivesParsed (λ _. test_view self.now) result (fact_to (test_view self.now) (a_kind kind)) }
    {
        if same_kind(self.kind, kind) {
            Ok(())
        } else {
            Err(LogKind::KindDiffers)
        }
    }

    fn put_verdict(&mut self, verdict: Verdict)
        ensures put { test_view self.new ≡ with_verdict (test_view self.old) verdict }
        ensures undone { UndoneKept self.old self.new }
    {
        match verdict {
            Verdict::Validated => self.once_validated = true,
            Verdict::NotValidated => self.always_validated = false,
        }
    }

    /// Adds a condition, with the verdict of its block.
    #[tactic(auto, unfolding(crate::specs::SummingSteps::fact_to))]
    pub(crate) fn put_condition(&mut self, text: Vec<u8>, verdict: Verdict) -> Result<(), LogKind>
        ensures put { GivesParsed (λ _. test_view self.new) result (fact_to (test_view self.old) (a_condition text.items verdict)) }
        ensures undone { UndoneKept self.old self.new }
    {
        if let Some(known) = &self.condition {
            if known.as_slice() != text.as_slice() {
                return Err(LogKind::ConditionDiffers);
            }
        } else {
            self.condition = Some(text);
        }
        self.put_verdict(verdict);
        Ok(())
    }

    /// Adds a hash.
    #[tactic(auto, unfolding(crate::specs::SummingSteps::fact_to))]
    pub(crate) fn put_hash(&mut self, alloc: Global, text: &[u8]) -> Result<(), Fault>
        ensures put { TestTold self.old self.new (a_hash text.now) result }
        ensures undone { UndoneKept self.old self.new }
    {
        if let Some(known) = &self.hash {
            if known.as_slice() != text {
                return Err(Fault::Wrong(LogKind::HashDiffers));
            }
        } else {
            self.hash = Some(Vec::from_slice(alloc, text)?);
        }
        Ok(())
    }

    /// The sum of the counts of a mark.
    fn sum_of_mark(&self, mark: Mark) -> u64
        ensures { result ≡ marked (test_view self.now) mark }
    {
        match mark {
            Mark::Starred => self.starred,
            Mark::Plain => self.plain,
        }
    }

    fn set_marked(&mut self, mark: Mark, sum: u64)
        ensures marked { test_view self.new ≡ with_marked (test_view self.old) mark sum }
        ensures undone { UndoneKept self.old self.new }
    {
        match mark {
            Mark::Starred => self.starred = sum,
            Mark::Plain => self.plain = sum,
        }
    }

    /// Adds a row: the state that it writes, and how often this was seen.
    pub(crate) fn put_row(
        &mut self,
        alloc: Global,
        reader: &mut StateReader,
        row: Row<'_>,
        undo: &mut Undo,
    ) -> Result<(), Fault>
        ensures put { GivesOr (λ _. test_view self.new) result (row_to (test_view self.old) (row_code_said row.entry)) }
        ensures undone { UndoneStays self.old self.new undo.old.counts.items undo.new.counts.items }
        ensures before { undo.new.before ≡ undo.old.before }
    {
        if let Some(i) = self.states.written_index(row.text) {
            return self.add_noted(i, row.mark, row.count, undo);
        }
        reader.read(row.text)?;
        let i = self
            .states
            .index_or_new(alloc, reader.form(), row.text, row.mark)?;
        self.states.keep_text(alloc, i, row.text)?;
        self.add_noted(i, row.mark, row.count, undo)
    }

    /// Adds a count to the state at an index, which must have this mark, and notes the count before.
    fn add_noted(&mut self, i: usize, mark: Mark, count: u64, undo: &mut Undo) -> Result<(), Fault>
        ensures put { ForStateAt self.old.states.sums.entries.items i (λ state. TestTold self.old self.new (a_row (row_with state mark count)) result) }
        ensures undone { UndoneStays self.old self.new undo.old.counts.items undo.new.counts.items }
        ensures before { undo.new.before ≡ undo.old.before }
    {
        let (_, known) = self.states.sum_at(i);
        undo.note(i, known)?;
        self.add(i, mark, count)
    }

    /// What the test is before a block.
    pub(crate) fn before(&self) -> TestBefore
        ensures before { IsBefore result self.now }
        ensures undone { test_undone result [] self.now ≡ test_view self.now }
    {
        TestBefore {
            had_condition: self.condition.is_some(),
            had_hash: self.hash.is_some(),
            once_validated: self.once_validated,
            always_validated: self.always_validated,
            starred: self.starred,
            plain: self.plain,
            states: self.states.count(),
        }
    }

    /// Takes the running block out, before which this was.
    pub(crate) fn undo(&mut self, before: TestBefore, counts: &mut Vec<(usize, u64)>)
        ensures { test_view self.new ≡ test_undone before counts.old.items self.old }
    {
        self.states.undo(before.states, counts);
        if !before.had_condition {
            self.condition = None;
        }
        if !before.had_hash {
            self.hash = None;
        }
        self.once_validated = before.once_validated;
        self.always_validated = before.always_validated;
        self.starred = before.starred;
        self.plain = before.plain;
    }

    /// Adds a count to the state at an index, which must have this mark.
    fn add(&mut self, i: usize, mark: Mark, count: u64) -> Result<(), Fault>
        ensures put { ForStateAt self.old.states.sums.entries.items i (λ state. TestTold self.old self.new (a_row (row_with state mark count)) result) }
        ensures undone { CountNoted self.old self.new i (count_in self.old.states.sums.entries.items i) }
    {
        let sum = self.sum_of_mark(mark);
        let (known, _) = self.states.sum_at(i);
        if !same_mark(known, mark) {
            return Err(Fault::Wrong(LogKind::MarkDiffers));
        }
        if count > u64::MAX - sum {
            return Err(Fault::Wrong(LogKind::SumTooLarge));
        }
        self.states.add(i, count);
        self.set_marked(mark, sum + count);
        Ok(())
    }
}
