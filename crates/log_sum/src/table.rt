ghost use Rattle.log_sum.specs.BlockBefore.{FitsEntries};

use crate::first_seen::FirstSeen;
use crate::test_sum::TestSum;
use crate::undo::Undo;

/// The tests of logs by name, in the order in which each was first seen.
#[derive(Drop)]
pub(crate) struct Table {
    pub(crate) tests: FirstSeen<TestSum>,
    /// The index of the test whose block is running.
    pub(crate) running: usize,
    /// What takes this block out.
    pub(crate) undo: Undo,
    ghost fits: { FitsEntries undo.before tests.entries.items running },
}
