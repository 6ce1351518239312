ghost use Rattle.std.specs.Prelude.{◌≡◌, IsTrue, IsFalse, None};
ghost use Rattle.test_maker.specs.Refusals.{refusal_of};
ghost use Rattle.tests_to_files.specs.Ready.{IsReady};

use crate::files::Path;
use arch_trait::Arch;
use arrayvec::ArrayString;
use cycle_names::MAX_CYCLE_NAME;
use diy_io::Page;
use edge_algebra::Cycle;
use litmus_text::{KeptTable, Test};
use relax_edges::ObsMode;
use test_maker::make_into;

/// What is needed to write tests to their files, one after another: the name of a test, the path of its file, what is kept of its
/// table, and the page that it is printed to. What these held doesn't matter. It is written out where it is used, and not made by a
/// call, so that the program clears its 80 KB once in place, and copies nothing. A function has only one value as large: if it also
/// made calls that take other large values, the program would clear this one at the beginning and again where it is made.
#[derive(Drop)]
pub(crate) struct Desk {
    pub(crate) name: ArrayString<MAX_CYCLE_NAME>,
    pub(crate) path: Path,
    pub(crate) table: KeptTable,
    pub(crate) page: Page,
}

/// Sets `test` to that of a cycle, ready to be printed, and returns whether the cycle has one. If it has none, nothing is known
/// of `test` and `table`.
pub(crate) fn make_test<A: Arch>(
    cycle: &Cycle,
    mode: ObsMode,
    test: &mut Test,
    table: &mut KeptTable,
) -> bool
    ensures made { IsTrue result → refusal_of A.puts cycle.now mode ≡ None }
    ensures ready { IsTrue result → IsReady A.NAME A.REGISTERS A.puts A.writing mode cycle.now test.new table.new }
    ensures refused { IsFalse result → refusal_of A.puts cycle.now mode ≡ None → ⊥ }
{
    match make_into::<A>(cycle, mode, test) {
        Ok(()) => {
            table.keep::<A>(test);
            true
        }
        Err(_) => false,
    }
}
