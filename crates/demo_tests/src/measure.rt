ghost use Rattle.std.specs.Prelude.{◌≡◌, ◌≤◌, None};
ghost use Rattle.relax_edges.specs.declared.kinds.ObsMode.TheVariants.{Accept};
ghost use Rattle.cycle_names.specs.CycleNames.{name_of};
ghost use Rattle.test_maker.specs.{CycleText.{cycle_text}, Refusals.{refusal_of}};
ghost use Rattle.demo_tests.specs.TestCounting.{text_tally};

use arch_trait::Arch;
use arrayvec::ArrayString;
use cycle_names::{MAX_CYCLE_NAME, name_of};
use diy_io::{Failed, Page, TallySink};
use edge_algebra::Cycle;
use litmus_text::{KeptTable, Test, print_test_by};
use relax_edges::ObsMode;
use test_maker::make_into;

/// What it takes to measure tests, one after another: the name of a test, what is kept of its table, and the page that it is
/// printed to. What these held before doesn't matter.
#[derive(Drop)]
pub(crate) struct Desk {
    name: ArrayString<MAX_CYCLE_NAME>,
    table: KeptTable,
    page: Page,
}

impl Desk {
    #[inline(never)]
    pub(crate) fn new() -> Desk {
        Desk {
            name: ArrayString::new(),
            table: KeptTable::new(),
            page: Page::new(),
        }
    }

    /// The tally of the bytes and line feeds of the text of a cycle's test, under the cycle's name. The test is made in `test`.
    pub(crate) fn measure<A: Arch>(&mut self, cycle: &Cycle, test: &mut Test) -> TallySink
        requires { refusal_of A.puts cycle.now Accept ≡ None }
        ensures { result ≡ text_tally (cycle_text A.puts A.writing Accept (name_of cycle.now) cycle.now) }
    {
        // Brings the invariant of `Cycle` into the proof.
        let _edges = cycle.edges();
        match make_into::<A>(cycle, ObsMode::Accept, test) {
            Ok(()) => {}
            Err(_) => unreachable!(),
        }
        name_of(cycle, &mut self.name);
        self.page.clear();
        let mut tally = TallySink::new();
        match print_test_by::<A, TallySink>(
            test,
            self.name.as_str(),
            &mut self.table,
            &mut self.page,
            &mut tally,
        ) {
            Ok(()) => tally,
            Err(Failed) => unreachable!(),
        }
    }
}
