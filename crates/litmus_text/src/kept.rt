ghost use Rattle.std.specs.{Prelude.{length}, List.{All}};
ghost use Rattle.litmus_text.specs.{KeptCells.{HoldsTable}, Tests.{IsPrintable, test_seen}};

use crate::column::{KeptCells, row_count, set_widths};
use crate::test::Test;
use arch_trait::Arch;
use arrayvec::ArrayVec;
use relax_edges::MAX_EDGES;
use std::marker::Model;

/// What is kept of the table of a test that is printed: its first cells, how wide its columns are, and
/// how many rows it has. It can be reused, whatever it held before.
#[derive(Drop)]
pub struct KeptTable {
    pub(crate) cells: KeptCells,
    pub(crate) widths: ArrayVec<usize, MAX_EDGES>,
    pub(crate) rows: usize,
}

impl Model for KeptTable {
    ghost use Rattle.litmus_text.specs.KeptCells.{TableSeen};

    ghost Value = { TableSeen };

    ghost view = { λ t. record { texts = t.cells; widths = t.widths.items; rows = t.rows } };
}

impl Default for KeptTable {
    fn default() -> KeptTable {
        KeptTable::new()
    }
}

impl KeptTable {
    /// Space in which nothing is kept so far.
    pub fn new() -> KeptTable {
        KeptTable {
            cells: KeptCells::new(),
            widths: ArrayVec::new(),
            rows: 0,
        }
    }

    /// Keeps what printing needs of the table of a test, instead of what was kept before.
    pub fn keep<A: Arch>(&mut self, test: &Test)
        requires { All (λ code. IsPrintable A.puts.has A.REGISTERS (length test.now.places) code) test.now.threads.items }
        ensures { HoldsTable A.writing (test_seen test.now) self.new }
    {
        let threads = test.threads.as_slice();
        self.rows = row_count(threads);
        set_widths::<A>(threads, &test.places, &mut self.cells, &mut self.widths);
    }
}
