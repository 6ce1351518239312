ghost use Rattle.std.specs.{Prelude.{◌≡◌, ◌≤◌, ◌+◌, ◌-◌, ◌*◌, ◌++◌, map, length, codes, take}, List.{All, flat_map, join_by}};
ghost use Rattle.litmus_text.specs.{KeptCells.{all_texts}, declared.column.TheConstants.{KEPT_CELLS}};
ghost use Rattle.litmus_text.specs.{TestText.{columns_of, width_of, cell_text, row_line, table_lines, with_line_feed}, Tests.{IsPrintable}};
ghost use Rattle.diy_io.specs.Page.{page_after, Sends};
ghost use Rattle.arch_trait.specs.Codes.{thread_code_of};

use crate::cell::CELL_ROOM;
use crate::column::{CellSpot, KeptCells, put_cell};
use arch_trait::{Arch, Code, MAX_INSTRUCTION_TEXT, Places};
use diy_io::Page;
use relax_edges::MAX_EDGES;

/// How many bytes a row has before its first cell and after its last one, together.
pub(crate) const ROW_ENDS: usize = 4;

/// Appends a row to the page.
pub(crate) fn print_row<A: Arch>(
    row: usize,
    threads: &[Code],
    widths: &[usize],
    places: &Places,
    cells: &KeptCells,
    page: &mut Page,
)
    requires printable { All (λ code. IsPrintable A.puts.has A.REGISTERS (length places.now) code) threads.now }
    requires few { length threads.now ≤ MAX_EDGES }
    requires kept { cells.now ≡ take KEPT_CELLS (all_texts (columns_of A.writing places.now (map thread_code_of threads.now))) }
    requires widths { widths.now ≡ map width_of (columns_of A.writing places.now (map thread_code_of threads.now)) }
    requires short { All (λ width. width ≤ MAX_INSTRUCTION_TEXT) widths.now }
    ensures text { page.new ≡ page_after page.old (with_line_feed (row_line (columns_of A.writing places.now (map thread_code_of threads.now)) row)) }
    ensures short { length (with_line_feed (row_line (columns_of A.writing places.now (map thread_code_of threads.now)) row))
        ≤ CELL_ROOM * length threads.now + ROW_ENDS }
{
    page.put_fixed(b" ");
    print_cells::<A>(row, threads, widths, places, cells, page);
    page.put_fixed(b" ;\n");
}

fn print_cells<A: Arch>(
    row: usize,
    threads: &[Code],
    widths: &[usize],
    places: &Places,
    cells: &KeptCells,
    page: &mut Page,
)
    requires printable { All (λ code. IsPrintable A.puts.has A.REGISTERS (length places.now) code) threads.now }
    requires few { length threads.now ≤ MAX_EDGES }
    requires kept { cells.now ≡ take KEPT_CELLS (all_texts (columns_of A.writing places.now (map thread_code_of threads.now))) }
    requires widths { widths.now ≡ map width_of (columns_of A.writing places.now (map thread_code_of threads.now)) }
    requires short { All (λ width. width ≤ MAX_INSTRUCTION_TEXT) widths.now }
    ensures text { page.new ≡ page_after page.old (join_by (cell_text row) (codes " | ") (columns_of A.writing places.now (map thread_code_of threads.now))) }
    ensures short { length (join_by (cell_text row) (codes " | ") (columns_of A.writing places.now (map thread_code_of threads.now)))
        ≤ CELL_ROOM * length threads.now }
{
    let mut first = 0;
    for (thread, code) in threads.iter().enumerate() {
        let spot = CellSpot {
            row,
            thread,
            first,
            width: widths[thread],
        };
        put_cell::<A>(spot, code, places, cells, page);
        first += code.instrs.len() + 1;
    }
}
