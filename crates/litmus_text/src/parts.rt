ghost use Rattle.std.specs.{Prelude.{◌≤◌, ◌<◌, length, Some}, List.{All}};
ghost use Rattle.litmus_text.specs.{KeptCells.{HoldsTable}, Tests.{IsPrintable, test_seen}, TextParts.{PutsPart}};
ghost use Rattle.litmus_text.specs.declared.parts.TextPart.TheVariants as parts;

use crate::cell::CELL_ROOM;
use crate::head::print_opening;
use crate::initial::{ITEMS_ROOM, print_item_line};
use crate::kept::KeptTable;
use crate::print::print_condition;
use crate::table::{ROW_ENDS, print_row};
use crate::test::Test;
use arch_trait::Arch;
use diy_io::{LINE_ROOM, Page};

/// What closes the initial state.
const CLOSING: &[u8; 2] = b"}\n";

/// A part of the text of a test after its header, from which printing goes on.
#[derive(Clone, Copy)]
pub enum TextPart {
    /// The line of the edges, and the brace that opens the initial state.
    Edges,
    /// The items of a thread, by its number; after those of the last thread, the brace that closes the
    /// initial state.
    Items(usize),
    /// A row of the table, by its number; after the last row, the condition.
    Row(usize),
}

/// Appends a part of the text of a test to the page, perhaps with parts after it, at most `LINE_ROOM`
/// bytes in all. Returns the part from which the text goes on, if there is more. `TextPart::Edges`
/// comes first, after the header.
///
/// `KeptTable::keep` must have kept the table of this test, and the test must be as `print_test` says.
pub fn put_part<A: Arch>(
    part: TextPart,
    test: &Test,
    table: &KeptTable,
    page: &mut Page,
) -> Option<TextPart>
    requires printable { All (λ code. IsPrintable A.puts.has A.REGISTERS (length test.now.places) code) test.now.threads.items }
    requires kept { HoldsTable A.writing (test_seen test.now) table.now }
    ensures { PutsPart A.writing (test_seen test.now) part page.old page.new result }
{
    match part {
        TextPart::Edges => {
            print_opening(test.edges.as_slice(), page);
            Some(TextPart::Items(0))
        }
        TextPart::Items(thread) => Some(put_items::<A>(thread, test, page)),
        TextPart::Row(row) => put_row::<A>(row, test, table, page),
    }
}

/// Appends the items of threads, from one thread on, while there is space for them, and the brace
/// after those of the last.
fn put_items<A: Arch>(first: usize, test: &Test, page: &mut Page) -> TextPart
    requires { All (λ code. IsPrintable A.puts.has A.REGISTERS (length test.now.places) code) test.now.threads.items }
    ensures { PutsPart A.writing (test_seen test.now) (parts.Items first) page.old page.new (Some result) }
{
    let threads = test.threads.as_slice();
    let mut left = LINE_ROOM - CLOSING.len();
    for thread in first..threads.len() {
        if left < ITEMS_ROOM {
            return TextPart::Items(thread);
        }
        print_item_line::<A>(thread, &threads[thread], &test.places, page);
        left -= ITEMS_ROOM;
    }
    page.put_fixed(CLOSING);
    TextPart::Row(0)
}

/// Appends rows of the table, or the condition after them.
fn put_row<A: Arch>(row: usize, test: &Test, table: &KeptTable, page: &mut Page) -> Option<TextPart>
    requires printable { All (λ code. IsPrintable A.puts.has A.REGISTERS (length test.now.places) code) test.now.threads.items }
    requires kept { HoldsTable A.writing (test_seen test.now) table.now }
    ensures { PutsPart A.writing (test_seen test.now) (parts.Row row) page.old page.new result }
{
    if row < table.rows {
        Some(put_rows::<A>(row, test, table, page))
    } else {
        print_condition(&test.cond, page);
        None
    }
}

/// Appends rows of the table, from one row on, as many as there is space for.
fn put_rows<A: Arch>(first: usize, test: &Test, table: &KeptTable, page: &mut Page) -> TextPart
    requires printable { All (λ code. IsPrintable A.puts.has A.REGISTERS (length test.now.places) code) test.now.threads.items }
    requires kept { HoldsTable A.writing (test_seen test.now) table.now }
    requires inside { first < table.now.rows }
    ensures { PutsPart A.writing (test_seen test.now) (parts.Row first) page.old page.new (Some result) }
{
    let threads = test.threads.as_slice();
    let room = CELL_ROOM * threads.len() + ROW_ENDS;
    let mut left = LINE_ROOM;
    for row in first..table.rows {
        if left < room {
            return TextPart::Row(row);
        }
        print_row::<A>(
            row,
            threads,
            table.widths.as_slice(),
            &test.places,
            &table.cells,
            page,
        );
        left -= room;
    }
    TextPart::Row(table.rows)
}
