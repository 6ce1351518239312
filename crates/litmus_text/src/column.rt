ghost use Rattle.std.specs.{Prelude.{◌≡◌, ◌≤◌, ◌+◌, ◌*◌, ◌∷◌, ◌++◌, [], map, length, max, slice_index_or, take, IfSome, ◌<◌}, Fmt.{decimal}, List.{All, fold}};
ghost use Rattle.litmus_text.specs.{TestText.{column_of, columns_of, width_of}, Tests.{IsPrintable}, KeptCells.{all_texts, HoldsColumn}};
ghost use Rattle.litmus_text.specs.PaddedCells.{text_in, PutsCell};
ghost use Rattle.arch_trait.specs.Codes.{thread_code_of};

use crate::cell::{Cell, PaddedCell};
use arch_trait::{Arch, Code, MAX_INSTRS, MAX_INSTRUCTION_TEXT, Places};
use arrayvec::ArrayVec;
use diy_io::Page;
use itoa::Buffer;
use relax_edges::MAX_EDGES;
use std::marker::Model;

/// Makes `cell` the text of a thread's column in a row: its header, an instruction, or nothing.
pub(crate) fn set_cell<A: Arch>(
    row: usize,
    thread: usize,
    code: &Code,
    places: &Places,
    cell: &mut Cell,
)
    requires { IsPrintable A.puts.has A.REGISTERS (length places.now) code.now }
    ensures { cell.new.bytes ≡ slice_index_or (column_of A.writing places.now (thread, thread_code_of code.now)) row [] }
{
    cell.clear();
    if row == 0 {
        cell.push_str("P");
        push_number(thread, cell);
    } else if let Some(op) = code.instrs.as_slice().get(row - 1) {
        A::print(op, places, cell);
    }
}

/// Appends a number in decimal; one of one digit without a loop.
#[tactic(auto, using(std::proofs::lemmas::Fmt::decimal_digit, std::proofs::lemmas::Str::encode_ascii))]
fn push_number(number: usize, cell: &mut Cell)
    requires { length cell.old.bytes ≤ 1 }
    ensures { cell.new.bytes ≡ cell.old.bytes ++ decimal number }
{
    if number < 10 {
        cell.push(char::from(b'0' + number as u8));
    } else {
        cell.push_str(Buffer::new().format(number));
    }
}

/// How many cells of a table are kept.
const KEPT_CELLS: usize = 128;

/// The first cells of a table, column by column. A cell is printed to find how wide its column is, and
/// is copied into its row from here.
///
/// Contracts see the texts that are kept.
#[derive(Drop)]
pub(crate) struct KeptCells {
    cells: [PaddedCell; KEPT_CELLS],
    count: usize,
}

impl Model for KeptCells {
    ghost use Rattle.std.specs.Prelude.{◌≤◌, ℕ, List, map, take};
    ghost use Rattle.litmus_text.specs.{declared.column.TheConstants.{KEPT_CELLS}, PaddedCells.{text_in}};

    ghost Value = { List (List ℕ) };

    ghost view = { λ c. take c.count (map text_in c.cells) };

    ghost invariant = { λ c. c.count ≤ KEPT_CELLS };
}

impl KeptCells {
    /// Space in which nothing is kept so far.
    pub(crate) fn new() -> KeptCells
        ensures { result ≡ [] }
    {
        KeptCells {
            cells: [PaddedCell::default(); KEPT_CELLS],
            count: 0,
        }
    }

    fn clear(&mut self)
        ensures { self.new ≡ [] }
    {
        self.count = 0;
    }

    /// Keeps one more text, if there is space.
    fn keep(&mut self, cell: &Cell)
        ensures { self.new ≡ take KEPT_CELLS (self.old ++ cell.now.bytes ∷ []) }
    {
        if self.count < KEPT_CELLS {
            self.cells[self.count].set(cell);
            self.count += 1;
        }
    }

    /// The cell that is kept at an index, if there is one.
    fn get(&self, place: usize) -> Option<&PaddedCell>
        ensures { IfSome result (λ cell. (place < length self.now) × (text_in cell.now ≡ slice_index_or self.now place [])) }
    {
        if place < self.count {
            Some(&self.cells[place])
        } else {
            None
        }
    }
}

/// The width of a column with one more cell, if it was as wide as this without it.
fn widen(width: usize, cell: &Cell) -> usize
    ensures value { result ≡ max width (length cell.now.bytes) }
    ensures short { width ≤ MAX_INSTRUCTION_TEXT → result ≤ MAX_INSTRUCTION_TEXT }
{
    width.max(cell.len())
}

/// The width of a thread's column, whose cells are kept after the others.
pub(crate) fn width_of<A: Arch>(
    thread: usize,
    code: &Code,
    places: &Places,
    cells: &mut KeptCells,
) -> usize
    requires printable { IsPrintable A.puts.has A.REGISTERS (length places.now) code.now }
    requires few { length cells.old ≤ KEPT_CELLS }
    ensures width { result ≡ width_of (column_of A.writing places.now (thread, thread_code_of code.now)) }
    ensures short { result ≤ MAX_INSTRUCTION_TEXT }
    ensures kept { cells.new ≡ take KEPT_CELLS (cells.old ++ column_of A.writing places.now (thread, thread_code_of code.now)) }
{
    let mut cell = Cell::new();
    let mut width = 0;
    for row in 0..code.instrs.len() + 1 {
        set_cell::<A>(row, thread, code, places, &mut cell);
        width = widen(width, &cell);
        cells.keep(&cell);
    }
    width
}

/// Makes `widths` the widths of all columns, whose cells are kept.
pub(crate) fn set_widths<A: Arch>(
    threads: &[Code],
    places: &Places,
    cells: &mut KeptCells,
    widths: &mut ArrayVec<usize, MAX_EDGES>,
)
    requires printable { All (λ code. IsPrintable A.puts.has A.REGISTERS (length places.now) code) threads.now }
    requires few { length threads.now ≤ MAX_EDGES }
    ensures widths { widths.new.items ≡ map width_of (columns_of A.writing places.now (map thread_code_of threads.now)) }
    ensures short { All (λ width. width ≤ MAX_INSTRUCTION_TEXT) widths.new.items }
    ensures kept { cells.new ≡ take KEPT_CELLS (all_texts (columns_of A.writing places.now (map thread_code_of threads.now))) }
{
    cells.clear();
    widths.clear();
    for (thread, code) in threads.iter().enumerate() {
        widths.push(width_of::<A>(thread, code, places, cells));
    }
}

/// The position of a cell in a table.
#[derive(Clone, Copy)]
pub(crate) struct CellSpot {
    pub(crate) row: usize,
    /// The thread of its column.
    pub(crate) thread: usize,
    /// The index of the first cell of its column among the cells of the table, column by column.
    pub(crate) first: usize,
    /// How wide its column is.
    pub(crate) width: usize,
}

/// Appends a thread's cell to a row: copied, if it is kept, otherwise printed again.
pub(crate) fn put_cell<A: Arch>(
    spot: CellSpot,
    code: &Code,
    places: &Places,
    cells: &KeptCells,
    page: &mut Page,
)
    requires printable { IsPrintable A.puts.has A.REGISTERS (length places.now) code.now }
    requires near { spot.first ≤ MAX_EDGES * (MAX_INSTRS + 1) }
    requires kept { HoldsColumn cells.now spot.first (column_of A.writing places.now (spot.thread, thread_code_of code.now)) }
    requires within { length (slice_index_or (column_of A.writing places.now (spot.thread, thread_code_of code.now)) spot.row []) ≤ spot.width }
    requires short { spot.width ≤ MAX_INSTRUCTION_TEXT }
    ensures { PutsCell spot.thread (slice_index_or (column_of A.writing places.now (spot.thread, thread_code_of code.now)) spot.row []) spot.width page.old page.new }
{
    let CellSpot {
        row,
        thread,
        first,
        width,
    } = spot;
    if row > code.instrs.len() {
        PaddedCell::default().put(thread, width, page);
        return;
    }
    if let Some(cell) = cells.get(first + row) {
        cell.put(thread, width, page);
        return;
    }
    let mut cell = Cell::new();
    set_cell::<A>(row, thread, code, places, &mut cell);
    let mut padded = PaddedCell::default();
    padded.set(&cell);
    padded.put(thread, width, page);
}

/// How many rows the longest column has, with its header.
pub(crate) fn row_count(threads: &[Code]) -> usize
    ensures { result ≡ fold (λ count code. max count (length code.instrs.items + 1)) 0 threads.now }
{
    let mut count = 0;
    for code in threads {
        count = count.max(code.instrs.len() + 1);
    }
    count
}
