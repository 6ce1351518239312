ghost use Rattle.std.specs.{Prelude.{◌≡◌, ◌≤◌, nat_lt, IfOk}, List.{list_all}};
ghost use Rattle.litmus_text.specs.{ReadingAnswers.{GivesTest}, TestTable.{cells_of, is_head, heads_read, head_read, threads_there}};
ghost use Rattle.litmus_text.specs.Views.{text_left, begun_seen, cells_seen};

use crate::errors::{TestKind, TextError, error_at_line};
use crate::limits::MAX_THREADS;
use crate::reading::cuts::Pieces;
use crate::reading::initial::Begun;
use crate::reading::lines::Lines;
use crate::reading::text::Text;
use arch_trait::Places;
use itoa::Buffer;
use micro_ops::Micro;
use text_parts::{cut, trim_blanks};

/// An operation, and its line.
#[derive(Clone, Copy)]
pub struct Placed {
    pub op: Micro,
    pub at_line: u64,
}

/// The column of a thread, as far as it is read.
#[derive(Drop)]
pub(crate) struct Column {
    pub(crate) ops: Vec<Placed>,
    pub(crate) labels: Places,
}

/// The cells of a row, and whether it is whole: its first `;` ends the line.
#[derive(Clone, Copy)]
pub(crate) struct Cells<'a> {
    pub(crate) pieces: Pieces<'a>,
    pub(crate) whole: bool,
}

/// The cells of a line: the pieces between bars before the first `;`, or of all of it if there is none.
#[tactic(auto, unfolding(crate::specs::TestTable::cells_of))]
pub(crate) fn cells_of(text: &[u8]) -> Cells<'_>
    ensures { cells_seen result ≡ cells_of text.now }
{
    match cut(b';', text) {
        Some((cells, remainder)) => Cells {
            pieces: Pieces::new(b'|', cells),
            whole: remainder.is_empty(),
        },
        None => Cells {
            pieces: Pieces::new(b'|', text),
            whole: false,
        },
    }
}

/// Whether a cell of the header is that of the thread.
fn is_head(thread: usize, cell: &[u8]) -> bool
    ensures { result ≡ is_head thread cell.now }
{
    match trim_blanks(cell) {
        [b'P', digits @ ..] => digits == Buffer::new().format(thread).as_bytes(),
        _ => false,
    }
}

/// How many threads the cells of the header name.
#[tactic(auto, using(crate::proofs::TableLoops::heads_end, crate::proofs::TableLoops::heads_more), unfolding(crate::specs::TestTable::heads_read))]
fn count_heads(number: u64, cells: Cells<'_>) -> Result<usize, TextError>
    ensures heads { GivesTest (λ threads. threads) result (heads_read number (cells_seen cells.entry)) }
    ensures few { IfOk result (λ threads. threads ≤ MAX_THREADS) }
{
    let mut threads = 0;
    let mut pieces = cells.pieces;
    'heads: while let Some((cell, remainder)) = pieces.first() {
        if !is_head(threads, cell) {
            return Err(error_at_line(TestKind::BadTable, number));
        }
        if threads >= MAX_THREADS {
            return Err(error_at_line(TestKind::TooLarge, number));
        }
        threads += 1;
        pieces = remainder;
    }
    if cells.whole {
        Ok(threads)
    } else {
        Err(error_at_line(TestKind::BadTable, number))
    }
}

/// Whether each thread that has an initial value is one of so many.
fn has_threads(begun: &Begun, threads: usize) -> bool
    ensures { result ≡ list_all (λ v. nat_lt v.0 threads) begun.now.values.items }
{
    begun
        .values
        .iter()
        .all(|given| usize::from(given.0) < threads)
}

/// The number of threads that the header of the table names.
#[tactic(auto, unfolding(crate::specs::TestTable::head_read))]
pub(crate) fn read_head<'a>(begun: &Begun, text: Text<'a>) -> Result<(usize, Text<'a>), TextError>
    ensures head { GivesTest (λ x. (x.0, text_left x.1)) result (head_read (begun_seen begun.now) (text_left text.entry)) }
    ensures few { IfOk result (λ x. x.0 ≤ MAX_THREADS) }
{
    let line = match text.lines() {
        Lines::Ends(end) => return Err(error_at_line(TestKind::EndMissing, end)),
        Lines::Line(line) => line,
    };
    let threads = count_heads(line.number, cells_of(line.text))?;
    if !has_threads(begun, threads) {
        return Err(error_at_line(TestKind::BadTable, line.number));
    }
    Ok((threads, line.rest))
}
