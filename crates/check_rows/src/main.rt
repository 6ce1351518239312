//! Reads a table of rows from standard input, runs each row over the devices in memory, and prints a
//! line for each and their sum. `Keyword` and `read_table` say what a table may hold.
//!
//! The exit status is 1 if a row differs from what it expects, and 2 if the table is faulty, can't be
//! read or doesn't fit into memory, or the output fails.
#![tactic(auto)]

ghost use Rattle.std.specs.Prelude.{◌<◌, ◌≤◌, length};

mod arguments;
mod block;
mod call;
mod errors;
mod part;
mod read_all;
mod reading;
mod report;
mod table;

use crate::block::{Block, Keyword, come_once};
use crate::errors::TableError;
use crate::read_all::read_all;
use crate::report::{name_of, try_row};
use crate::table::read_table;
use diy_io::Sink;
use std::alloc::Global;
use std::process::ExitCode;
use std::str;
use system_devices::{StdSink, StdSource};

/// How many rows there are, and how many of them differ.
#[derive(Clone, Copy, Default)]
struct Counts {
    rows: u64,
    differing: u64,
}

/// The end of the row that begins at index `start`: the next row or named text, or the end of the table.
fn row_end(blocks: &[Block], start: usize) -> usize
    requires { start < length blocks.now }
    ensures after { start ≤ result }
    ensures within { result ≤ length blocks.now }
{
    for end in start + 1..blocks.len() {
        if matches!(blocks[end].keyword, Keyword::Row | Keyword::Text) {
            return end;
        }
    }
    blocks.len()
}

/// Tries each row of a table.
fn try_rows(alloc: Global, blocks: &[Block], page: &mut Vec<u8>) -> Result<Counts, TableError> {
    let mut counts = Counts::default();
    for start in 0..blocks.len() {
        if blocks[start].keyword == Keyword::Row {
            let row = &blocks[start..row_end(blocks, start)];
            let is_met = try_named(alloc, row, page)?;
            counts.rows = counts.rows.saturating_add(1);
            if !is_met {
                counts.differing = counts.differing.saturating_add(1);
            }
        }
    }
    Ok(counts)
}

/// Tries a row, and names it on the page if it is faulty. Returns whether nothing differs.
fn try_named(alloc: Global, row: &[Block], page: &mut Vec<u8>) -> Result<bool, TableError> {
    let answer = if come_once(row) {
        try_row(alloc, row, page)
    } else {
        Err(TableError::BadRow)
    };
    match answer {
        Err(TableError::BadRow) => {
            page.extend_from_slice(b"faulty ")?;
            page.extend_from_slice(name_of(row).as_bytes())?;
            page.push(b'\n')?;
            Err(TableError::BadRow)
        }
        answer => answer,
    }
}

/// Tries the table that a text is, and adds the sum to the page.
fn try_table(alloc: Global, text: &[u8], page: &mut Vec<u8>) -> Result<Counts, TableError> {
    let text = str::from_utf8(text).ok().ok_or(TableError::BadLine(0))?;
    let blocks = read_table(alloc, text)?;
    let counts = try_rows(alloc, blocks.as_slice(), page)?;
    let rows = counts.rows;
    let differing = counts.differing;
    let sum = format!(in alloc; "{rows} rows, {differing} differ\n")?;
    page.extend_from_slice(sum.as_str().as_bytes())?;
    Ok(counts)
}

/// Reads and tries the table, and prints the page, even if the table is faulty.
fn try_input(rt: &HostRuntime) -> Result<Counts, TableError> {
    let text = read_all(rt.alloc(), &mut StdSource::new(rt.stdin()))?;
    let mut page = Vec::new(rt.alloc());
    let answer = try_table(rt.alloc(), text.as_slice(), &mut page);
    match StdSink::new(rt.stdout()).write_all(page.as_slice()) {
        Ok(()) => answer,
        Err(_) => Err(TableError::BadRow),
    }
}

fn main(rt: HostRuntime) -> ExitCode {
    let _ = match try_input(&rt) {
        Ok(counts) => return ExitCode::from(u8::from(counts.differing != 0)),
        Err(TableError::BadLine(number)) => eprintln!(rt; "rows: line {number} is faulty"),
        Err(TableError::BadRow) => rt.eprintln("rows: a row is faulty"),
        Err(TableError::NoMemory) => rt.eprintln("rows: no memory"),
    };
    ExitCode::from(2)
}
