use crate::arguments::number_in;
use crate::block::{Block, Keyword, first};
use crate::errors::TableError;
use crate::part::{Trial, are_met};
use std::alloc::Global;

/// Tries a row, and adds its line and what differs to the page. Returns whether nothing differs.
pub fn try_row(alloc: Global, row: &[Block], page: &mut Vec<u8>) -> Result<bool, TableError> {
    let mut differences = Vec::new(alloc);
    match first(row, Keyword::Prefixes) {
        Some(block) => {
            let lengths = block.argument.as_str().split_once(' ');
            let (low, high) = lengths.ok_or(TableError::BadRow)?;
            for length in number_in(low)?..=number_in(high)? {
                try_call(alloc, row, Some(length), &mut differences)?;
            }
        }
        None => try_call(alloc, row, None, &mut differences)?,
    }
    let is_met = differences.is_empty();
    let word = if is_met { "ok " } else { "differs " };
    page.extend_from_slice(word.as_bytes())?;
    page.extend_from_slice(name_of(row).as_bytes())?;
    page.push(b'\n')?;
    page.extend_from_slice(differences.as_slice())?;
    Ok(is_met)
}

/// The name of a row.
pub fn name_of(row: &[Block]) -> &str {
    match first(row, Keyword::Row) {
        Some(block) => block.argument.as_str(),
        None => "",
    }
}

/// Tries a row once, and adds the parts that differ to the page, after the length if one is given.
fn try_call(
    alloc: Global,
    row: &[Block],
    length: Option<usize>,
    page: &mut Vec<u8>,
) -> Result<(), TableError> {
    let mut trial = Trial {
        alloc,
        row,
        length,
        parts: Vec::new(alloc),
    };
    match first(row, Keyword::Read) {
        Some(block) => trial.read(block.argument.as_str())?,
        None => trial.call()?,
    }
    if are_met(trial.parts.as_slice()) {
        return Ok(());
    }
    if let Some(length) = length {
        let line = format!(in alloc; "  at length {length}\n")?;
        page.extend_from_slice(line.as_str().as_bytes())?;
    }
    for part in trial.parts.as_slice() {
        if !part.is_met() {
            add_bytes(page, part.name.as_str(), " wanted", &part.wanted)?;
            add_bytes(page, part.name.as_str(), " got", &part.got)?;
        }
    }
    Ok(())
}

/// Adds bytes to the page, in lines that begin with a bar, under the name of their part.
fn add_bytes(
    page: &mut Vec<u8>,
    name: &str,
    word: &str,
    bytes: &Option<Vec<u8>>,
) -> Result<(), TableError> {
    page.extend_from_slice(b"  ")?;
    page.extend_from_slice(name.as_bytes())?;
    page.extend_from_slice(word.as_bytes())?;
    match bytes {
        Some(bytes) => add_lines(page, bytes.as_slice()),
        None => {
            page.extend_from_slice(b": none\n")?;
            Ok(())
        }
    }
}

/// Adds lines that begin with a bar, and says so if the last one has no line feed.
fn add_lines(page: &mut Vec<u8>, bytes: &[u8]) -> Result<(), TableError> {
    page.extend_from_slice(b":\n")?;
    let mut is_start = true;
    for byte in bytes {
        if is_start {
            page.push(b'|')?;
        }
        page.push(*byte)?;
        is_start = *byte == b'\n';
    }
    if !is_start {
        page.extend_from_slice(b"\n  and no line feed\n")?;
    }
    Ok(())
}
