ghost use Rattle.std.specs.Prelude.{◌<◌, IfOk};

use crate::arguments::number_in;
use crate::block::{Block, Keyword, find_block};
use crate::errors::TableError;
use std::alloc::Global;

/// The blocks of a table, in order.
///
/// Empty lines and lines that begin with `#` are skipped. A line of bytes begins with its mark: `|` bytes and a line
/// feed, `>` bytes, `%` bytes as two hexadecimal digits each, `=NAME` the bytes of a text that was named before,
/// `=NAME N` its first N bytes, and `*N ` before one of the first three its bytes N times. The text after `|` and `>`
/// is taken as it is. Every other line begins with a keyword; a blank separates it from its argument.
pub fn read_table(alloc: Global, text: &str) -> Result<Vec<Block>, TableError> {
    let mut blocks = Vec::new(alloc);
    let mut number: u64 = 0;
    for line in text.split('\n') {
        number = number.saturating_add(1);
        match take_line(alloc, &mut blocks, line) {
            Ok(()) => {}
            Err(TableError::BadRow) => return Err(TableError::BadLine(number)),
            Err(error) => return Err(error),
        }
    }
    Ok(blocks)
}

/// Takes one line of a table. A line that isn't of any form is a `BadRow`, here and below.
fn take_line(alloc: Global, blocks: &mut Vec<Block>, line: &str) -> Result<(), TableError> {
    if line.is_empty() || line.starts_with('#') {
        return Ok(());
    }
    match bytes_in(alloc, blocks.as_slice(), line)? {
        Some(bytes) => add_bytes(blocks, bytes.as_slice()),
        None => add_block(alloc, blocks, line),
    }
}

/// Begins a block.
fn add_block(alloc: Global, blocks: &mut Vec<Block>, line: &str) -> Result<(), TableError> {
    let (word, argument) = match line.split_once(' ') {
        Some(parts) => parts,
        None => (line, ""),
    };
    let keyword = Keyword::of(word).ok_or(TableError::BadRow)?;
    let argument = String::from_str(alloc, argument)?;
    let bytes = Vec::new(alloc);
    blocks.push(Block {
        keyword,
        argument,
        bytes,
    })?;
    Ok(())
}

/// Adds bytes to the last block.
fn add_bytes(blocks: &mut Vec<Block>, bytes: &[u8]) -> Result<(), TableError> {
    match blocks.last_mut() {
        Some(block) if block.keyword.takes_bytes() => {
            block.bytes.extend_from_slice(bytes)?;
            Ok(())
        }
        _ => Err(TableError::BadRow),
    }
}

/// The bytes of a line, or `None` if it begins with no mark of bytes.
fn bytes_in(alloc: Global, blocks: &[Block], line: &str) -> Result<Option<Vec<u8>>, TableError> {
    if let Some(name) = line.strip_prefix('=') {
        let text = text_named(blocks, name).ok_or(TableError::BadRow)?;
        return Ok(Some(Vec::from_slice(alloc, text)?));
    }
    match line.strip_prefix('*') {
        Some(rest) => repeat_line(alloc, rest),
        None => line_bytes(alloc, line),
    }
}

/// The bytes of a text that was named before, or of its prefix.
fn text_named<'a>(blocks: &'a [Block], name: &str) -> Option<&'a [u8]> {
    let Some((name, length)) = name.split_once(' ') else {
        return Some(find_block(blocks, Keyword::Text, name)?.bytes.as_slice());
    };
    let text = find_block(blocks, Keyword::Text, name)?.bytes.as_slice();
    text.get(..length.parse::<usize>().ok()?)
}

/// The bytes of a line that is to be taken a number of times.
fn repeat_line(alloc: Global, text: &str) -> Result<Option<Vec<u8>>, TableError> {
    let (count, line) = text.split_once(' ').ok_or(TableError::BadRow)?;
    let once = line_bytes(alloc, line)?.ok_or(TableError::BadRow)?;
    let mut bytes = Vec::new(alloc);
    for _ in 0..number_in(count)? {
        bytes.extend_from_slice(once.as_slice())?;
    }
    Ok(Some(bytes))
}

/// The bytes that a line gives, or `None` if it begins with none of the first three marks.
fn line_bytes(alloc: Global, line: &str) -> Result<Option<Vec<u8>>, TableError> {
    if let Some(text) = line.strip_prefix('|') {
        let mut bytes = Vec::from_slice(alloc, text.as_bytes())?;
        bytes.push(b'\n')?;
        return Ok(Some(bytes));
    }
    if let Some(text) = line.strip_prefix('>') {
        return Ok(Some(Vec::from_slice(alloc, text.as_bytes())?));
    }
    match line.strip_prefix('%') {
        Some(text) => Ok(Some(by_digits(alloc, text)?)),
        None => Ok(None),
    }
}

/// The bytes that pairs of hexadecimal digits give, with blanks between; letters are upper case.
fn by_digits(alloc: Global, text: &str) -> Result<Vec<u8>, TableError> {
    let mut bytes = Vec::new(alloc);
    for word in text.split(' ') {
        match word.as_bytes() {
            [] => {}
            [high, low] => bytes.push(digit(*high)? * 16 + digit(*low)?)?,
            _ => return Err(TableError::BadRow),
        }
    }
    Ok(bytes)
}

/// The value of a hexadecimal digit, upper case.
fn digit(byte: u8) -> Result<u8, TableError>
    ensures { IfOk result (λ value. value < 16) }
{
    match byte {
        b'0'..=b'9' => Ok(byte - b'0'),
        b'A'..=b'F' => Ok(byte - b'A' + 10),
        _ => Err(TableError::BadRow),
    }
}
