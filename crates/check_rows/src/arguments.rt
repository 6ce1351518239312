use crate::block::{Block, Keyword, first};
use crate::errors::TableError;
use std::alloc::Global;

/// The number that a text is, or `BadRow` if it is none.
pub fn number_in(text: &str) -> Result<usize, TableError> {
    text.parse::<usize>().ok().ok_or(TableError::BadRow)
}

/// The number after a keyword of a row, or `otherwise` if the row doesn't have the keyword.
pub fn number_of(row: &[Block], keyword: Keyword, otherwise: usize) -> Result<usize, TableError> {
    match first(row, keyword) {
        Some(block) => number_in(block.argument.as_str()),
        None => Ok(otherwise),
    }
}

/// The numbers after a keyword of a row; none if the row doesn't have the keyword.
pub fn numbers_of(alloc: Global, row: &[Block], keyword: Keyword) -> Result<Vec<u64>, TableError> {
    let mut numbers = Vec::new(alloc);
    if let Some(block) = first(row, keyword) {
        for word in block.argument.as_str().split(' ') {
            numbers.push(number_in(word)? as u64)?;
        }
    }
    Ok(numbers)
}
