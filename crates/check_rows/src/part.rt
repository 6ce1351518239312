ghost use Rattle.std.specs.{Prelude.{◌≡◌, ◌↔◌, IsTrue, option_map}, List.{All}};

use crate::block::{Block, Keyword, bytes_of, first};
use crate::errors::TableError;
use std::alloc::Global;

/// A part of a call, such as its status or a file: what is expected there, and what the call left, each
/// `None` for a file that doesn't exist.
#[derive(Drop)]
pub struct Part {
    pub name: String,
    pub wanted: Option<Vec<u8>>,
    pub got: Option<Vec<u8>>,
}

impl Part {
    /// Whether what is there is what is expected, byte for byte.
    pub fn is_met(&self) -> bool
        ensures { IsTrue result ↔ (option_map (λ bytes. bytes.items) self.now.wanted ≡ option_map (λ bytes. bytes.items) self.now.got) }
    {
        match (&self.wanted, &self.got) {
            (Some(wanted), Some(got)) => wanted.as_slice() == got.as_slice(),
            (None, None) => true,
            _ => false,
        }
    }
}

/// Whether each part has what is expected, byte for byte.
pub fn are_met(parts: &[Part]) -> bool
    ensures { IsTrue result ↔ All (λ part. option_map (λ bytes. bytes.items) part.wanted ≡ option_map (λ bytes. bytes.items) part.got) parts.now }
{
    parts.iter().all(|part| part.is_met())
}

/// A copy of bytes, if there are any.
fn copy_of(alloc: Global, bytes: Option<&[u8]>) -> Result<Option<Vec<u8>>, TableError> {
    match bytes {
        Some(bytes) => Ok(Some(Vec::from_slice(alloc, bytes)?)),
        None => Ok(None),
    }
}

/// A row that is tried, and the parts so far.
#[derive(Drop)]
pub struct Trial<'a> {
    pub alloc: Global,
    pub row: &'a [Block],
    /// The length of this call, if the row stands for a call for each length.
    pub length: Option<usize>,
    pub parts: Vec<Part>,
}

impl<'a> Trial<'a> {
    /// The bytes of the first block with a keyword, or their prefix if a length is given.
    pub fn prefix_of(&self, keyword: Keyword) -> Result<&'a [u8], TableError> {
        let bytes = bytes_of(self.row, keyword);
        match self.length {
            Some(length) => bytes.get(..length).ok_or(TableError::BadRow),
            None => Ok(bytes),
        }
    }

    /// Adds a part with copies of these bytes.
    pub fn add_part(
        &mut self,
        name: &str,
        wanted: Option<&[u8]>,
        got: Option<&[u8]>,
    ) -> Result<(), TableError> {
        let wanted = copy_of(self.alloc, wanted)?;
        let got = copy_of(self.alloc, got)?;
        let name = String::from_str(self.alloc, name)?;
        self.parts.push(Part { name, wanted, got })?;
        Ok(())
    }

    /// Adds a status to the parts.
    pub fn add_status(&mut self, got: &str) -> Result<(), TableError> {
        let wanted = match first(self.row, Keyword::Status) {
            Some(block) => Some(block.argument.as_str().as_bytes()),
            None => None,
        };
        self.add_part("status", wanted, Some(got.as_bytes()))
    }

    /// Adds the output to the parts.
    pub fn add_out(&mut self, got: &[u8]) -> Result<(), TableError> {
        self.add_part("out", Some(bytes_of(self.row, Keyword::Out)), Some(got))
    }
}
