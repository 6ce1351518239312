ghost use Rattle.std.specs.Prelude.{◌≡◌, IfOk};
ghost use Rattle.diy_io.specs.Shelf.{Idle};

use crate::arguments::{number_of, numbers_of};
use crate::block::{Block, Keyword, bytes_of, find_block, first};
use crate::errors::TableError;
use crate::part::Trial;
use crate::read_all::read_all;
use diy_io::{Sink, TallySink, Words};
use diy_tools::run;
use memory_devices::{MemShelf, MemSink, MemSource};
use std::alloc::Global;
use std::str;

/// Adds arguments that blanks separate.
fn push_words(words: &mut Words, text: &str) -> Result<(), TableError> {
    for word in text.split(' ') {
        words.push(word)?;
    }
    Ok(())
}

/// The arguments of a row's call: those that blanks separate, and those of a line of their own with the
/// bytes below it.
fn words_of(alloc: Global, row: &[Block]) -> Result<Words, TableError> {
    let mut words = Words::new(alloc);
    for block in row {
        let argument = block.argument.as_str();
        match block.keyword {
            Keyword::Words => push_words(&mut words, argument)?,
            Keyword::Word => {
                let below = str::from_utf8(block.bytes.as_slice()).ok();
                let mut word = String::from_str(alloc, argument)?;
                word.push_str(below.ok_or(TableError::BadRow)?)?;
                words.push(word.as_str())?;
            }
            _ => {}
        }
    }
    Ok(words)
}

/// The input of a row.
fn input_of(alloc: Global, row: &[Block]) -> Result<MemSource, TableError> {
    let piece = number_of(row, Keyword::Piece, 4096)?;
    let fail = numbers_of(alloc, row, Keyword::FailInput)?;
    let bytes = Vec::from_slice(alloc, bytes_of(row, Keyword::Input))?;
    Ok(MemSource::new(bytes, piece.max(1), fail))
}

/// The shelf of a row with its files.
fn shelf_of(alloc: Global, row: &[Block]) -> Result<MemShelf, TableError>
    ensures { IfOk result (λ shelf. shelf.mode ≡ Idle) }
{
    let wanted = row
        .iter()
        .filter(|block| block.keyword == Keyword::Wanted)
        .count();
    let names = number_of(row, Keyword::Names, wanted)?;
    let room = number_of(row, Keyword::RoomShelf, 4096)?;
    let fail = numbers_of(alloc, row, Keyword::FailShelf)?;
    let mut shelf = MemShelf::new(alloc, names, room, fail)?;
    for block in row {
        if block.keyword == Keyword::File {
            put_file(block, &mut shelf)?;
        }
    }
    Ok(shelf)
}

/// Puts a file on the shelf.
fn put_file(block: &Block, shelf: &mut MemShelf) -> Result<(), TableError>
    requires { shelf.old.mode ≡ Idle }
    ensures { shelf.new.mode ≡ Idle }
{
    let name = block.argument.as_str();
    if name.len() > 1300 {
        return Err(TableError::BadRow);
    }
    shelf.put(name, block.bytes.as_slice())?;
    Ok(())
}

/// The input of a call, and the shelf with its files.
#[derive(Drop)]
struct Devices {
    input: MemSource,
    shelf: MemShelf,
}

impl Trial<'_> {
    /// Calls `run` as the row says, with space for `length` bytes of output if a length is given, and adds
    /// the parts: what the row expects, and what the call left.
    pub fn call(&mut self) -> Result<(), TableError> {
        let mut devices = Devices {
            input: input_of(self.alloc, self.row)?,
            shelf: shelf_of(self.alloc, self.row)?,
        };
        self.call_before(&mut devices.shelf)?;
        match first(self.row, Keyword::Tally) {
            Some(block) => self.call_counting(block, &mut devices)?,
            None => self.call_keeping(&mut devices)?,
        }
        if let Some(block) = first(self.row, Keyword::Left) {
            let left = read_all(self.alloc, &mut devices.input)?;
            self.add_part("left", Some(block.bytes.as_slice()), Some(left.as_slice()))?;
        }
        for block in self.row {
            self.add_file(block, &devices.shelf)?;
        }
        Ok(())
    }

    /// Makes the call that comes first, if the row has one. Of what it does only the files on the shelf are kept.
    fn call_before(&self, shelf: &mut MemShelf) -> Result<(), TableError>
        requires { shelf.old.mode ≡ Idle }
        ensures { shelf.new.mode ≡ Idle }
    {
        if let Some(block) = first(self.row, Keyword::Before) {
            let mut words = Words::new(self.alloc);
            push_words(&mut words, block.argument.as_str())?;
            let none = Vec::new(self.alloc);
            let mut input = MemSource::new(Vec::new(self.alloc), 1, none);
            let mut out = TallySink::new();
            let mut err = TallySink::new();
            let _ = run(self.alloc, &words, &mut input, &mut out, &mut err, shelf);
        }
        Ok(())
    }

    /// Calls `run` with a sink in memory, and adds its bytes to the parts.
    fn call_keeping(&mut self, devices: &mut Devices) -> Result<(), TableError>
        requires { devices.old.shelf.mode ≡ Idle }
    {
        let room = match self.length {
            Some(length) => length,
            None => number_of(self.row, Keyword::RoomOut, 4096)?,
        };
        let wanted = self.prefix_of(Keyword::Out)?;
        let mut out = MemSink::new(self.alloc, room)?;
        self.call_into(&mut out, devices)?;
        self.add_part("out", Some(wanted), Some(out.bytes()))
    }

    /// Calls `run` with a sink that counts, and adds its counts to the parts.
    fn call_counting(&mut self, tally: &Block, devices: &mut Devices) -> Result<(), TableError>
        requires { devices.old.shelf.mode ≡ Idle }
    {
        let mut out = TallySink::new();
        self.call_into(&mut out, devices)?;
        let bytes = out.bytes();
        let lines = out.lines();
        let got = format!(in self.alloc; "{bytes} {lines}")?;
        let wanted = tally.argument.as_str().as_bytes();
        self.add_part("tally", Some(wanted), Some(got.as_str().as_bytes()))
    }

    /// Calls `run`, and adds the status and the bytes on standard error to the parts.
    fn call_into<O: Sink>(&mut self, out: &mut O, devices: &mut Devices) -> Result<(), TableError>
        requires { devices.old.shelf.mode ≡ Idle }
    {
        let room = number_of(self.row, Keyword::RoomErr, 4096)?;
        let words = words_of(self.alloc, self.row)?;
        let mut err = MemSink::new(self.alloc, room)?;
        let Devices { input, shelf } = devices;
        let status = run(self.alloc, &words, input, out, &mut err, shelf);
        let exit = status.exit();
        let got = format!(in self.alloc; "{exit} {status:?}")?;
        self.add_status(got.as_str())?;
        let wanted = bytes_of(self.row, Keyword::Err);
        self.add_part("err", Some(wanted), Some(err.bytes()))
    }

    /// Adds a file to the parts if the block is about one, including a file that must not change.
    fn add_file(&mut self, block: &Block, shelf: &MemShelf) -> Result<(), TableError> {
        let name = block.argument.as_str();
        let is_changed = find_block(self.row, Keyword::Wanted, name).is_some()
            || find_block(self.row, Keyword::Absent, name).is_some();
        let wanted = match block.keyword {
            Keyword::File if is_changed => return Ok(()),
            Keyword::File | Keyword::Wanted => Some(block.bytes.as_slice()),
            Keyword::Absent => None,
            _ => return Ok(()),
        };
        self.add_part(name, wanted, shelf.get(name))
    }
}
