ghost use Rattle.std.specs.Prelude.{◌≡◌, ◌<◌, length};
ghost use Rattle.diy_io.specs.{Shelf.{Idle, IsReading}, Opened.{name_at}};
ghost use Rattle.tests_from_files.specs.{FilesRead.{FileTo}, OpenFiles.{OpenTo}};

use crate::errors::{FileFault, ReadFault};
use crate::text::read_text;
use diy_io::{Failed, OpenError, Shelf, Words};

/// Reads the file that the argument at a position names into `text`, replacing what that held, to its end or up to one
/// byte more than a test may have, and closes it. The inner result is that of closing: the text was read also if that
/// failed.
///
/// A `FileFault` says that the file doesn't exist, that the shelf failed before all of this was read, or that there is
/// no memory for the text. The shelf has no open file before and after. The file is read in pieces of at most the
/// length of `piece`, which isn't empty.
pub fn read_named_file<H: Shelf>(
    shelf: &mut H,
    words: &Words,
    place: usize,
    piece: &mut [u8],
    text: &mut Vec<u8>,
) -> Result<Result<(), Failed>, FileFault>
    requires idle { (H.seen shelf.old).mode ≡ Idle }
    requires within { place < length words.now }
    requires some { 0 < length piece.old }
    ensures mode { (H.seen shelf.new).mode ≡ Idle }
    ensures files { (H.seen shelf.new).files ≡ (H.seen shelf.old).files }
    ensures file { FileTo (H.seen shelf.old) (H.seen shelf.new) (name_at words.now place) text.new.items result }
{
    read_file(shelf, words.get(place), piece, text)
}

/// Reads the file with a name in this way.
fn read_file<H: Shelf>(
    shelf: &mut H,
    name: &str,
    piece: &mut [u8],
    text: &mut Vec<u8>,
) -> Result<Result<(), Failed>, FileFault>
    requires idle { (H.seen shelf.old).mode ≡ Idle }
    requires some { 0 < length piece.old }
    ensures mode { (H.seen shelf.new).mode ≡ Idle }
    ensures files { (H.seen shelf.new).files ≡ (H.seen shelf.old).files }
    ensures file { FileTo (H.seen shelf.old) (H.seen shelf.new) name.now text.new.items result }
{
    match shelf.open_file(name) {
        Ok(()) => read_open(shelf, piece, text),
        Err(OpenError::Missing) => Err(FileFault::Missing),
        Err(OpenError::Failed) => Err(FileFault::Failed),
    }
}

/// Reads the file that is open in this way, and closes it.
fn read_open<H: Shelf>(
    shelf: &mut H,
    piece: &mut [u8],
    text: &mut Vec<u8>,
) -> Result<Result<(), Failed>, FileFault>
    requires reading { IsReading (H.seen shelf.old).mode }
    requires some { 0 < length piece.old }
    ensures mode { (H.seen shelf.new).mode ≡ Idle }
    ensures files { (H.seen shelf.new).files ≡ (H.seen shelf.old).files }
    ensures open { OpenTo (H.seen shelf.old) (H.seen shelf.new) text.new.items result }
{
    match read_text(shelf, piece, text) {
        Ok(()) => Ok(shelf.finish()),
        Err(ReadFault::Failed) => Err(FileFault::Failed),
        Err(ReadFault::NoMemory) => {
            let _ = shelf.finish();
            Err(FileFault::NoMemory)
        }
    }
}
