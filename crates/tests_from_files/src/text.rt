ghost use Rattle.std.specs.Prelude.{◌≡◌, ◌<◌, ◌≤◌, [], length, take, IfOk, OnErr};
ghost use Rattle.diy_io.specs.Shelf.{Gave, IsReading, Stopped};
ghost use Rattle.tests_from_files.specs.OpenFiles.{FileReadTo};

use crate::errors::ReadFault;
use diy_io::{Failed, Shelf};
use litmus_text::MAX_TEST_TEXT;

/// Reads the file that is open into `text`, replacing what that held, to its end or up to one byte more than a test
/// may have. The file stays open unless the shelf fails. It is read in pieces of at most the length of `piece`.
pub(crate) fn read_text<H: Shelf>(
    shelf: &mut H,
    piece: &mut [u8],
    text: &mut Vec<u8>,
) -> Result<(), ReadFault>
    requires reading { IsReading (H.seen shelf.old).mode }
    requires some { 0 < length piece.old }
    ensures read { FileReadTo (H.seen shelf.old) (H.seen shelf.new) text.new.items result }
{
    text.clear();
    loop {
        let room = piece.len().min(MAX_TEST_TEXT + 1 - text.len());
        let count = match read_piece(shelf, piece, room) {
            Ok(0) => return Ok(()),
            Ok(count) => count,
            Err(Failed) => return Err(ReadFault::Failed),
        };
        match text.extend_from_slice(&piece[..count]) {
            Ok(()) => {}
            Err(_) => return Err(ReadFault::NoMemory),
        }
        if text.len() > MAX_TEST_TEXT {
            return Ok(());
        }
    }
}

/// Reads at most `room` bytes of the file that is open into the start of `piece`, and returns how many.
fn read_piece<H: Shelf>(shelf: &mut H, piece: &mut [u8], room: usize) -> Result<usize, Failed>
    requires reading { IsReading (H.seen shelf.old).mode }
    requires some { 0 < room }
    requires within { room ≤ length piece.old }
    ensures bound { IfOk result (λ count. count ≤ room) }
    ensures gave { IfOk result (λ count. Gave (H.seen shelf.old) (H.seen shelf.new) (take count piece.new) room) }
    ensures failed { OnErr result (Stopped (H.seen shelf.old) (H.seen shelf.new)) }
{
    shelf.read(&mut piece[..room])
}
