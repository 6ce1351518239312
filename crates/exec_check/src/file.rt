ghost use Rattle.std.specs.Prelude.{◌≡◌, ◌<◌, length};
ghost use Rattle.diy_io.specs.{Shelf.{Idle}, Opened.{name_at}};
ghost use Rattle.exec_check.specs.CheckingSteps.{TestFileTo, TestClosedTo, ExecFileTo, ExecClosedTo};

use crate::checked_errors::CheckFault;
use crate::checking::judge;
use crate::verdict::Judged;
use arch_trait::Arch;
use diy_io::{Failed, Shelf, Words};
use litmus_text::ReadTest;
use std::alloc::Global;
use tests_from_files::{read_named_file, test_of_text};

/// How many bytes are read at once.
const PIECE: usize = 4_096;

/// Space for reading a file: one piece of it at a time, and its text.
#[derive(Drop)]
pub(crate) struct Room {
    piece: [u8; PIECE],
    text: Vec<u8>,
}

impl Room {
    pub(crate) fn new(alloc: Global) -> Room {
        Room {
            piece: [0; PIECE],
            text: Vec::new(alloc),
        }
    }
}

/// The test in the file that the argument at a position names.
pub(crate) fn test_in_file<A: Arch, H: Shelf>(
    alloc: Global,
    shelf: &mut H,
    words: &Words,
    place: usize,
    room: &mut Room,
) -> Result<ReadTest<A>, CheckFault>
    requires idle { (H.seen shelf.old).mode ≡ Idle }
    requires within { place < length words.now }
    ensures mode { (H.seen shelf.new).mode ≡ Idle }
    ensures files { (H.seen shelf.new).files ≡ (H.seen shelf.old).files }
    ensures file { TestFileTo A.NAME A.writing (H.seen shelf.old) (H.seen shelf.new) (name_at words.now place) result }
{
    let closed = read_named_file(shelf, words, place, &mut room.piece, &mut room.text)?;
    closed_test::<A>(alloc, room.text.as_slice(), closed)
}

/// The test that a file's text is, if closing the file returned `closed`. An error in the text is returned even if
/// closing failed.
fn closed_test<A: Arch>(
    alloc: Global,
    text: &[u8],
    closed: Result<(), Failed>,
) -> Result<ReadTest<A>, CheckFault>
    ensures { TestClosedTo A.NAME A.writing text.now closed result }
{
    let test = test_of_text::<A>(alloc, text)?;
    closed?;
    Ok(test)
}

/// The execution of a test in the file that the argument at a position names, with the verdict on it.
pub(crate) fn execution_in_file<A: Arch, H: Shelf>(
    alloc: Global,
    test: &ReadTest<A>,
    shelf: &mut H,
    words: &Words,
    place: usize,
    room: &mut Room,
) -> Result<Judged, CheckFault>
    requires idle { (H.seen shelf.old).mode ≡ Idle }
    requires within { place < length words.now }
    ensures mode { (H.seen shelf.new).mode ≡ Idle }
    ensures files { (H.seen shelf.new).files ≡ (H.seen shelf.old).files }
    ensures file { ExecFileTo A.NAME A.writing test.now (H.seen shelf.old) (H.seen shelf.new) (name_at words.now place) result }
{
    let closed = read_named_file(shelf, words, place, &mut room.piece, &mut room.text)?;
    closed_execution::<A>(alloc, test, room.text.as_slice(), closed)
}

/// The execution that a file's text gives, with the verdict on it, in the same way as `closed_test`.
fn closed_execution<A: Arch>(
    alloc: Global,
    test: &ReadTest<A>,
    text: &[u8],
    closed: Result<(), Failed>,
) -> Result<Judged, CheckFault>
    ensures { ExecClosedTo A.NAME A.writing test.now text.now closed result }
{
    let judged = judge::<A>(alloc, test, text)?;
    closed?;
    Ok(judged)
}
