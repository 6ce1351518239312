ghost use Rattle.std.specs.Prelude.{◌≡◌, ◌<◌, length};
ghost use Rattle.diy_io.specs.Shelf.{Idle};
ghost use Rattle.exec_check.specs.FilesChecked.{FilesChecked};

use crate::checked_errors::CheckEnd;
use crate::file::{Room, execution_in_file, test_in_file};
use crate::shown::{Shown, write_shown};
use arch_trait::Arch;
use diy_io::{Shelf, Sink, Words};
use exec_graph::DrawError;
use std::alloc::Global;

/// The positions of the arguments that name the two files, from 0.
#[derive(Clone, Copy)]
pub struct FileWords {
    pub test: usize,
    pub exec: usize,
}

/// Reads the file that the argument at position `files.test` names, as a test of an architecture, then the file that
/// the argument at `files.exec` names, as an execution of that test, and then writes what is to be shown: the verdict
/// on the execution, as `crate::write_verdict` does, or, if `shown` is `Shown::Graph` and it is a candidate, its graph.
///
/// Each file is opened once, and read to its end, or up to one byte more than a test may have, before it is judged.
/// If one is wrong or doesn't exist, or the shelf fails, or there is no memory, nothing is read after that, and
/// nothing is written. An error in a text is returned even if closing its file fails.
pub fn check_files<A: Arch, H: Shelf, O: Sink>(
    alloc: Global,
    words: &Words,
    files: FileWords,
    shown: Shown,
    shelf: &mut H,
    out: &mut O,
) -> CheckEnd
    requires idle { (H.seen shelf.old).mode ≡ Idle }
    requires test_within { files.test < length words.now }
    requires exec_within { files.exec < length words.now }
    ensures checked { FilesChecked shown A.NAME A.writing (H.seen shelf.old) (H.seen shelf.new) words.now files.test files.exec (O.seen out.old) (O.seen out.new) result }
    ensures mode { (H.seen shelf.new).mode ≡ Idle }
    ensures files { (H.seen shelf.new).files ≡ (H.seen shelf.old).files }
{
    let FileWords { test, exec } = files;
    let mut room = Room::new(alloc);
    let read = match test_in_file::<A, H>(alloc, shelf, words, test, &mut room) {
        Ok(read) => read,
        Err(fault) => return fault.end_at(test),
    };
    let judged = match execution_in_file(alloc, &read, shelf, words, exec, &mut room) {
        Ok(judged) => judged,
        Err(fault) => return fault.end_at(exec),
    };
    match write_shown(alloc, shown, &read, &judged, out) {
        Ok(()) => CheckEnd::Done,
        Err(DrawError::NoMemory) => CheckEnd::NoMemory,
        Err(DrawError::OutFault) => CheckEnd::OutFault,
    }
}
