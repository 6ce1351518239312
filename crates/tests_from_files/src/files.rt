ghost use Rattle.std.specs.{Prelude.{◌≡◌, ◌<◌, length}, List.{All}};
ghost use Rattle.diy_io.specs.Shelf.{Idle};
ghost use Rattle.tests_from_files.specs.FilesEnds.{ClassifiesFiles};

use crate::classified_errors::FilesEnd;
use crate::classified_file::cycle_of_file;
use arch_trait::Arch;
use cycles_from_lines::Families;
use diy_io::{Failed, NoMemory, Shelf, Sink, Words};
use std::alloc::Global;

/// The most bytes that are read at once: 4,096.
const PIECE: usize = 4_096;

/// Reads the files that the arguments at these positions name, in order, as tests of an architecture, and then writes
/// the names of the cycles that they quote by their families, as `Families` does.
///
/// A file is opened once, and read to its end, or up to one byte more than a test may have. If one has an error or
/// doesn't exist, or the shelf fails, or there is no memory, nothing is read after that, and nothing is written. The
/// shelf has no open file before and after.
pub fn classify_files<A: Arch, H: Shelf, O: Sink>(
    alloc: Global,
    words: &Words,
    places: &[usize],
    shelf: &mut H,
    out: &mut O,
) -> FilesEnd
    requires idle { (H.seen shelf.old).mode ≡ Idle }
    requires within { All (λ place. place < length words.now) places.now }
    ensures classified { ClassifiesFiles A.NAME A.writing words.now places.now result (H.seen shelf.old) (H.seen shelf.new) (O.seen out.old) (O.seen out.new) }
    ensures mode { (H.seen shelf.new).mode ≡ Idle }
    ensures files { (H.seen shelf.new).files ≡ (H.seen shelf.old).files }
{
    let mut piece = [0; PIECE];
    let mut text = Vec::new(alloc);
    let Ok(mut families) = Families::new(alloc) else {
        return FilesEnd::NoMemory;
    };
    for place in places {
        match cycle_of_file::<A, H>(alloc, shelf, words, *place, &mut piece, &mut text) {
            Ok(cycle) => match families.put(&cycle) {
                Ok(()) => {}
                Err(NoMemory) => return FilesEnd::NoMemory,
            },
            Err(fault) => return fault.end_at(*place),
        }
    }
    match families.write(out) {
        Ok(()) => FilesEnd::Done,
        Err(Failed) => FilesEnd::OutFault,
    }
}
