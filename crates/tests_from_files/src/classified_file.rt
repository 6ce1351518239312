ghost use Rattle.std.specs.Prelude.{◌≡◌, ◌<◌, length};
ghost use Rattle.diy_io.specs.{Shelf.{Idle}, Opened.{name_at}};
ghost use Rattle.tests_from_files.specs.Read.{CycleTo, ClosedTo};

use crate::classified_errors::CycleFault;
use crate::quoted_cycle::cycle_of_text;
use crate::read_named_file;
use arch_trait::Arch;
use diy_io::{Failed, Shelf, Words};
use edge_algebra::Cycle;
use std::alloc::Global;

/// The cycle that is quoted by the test in the file that the argument at a position names. The file is read into
/// `text`, in pieces of at most the length of `piece`.
pub(crate) fn cycle_of_file<A: Arch, H: Shelf>(
    alloc: Global,
    shelf: &mut H,
    words: &Words,
    place: usize,
    piece: &mut [u8],
    text: &mut Vec<u8>,
) -> Result<Cycle, CycleFault>
    requires idle { (H.seen shelf.old).mode ≡ Idle }
    requires within { place < length words.now }
    requires some { 0 < length piece.old }
    ensures mode { (H.seen shelf.new).mode ≡ Idle }
    ensures files { (H.seen shelf.new).files ≡ (H.seen shelf.old).files }
    ensures file { CycleTo (record { arch = A.NAME; writing = A.writing }) (H.seen shelf.old) (H.seen shelf.new) (name_at words.now place) result }
{
    let closed = read_named_file(shelf, words, place, piece, text)?;
    closed_cycle::<A>(alloc, text.as_slice(), closed)
}

/// The cycle that is quoted by the test that a file's text is, given the result of closing the file. An error of the
/// text is returned also if closing failed.
fn closed_cycle<A: Arch>(
    alloc: Global,
    text: &[u8],
    closed: Result<(), Failed>,
) -> Result<Cycle, CycleFault>
    ensures { ClosedTo (record { arch = A.NAME; writing = A.writing }) text.now closed result }
{
    let cycle = cycle_of_text::<A>(alloc, text)?;
    closed?;
    Ok(cycle)
}
