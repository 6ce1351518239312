ghost use Rattle.std.specs.{Prelude.{◌≡◌, ◌≤◌, ◌∷◌, [], length, None, OnOk, OnErr}, List.{All}, Option.{ForSome}};
ghost use Rattle.diy_io.specs.Shelf.{Idle};
ghost use Rattle.test_maker.specs.Refusals.{refusal_of};
ghost use Rattle.tests_to_files.specs.{ListedFiles.{file_lines}, GivenCycles.{PutUpTo, EndsPutting, given_files_of}, Plans.{test_files_of}};
ghost use Rattle.tests_to_files.specs.Putting.{PutFiles, PutPart};

use crate::ending::ListingEnd;
use crate::files::{Path, path_of};
use crate::listing::{put_test, write_count};
use crate::making::Desk;
use crate::names::{MAX_LISTED_LINE, file_of, push_line};
use crate::wanted::Wanted;
use arch_trait::{Arch, Places, ThreadCodes};
use arrayvec::{ArrayString, ArrayVec};
use diy_io::{Failed, MAX_FOLDER, Page, Shelf, Sink};
use edge_algebra::Cycle;
use final_cond::Cond;
use litmus_text::{KeptTable, Test};
use relax_edges::{MAX_EDGES, ObsMode};

/// Writes a file for each of some cycles, in their order, then the file `@all` that names them, and
/// then a line on their number to `out`. It allocates no memory.
///
/// Each cycle must have a test on the architecture in the mode. The files have the texts and the names
/// that `list_tests` gives them, numbered from 0. Cycles that are rotations of each other have one
/// name; if it has at most 200 bytes, the later one's file replaces the earlier one's.
///
/// `ShelfFault` comes only if the shelf's error count rose or is at its maximum. Then the files before one are
/// complete, that one is as it was or has a prefix of its text, no other file changed, and nothing is written to
/// `out`. `OutFault` comes only if the error count of `out` rose or is at its maximum. Then all files are complete,
/// and `out` has a prefix of the line. The shelf has no open file before and after.
pub fn put_cycles<A: Arch, H: Shelf, O: Sink>(
    cycles: &[Cycle],
    mode: ObsMode,
    folder: Option<&str>,
    shelf: &mut H,
    out: &mut O,
) -> ListingEnd
    requires tests { All (λ cycle. refusal_of A.puts cycle mode ≡ None) cycles.now }
    requires folder { ForSome folder (λ folder. length folder.now ≤ MAX_FOLDER) }
    requires idle { (H.seen shelf.old).mode ≡ Idle }
    ensures { EndsPutting O.seen A.puts A.writing mode folder.entry cycles.now result (H.seen shelf.old) (H.seen shelf.new) out.old out.new }
{
    let wanted = Wanted {
        threads: MAX_EDGES as u8,
        accesses: None,
        mode,
        folder,
    };
    match put_given::<A, H>(&wanted, cycles, shelf) {
        Ok(()) => {}
        Err(Failed) => return ListingEnd::ShelfFault,
    }
    match write_count(cycles.len() as u128, out) {
        Ok(()) => ListingEnd::Done,
        Err(Failed) => ListingEnd::OutFault,
    }
}

/// Writes the files of cycles on the shelf, and then the one that names them.
fn put_given<A: Arch, H: Shelf>(
    wanted: &Wanted,
    cycles: &[Cycle],
    shelf: &mut H,
) -> Result<(), Failed>
    requires tests { All (λ cycle. refusal_of A.puts cycle wanted.now.mode ≡ None) cycles.now }
    requires folder { ForSome wanted.now.folder (λ folder. length folder.now ≤ MAX_FOLDER) }
    requires idle { (H.seen shelf.old).mode ≡ Idle }
    ensures ok { OnOk result (PutFiles (H.seen shelf.old) (H.seen shelf.new) (given_files_of A.puts A.writing wanted.now cycles.now)) }
    ensures failed { OnErr result (PutUpTo (H.seen shelf.old) (H.seen shelf.new) (given_files_of A.puts A.writing wanted.now cycles.now)) }
{
    // It is written out here, and not made by a call of `Test::new`, for the reasons given at `Desk`.
    let mut test = Test {
        edges: ArrayVec::new(),
        places: Places::new(),
        threads: ThreadCodes::new(),
        cond: Cond::default(),
    };
    put_tests_of::<A, H>(wanted, cycles, &mut test, shelf)?;
    let path = path_of(wanted.folder, "@all");
    put_names_of(path.as_str(), cycles, shelf)
}

/// Writes the files of the tests of cycles on the shelf. Each test is made in `test`.
#[inline(never)]
fn put_tests_of<A: Arch, H: Shelf>(
    wanted: &Wanted,
    cycles: &[Cycle],
    test: &mut Test,
    shelf: &mut H,
) -> Result<(), Failed>
    requires tests { All (λ cycle. refusal_of A.puts cycle wanted.now.mode ≡ None) cycles.now }
    requires folder { ForSome wanted.now.folder (λ folder. length folder.now ≤ MAX_FOLDER) }
    requires idle { (H.seen shelf.old).mode ≡ Idle }
    ensures ok { OnOk result (PutFiles (H.seen shelf.old) (H.seen shelf.new) (test_files_of A.puts A.writing wanted.now cycles.now)) }
    ensures failed { OnErr result (PutUpTo (H.seen shelf.old) (H.seen shelf.new) (test_files_of A.puts A.writing wanted.now cycles.now)) }
{
    let mut desk = Desk {
        name: ArrayString::new(),
        path: Path::new(),
        table: KeptTable::new(),
        page: Page::new(),
    };
    let mut number: u128 = 0;
    for cycle in cycles {
        put_test::<A, H>(wanted, cycle, number, test, &mut desk, shelf)?;
        number = number.saturating_add(1);
    }
    Ok(())
}

/// The most bytes of lines that wait to be written. None is read again, so a small buffer, which is cleared fast, is enough.
const MAX_WAITING: usize = 8_192;

/// Writes the file on the shelf that names the files of cycles, numbered from 0.
fn put_names_of<H: Shelf>(path: &str, cycles: &[Cycle], shelf: &mut H) -> Result<(), Failed>
    requires idle { (H.seen shelf.old).mode ≡ Idle }
    ensures ok { OnOk result (PutFiles (H.seen shelf.old) (H.seen shelf.new) ((path.now, file_lines 0 cycles.now) ∷ [])) }
    ensures failed { OnErr result (PutPart (H.seen shelf.old) (H.seen shelf.new) [] path.now (file_lines 0 cycles.now)) }
{
    shelf.create(path)?;
    let mut lines: ArrayVec<u8, MAX_WAITING> = ArrayVec::new();
    let mut number: u128 = 0;
    for cycle in cycles {
        if lines.remaining_capacity() < MAX_LISTED_LINE {
            shelf.append(lines.as_slice())?;
            lines.clear();
        }
        push_line(&file_of(cycle, number), &mut lines);
        number = number.saturating_add(1);
    }
    shelf.append(lines.as_slice())?;
    shelf.finish()
}
