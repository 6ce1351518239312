ghost use Rattle.std.specs.{Prelude.{◌≡◌, ◌≤◌, [], ◌∷◌, length, map, OnOk, OnErr}, List.{All}};
ghost use Rattle.diy_io.specs.Shelf.{Idle};
ghost use Rattle.litmus_text.specs.{KeptCells.{HoldsTable}, Tests.{IsPrintable, test_seen}, TestText.{test_text}, declared.limits.TheConstants.{MAX_TEST_NAME}};
ghost use Rattle.tests_to_files.specs.{GivenCycles.{PutUpTo}, Putting.{PutFiles, PutPart, file_put}};

use crate::files::Path;
use arch_trait::Arch;
use diy_io::{Failed, Page, SPILL, Shelf};
use litmus_text::{KeptTable, Test, TextPart, put_header, put_part};

/// A file that is to be written on a shelf.
#[derive(Drop)]
pub struct File<'a> {
    /// Its name, with its folder.
    pub path: Path,
    /// All bytes that it is to have.
    pub bytes: &'a [u8],
}

/// Writes files on the shelf, one after another. If the shelf fails at one, those before it are complete, and that
/// one is as it was or has a prefix of its bytes. The shelf has no open file before and after.
pub fn put_files<H: Shelf>(files: &[File], shelf: &mut H) -> Result<(), Failed>
    requires { (H.seen shelf.old).mode ≡ Idle }
    ensures ok { OnOk result (PutFiles (H.seen shelf.old) (H.seen shelf.new) (map file_put files.now)) }
    ensures failed { OnErr result (PutUpTo (H.seen shelf.old) (H.seen shelf.new) (map file_put files.now)) }
{
    for file in files {
        put_file(file.path.as_str(), file.bytes, shelf)?;
    }
    Ok(())
}

/// Writes a file on the shelf. If the shelf fails, the file is as it was, or has a prefix of the bytes.
pub fn put_file<H: Shelf>(path: &str, bytes: &[u8], shelf: &mut H) -> Result<(), Failed>
    requires { (H.seen shelf.old).mode ≡ Idle }
    ensures ok { OnOk result (PutFiles (H.seen shelf.old) (H.seen shelf.new) ((path.now, bytes.now) ∷ [])) }
    ensures failed { OnErr result (PutPart (H.seen shelf.old) (H.seen shelf.new) [] path.now bytes.now) }
{
    shelf.create(path)?;
    shelf.append(bytes)?;
    shelf.finish()
}

/// Writes a file on the shelf that has the text of a test under a name, by way of a page. What the page held doesn't matter.
/// If the shelf fails, the file is as it was, or has a prefix of the text.
pub fn put_text<A: Arch, H: Shelf>(
    path: &str,
    name: &str,
    test: &Test,
    table: &KeptTable,
    page: &mut Page,
    shelf: &mut H,
) -> Result<(), Failed>
    requires printable { All (λ code. IsPrintable A.puts.has A.REGISTERS (length test.now.places) code) test.now.threads.items }
    requires kept { HoldsTable A.writing (test_seen test.now) table.now }
    requires named { length name.now ≤ MAX_TEST_NAME }
    requires idle { (H.seen shelf.old).mode ≡ Idle }
    ensures ok { OnOk result (PutFiles (H.seen shelf.old) (H.seen shelf.new) ((path.now, test_text A.NAME A.writing name.now (test_seen test.now)) ∷ [])) }
    ensures failed { OnErr result (PutPart (H.seen shelf.old) (H.seen shelf.new) [] path.now (test_text A.NAME A.writing name.now (test_seen test.now))) }
{
    shelf.create(path)?;
    page.clear();
    put_header::<A>(name, page);
    let mut next = Some(TextPart::Edges);
    while let Some(part) = next {
        if page.as_slice().len() >= SPILL {
            shelf.append(page.as_slice())?;
            page.clear();
        }
        next = put_part::<A>(part, test, table, page);
    }
    shelf.append(page.as_slice())?;
    shelf.finish()
}
