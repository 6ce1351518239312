ghost use Rattle.std.specs.{Prelude.{◌≡◌, ◌≤◌, [], length, OnOk, Some}, List.{All}};
ghost use Rattle.diy_io.specs.{Page.{page_after, Sends}, Wrote.{Wrote}};
ghost use Rattle.final_cond.specs.{Conditions.{cond_view}, CondText.{cond_text}};
ghost use Rattle.litmus_text.specs.{KeptCells.{HoldsTable}, TestText.{test_text, with_line_feed}, Tests.{IsPrintable, test_seen}, TextParts.{text_from}};
ghost use Rattle.litmus_text.specs.declared.parts.TextPart.TheVariants as parts;

use crate::head::send_header;
use crate::kept::KeptTable;
use crate::parts::{TextPart, put_part};
use crate::test::Test;
use arch_trait::Arch;
use diy_io::{Failed, LINE_ROOM, Page, Sink};
use final_cond::{Cond, put_cond};

/// Appends the text of a test under a name, by the layout of the litmus format. Each operation must be
/// the architecture's, with a location that has a name and a label below 64; each address register
/// must be the architecture's and hold the address of a location that has a name. If the sink fails,
/// it has taken a prefix of the text.
pub fn print_test<A: Arch, O: Sink>(test: &Test, name: &str, out: &mut O) -> Result<(), Failed>
    requires { All (λ code. IsPrintable A.puts.has A.REGISTERS (length test.now.places) code) test.now.threads.items }
    ensures { Wrote (O.seen out.old) (O.seen out.new) (test_text A.NAME A.writing name.now (test_seen test.now)) result }
{
    let mut page = Page::new();
    print_test_by::<A, O>(test, name, &mut KeptTable::new(), &mut page, out)
}

/// Like `print_test`, but with the caller's `KeptTable` and page. The page must be empty, and it is
/// empty afterwards unless the sink failed.
pub fn print_test_by<A: Arch, O: Sink>(
    test: &Test,
    name: &str,
    table: &mut KeptTable,
    page: &mut Page,
    out: &mut O,
) -> Result<(), Failed>
    requires printable { All (λ code. IsPrintable A.puts.has A.REGISTERS (length test.now.places) code) test.now.threads.items }
    requires empty { page.old ≡ [] }
    ensures wrote { Wrote (O.seen out.old) (O.seen out.new) (test_text A.NAME A.writing name.now (test_seen test.now)) result }
    ensures empty { OnOk result (page.new ≡ []) }
{
    send_test::<A, O>(test, name, table, page, out)?;
    page.flush(out)
}

fn send_test<A: Arch, O: Sink>(
    test: &Test,
    name: &str,
    table: &mut KeptTable,
    page: &mut Page,
    out: &mut O,
) -> Result<(), Failed>
    requires { All (λ code. IsPrintable A.puts.has A.REGISTERS (length test.now.places) code) test.now.threads.items }
    ensures { Sends (O.seen out.old) page.old (O.seen out.new) page.new (test_text A.NAME A.writing name.now (test_seen test.now)) result }
{
    table.keep::<A>(test);
    send_header(A::NAME, name, page, out)?;
    send_parts::<A, O>(test, table, page, out)
}

/// Sends what comes after the header.
fn send_parts<A: Arch, O: Sink>(
    test: &Test,
    table: &KeptTable,
    page: &mut Page,
    out: &mut O,
) -> Result<(), Failed>
    requires printable { All (λ code. IsPrintable A.puts.has A.REGISTERS (length test.now.places) code) test.now.threads.items }
    requires kept { HoldsTable A.writing (test_seen test.now) table.now }
    ensures { Sends (O.seen out.old) page.old (O.seen out.new) page.new (text_from A.writing (test_seen test.now) (Some parts.Edges)) result }
{
    let mut next = Some(TextPart::Edges);
    while let Some(part) = next {
        page.spill(out)?;
        next = put_part::<A>(part, test, table, page);
    }
    Ok(())
}

/// Appends the condition to the page.
#[tactic(auto, using(diy_io::specs::PageLaws::page_more))]
pub(crate) fn print_condition(cond: &Cond, page: &mut Page)
    ensures text { page.new ≡ page_after page.old (with_line_feed (cond_text (cond_view cond.now))) }
    ensures short { length (with_line_feed (cond_text (cond_view cond.now))) ≤ LINE_ROOM }
{
    put_cond(cond, page);
    page.put_fixed(b"\n");
}
