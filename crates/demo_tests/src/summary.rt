ghost use Rattle.std.specs.{Prelude.{◌≡◌, ◌<◌, length, replicate}, List.{All}};
ghost use Rattle.diy_io.specs.{Page.{Sends}, Wrote.{Wrote}};
ghost use Rattle.demo_tests.specs.TestCounting.{Fits, test_counted, nothing_counted, CountsAt};
ghost use Rattle.demo_tests.specs.DemoText.{family_line, family_lines, tally_line, summary_lines};

use crate::tally::TestTally;
use cycle_names::{FAMILIES, Family};
use diy_io::{Failed, Page, Sink, TallySink};
use itoa::Buffer;

/// How many families have a cycle.
pub(crate) const FAMILY_COUNT: usize = 14;

/// What is counted in the tests of each family, and in all.
#[derive(Drop)]
pub(crate) struct Summary {
    pub(crate) families: [TestTally; FAMILY_COUNT],
    pub(crate) all: TestTally,
}

impl Summary {
    /// The summary of no tests.
    pub(crate) fn new() -> Summary
        ensures families { result.families ≡ replicate 14 nothing_counted }
        ensures all { result.all ≡ nothing_counted }
    {
        Summary {
            families: [TestTally::new(); FAMILY_COUNT],
            all: TestTally::new(),
        }
    }

    /// Counts one more test, of the family at an index of the table, given the tally of its text.
    pub(crate) fn count(&mut self, place: usize, text: &TallySink)
        requires place { place < length self.old.families }
        requires families { All (Fits text.now) self.old.families }
        requires all { Fits text.now self.old.all }
        ensures families { CountsAt self.old.families self.new.families place text.now }
        ensures all { self.new.all ≡ test_counted text.now self.old.all }
    {
        self.families[place].count(text);
        self.all.count(text);
    }

    /// Writes a line for each family that had a test, and then one for all. If the sink fails, it has
    /// taken a prefix of them.
    pub(crate) fn write<O: Sink>(&self, out: &mut O) -> Result<(), Failed>
        ensures { Wrote (O.seen out.old) (O.seen out.new) (summary_lines self.now.families self.now.all) result }
    {
        let mut page = Page::new();
        self.send(&mut page, out)?;
        page.flush(out)
    }

    fn send<O: Sink>(&self, page: &mut Page, out: &mut O) -> Result<(), Failed>
        ensures { Sends (O.seen out.old) page.old (O.seen out.new) page.new (summary_lines self.now.families self.now.all) result }
    {
        send_families(&FAMILIES, &self.families, page, out)?;
        send_line(b"total", &self.all, page, out)
    }
}

fn send_families<O: Sink>(
    families: &[Family],
    tallies: &[TestTally],
    page: &mut Page,
    out: &mut O,
) -> Result<(), Failed>
    ensures { Sends (O.seen out.old) page.old (O.seen out.new) page.new (family_lines families.now tallies.now) result }
{
    match families {
        [] => Ok(()),
        [family, families_left @ ..] => match tallies {
            [] => Ok(()),
            [tally, tallies_left @ ..] => {
                send_family(*family, tally, page, out)?;
                send_families(families_left, tallies_left, page, out)
            }
        },
    }
}

#[tactic(auto, using(diy_io::specs::PageLaws::sent_nothing), unfolding(crate::specs::DemoText::family_line))]
fn send_family<O: Sink>(
    family: Family,
    tally: &TestTally,
    page: &mut Page,
    out: &mut O,
) -> Result<(), Failed>
    ensures { Sends (O.seen out.old) page.old (O.seen out.new) page.new (family_line family tally.now) result }
{
    if tally.tests == 0 {
        return Ok(());
    }
    send_line(family.word().as_bytes(), tally, page, out)
}

fn send_line<O: Sink>(
    word: &[u8],
    tally: &TestTally,
    page: &mut Page,
    out: &mut O,
) -> Result<(), Failed>
    ensures { Sends (O.seen out.old) page.old (O.seen out.new) page.new (tally_line word.now tally.now) result }
{
    let mut tests = Buffer::new();
    let tests = tests.format(tally.tests).as_bytes();
    let mut lines = Buffer::new();
    let lines = lines.format(tally.lines).as_bytes();
    let mut bytes = Buffer::new();
    let bytes = bytes.format(tally.bytes).as_bytes();
    page.send_pieces(
        &[
            word, b" tests ", tests, b" lines ", lines, b" bytes ", bytes, b"\n",
        ],
        out,
    )
}
