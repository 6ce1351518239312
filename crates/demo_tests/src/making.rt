ghost use Rattle.std.specs.Prelude.{◌≡◌};
ghost use Rattle.diy_io.specs.Wrote.{Wrote};
ghost use Rattle.demo_tests.specs.{DemoText.{demo_text}, Filled.{MakesAll}, Tallies.{family_tallies, numbered_text, tally_of_tests}};
ghost use Rattle.list_laws.specs.Numbers.{upto};

use crate::choices::Choices;
use crate::draws::Draws;
use crate::family_cycles::FamilyCycles;
use crate::filling::{Edges, draw_cycle};
use crate::measure::Desk;
use crate::summary::Summary;
use arch_trait::Arch;
use cycle_names::FAMILIES;
use diy_io::{Failed, Sink};
use litmus_text::Test;

/// Makes `count` tests and writes a summary of them: for each family that had one, in the order of
/// the table of families, and then for all, a line that says how many tests there are, and how many
/// line feeds and bytes are in their texts. It takes no memory.
///
/// The families take turns. The cycle of a test is that of its family, except for the links: a draw
/// picks each among the architecture's edges without marks that stay in their thread, lead to another
/// location and join accesses of the same directions. The sequence of draws begins anew with each
/// call. A test is made in the mode `Accept`, under the name of its cycle.
///
/// `Failed` comes only if the error count of `out` rose, or is at its maximum. Then `out` has taken a
/// prefix of the summary.
#[inline(never)]
pub fn demo<A: Arch, O: Sink>(count: u32, out: &mut O) -> Result<(), Failed>
    requires tests { MakesAll A.puts }
    ensures { Wrote (O.seen out.old) (O.seen out.new) (demo_text A.puts A.writing count) result }
{
    let summary = tally_tests::<A>(count, &mut Test::new());
    summary.write(out)
}

/// Makes `count` tests, each in `test`, and counts them.
#[inline(never)]
fn tally_tests<A: Arch>(count: u32, test: &mut Test) -> Summary
    requires { MakesAll A.puts }
    ensures families { result.families ≡ family_tallies (numbered_text A.puts A.writing) count }
    ensures all { result.all ≡ tally_of_tests (numbered_text A.puts A.writing) (upto count) }
{
    let cycles = FamilyCycles::new();
    let choices = Choices::new(A::NAME);
    let mut draws = Draws::new();
    let mut edges = Edges::new();
    let mut desk = Desk::new();
    let mut summary = Summary::new();
    for number in 0..count {
        let place = number as usize % FAMILIES.len();
        let slots = cycles.edges(place);
        let text = desk.measure::<A>(&draw_cycle(slots, &choices, &mut draws, &mut edges), test);
        summary.count(place, &text);
    }
    summary
}
