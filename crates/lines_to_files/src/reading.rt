ghost use Rattle.std.specs.Prelude.{◌≡◌};
ghost use Rattle.lines_to_files.specs.Judged.{read_with, test_read};

use crate::form::WrongTest;
use crate::names::{Name, set_name};
use cycles_from_lines::{LineForm, read_line};
use edge_algebra::Cycle;
use edges_from_text::EdgeList;
use relax_edges::ArchName;

/// Space for reading the test of a line: its edges, its cycle and the test's name. What these held doesn't matter.
#[derive(Drop)]
pub(crate) struct LineSpace {
    pub(crate) edges: EdgeList,
    pub(crate) cycle: Option<Cycle>,
    pub(crate) name: Name,
}

/// The cycle of the test that a line gives, in its normal form, if the line gives a test, or what is wrong with the line or with the
/// test's name. The name is then in `space`.
#[tactic(auto, using(crate::proofs::TestsRead::line_wrong, crate::proofs::TestsRead::line_blank, crate::proofs::TestsRead::line_unnamed))]
pub(crate) fn read_test(
    arch: ArchName,
    line: &[u8],
    space: &mut LineSpace,
) -> Result<Option<Cycle>, WrongTest>
    ensures { read_with space.new.name.bytes result ≡ test_read arch line.now }
{
    match read_line(
        LineForm::Edges(arch),
        line,
        &mut space.edges,
        &mut space.cycle,
    ) {
        Ok(()) => {}
        Err(kind) => return Err(WrongTest::Line(kind)),
    }
    let Some(cycle) = &space.cycle else {
        return Ok(None);
    };
    // Brings into the proof that the cycle has an edge.
    let _edges = cycle.edges();
    if !set_name(line, cycle, &mut space.name) {
        return Err(WrongTest::BadName);
    }
    Ok(Some(cycle.least()))
}
