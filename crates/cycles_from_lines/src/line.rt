ghost use Rattle.std.specs.{Prelude.{◌≡◌}, List.{list_all}};
ghost use Rattle.edges_from_text.specs.Spelled.{separates};
ghost use Rattle.cycles_from_lines.specs.{Cycles.{form_said, line_said, without_label}, KeptLines.{said_with}};
ghost use Rattle.cycles_from_lines.specs.declared.line.LineForm.TheVariants as forms;

use crate::MAX_CYCLE_LINE;
use crate::edges::read_cycle;
use crate::errors::LineKind;
use crate::named::cycle_named;
use edge_algebra::Cycle;
use edges_from_text::{EdgeList, Separators};
use relax_edges::ArchName;
use text_parts::{Class, cut, next_word};

/// How a line gives a cycle of an architecture.
#[derive(Clone, Copy)]
pub enum LineForm {
    /// By its edges, with blanks between them. A label may come before, which ends with the first colon of the line.
    Edges(ArchName),
    /// By its name, which is the first word of the line. The words after it don't matter.
    Names(ArchName),
}

/// Sets `cycle` to what a line says, which comes without its line feed: its cycle, or none if it has only blanks; or
/// returns the first error that it has, and then nothing is known about `cycle`. `edges` is space for the edges: what it
/// held doesn't matter.
#[tactic(auto, unfolding(crate::specs::Cycles::line_said))]
pub fn read_line(
    form: LineForm,
    line: &[u8],
    edges: &mut EdgeList,
    cycle: &mut Option<Cycle>,
) -> Result<(), LineKind>
    ensures { said_with result cycle.new ≡ line_said form line.now }
{
    if line.len() > MAX_CYCLE_LINE {
        return Err(LineKind::LineTooLong);
    }
    if are_blank(line) {
        *cycle = None;
        return Ok(());
    }
    match form {
        LineForm::Edges(arch) => read_labelled(arch, line, edges, cycle),
        LineForm::Names(arch) => read_name(arch, line, cycle),
    }
}

/// Sets `cycle` to the cycle of the edges of a line, or returns their first error.
///
/// Most lines have no label, and no edge name has a colon, so a label is sought only if the whole line
/// makes no cycle.
#[tactic(auto, using(crate::proofs::Labels::read_unlabelled))]
fn read_labelled(
    arch: ArchName,
    line: &[u8],
    edges: &mut EdgeList,
    cycle: &mut Option<Cycle>,
) -> Result<(), LineKind>
    ensures { said_with result cycle.new ≡ form_said (forms.Edges arch) line.now }
{
    match read_cycle(arch, line, edges, cycle) {
        Ok(()) => Ok(()),
        Err(_) => read_cycle(arch, without_label(line), edges, cycle),
    }
}

/// Sets `cycle` to the cycle that the first word of a line names, or returns that no cycle has this name.
fn read_name(arch: ArchName, line: &[u8], cycle: &mut Option<Cycle>) -> Result<(), LineKind>
    ensures { said_with result cycle.new ≡ form_said (forms.Names arch) line.now }
{
    let Some((name, _)) = next_word(line) else {
        *cycle = None;
        return Ok(());
    };
    match cycle_named(arch, name) {
        Some(found) => {
            *cycle = Some(found);
            Ok(())
        }
        None => Err(LineKind::UnknownName),
    }
}

fn are_blank(line: &[u8]) -> bool
    ensures { result ≡ list_all (separates Separators.Blanks) line.now }
{
    Class::Blank.has_all(line)
}

/// A line without its label, which ends with the first colon.
#[tactic(auto, using(crate::proofs::Cuts::label_cut, crate::proofs::Cuts::label_none))]
fn without_label(line: &[u8]) -> &[u8]
    ensures { result.now ≡ without_label line.now }
{
    match cut(b':', line) {
        Some((_, later)) => later,
        None => line,
    }
}
