ghost use Rattle.cycles_from_lines.specs.{Classified.{Classifies}, FamilyTables.{Gathers, AddsLast}};
ghost use Rattle.std.specs.Prelude.{OnOk};

use crate::errors::ClassifyError;
use crate::families::Families;
use crate::line::LineForm;
use crate::reader::{Found, LineReader};
use diy_io::{Failed, NoMemory, Sink, Source};
use edge_algebra::Cycle;
use edges_from_text::EdgeList;
use relax_edges::ArchName;
use std::alloc::Global;

/// Reads lines of edges of an architecture, as `norm_lines` does, and then writes for each family
/// that has a cycle, in the order of `Family`, a line of its name and a colon, and the names of its
/// cycles, each once and after two blanks, in byte order.
///
/// If the lines can't be read to the end, or there is no memory, nothing is written. If the sink
/// fails, it has taken a prefix of the text.
pub fn classify_lines<I: Source, O: Sink>(
    alloc: Global,
    arch: ArchName,
    input: &mut I,
    out: &mut O,
) -> Result<(), ClassifyError>
    ensures { Classifies arch (I.seen input.old) (I.seen input.new) (O.seen out.old) (O.seen out.new) result }
{
    match gather(alloc, arch, input) {
        Ok(families) => match families.write(out) {
            Ok(()) => Ok(()),
            Err(Failed) => Err(ClassifyError::OutFault),
        },
        Err(error) => Err(error),
    }
}

/// The names of the cycles of a source's lines, by their families.
fn gather<I: Source>(
    alloc: Global,
    arch: ArchName,
    input: &mut I,
) -> Result<Families, ClassifyError>
    ensures { Gathers arch (I.seen input.old) (I.seen input.new) result }
{
    let mut families = match Families::new(alloc) {
        Ok(families) => families,
        Err(NoMemory) => return Err(ClassifyError::NoMemory),
    };
    let mut reader = LineReader::new();
    let mut edges = EdgeList::new();
    let mut cycle = None;
    loop {
        match reader.next_found(LineForm::Edges(arch), input, &mut edges, &mut cycle) {
            Ok(Found::Next) => match put_said(&mut families, &cycle) {
                Ok(()) => {}
                Err(NoMemory) => return Err(ClassifyError::NoMemory),
            },
            Ok(Found::Last) => {
                return match put_said(&mut families, &cycle) {
                    Ok(()) => Ok(families),
                    Err(NoMemory) => Err(ClassifyError::NoMemory),
                };
            }
            Err(error) => return Err(ClassifyError::Lines(error)),
        }
    }
}

/// Adds the name of the cycle of a line, if it has one.
fn put_said(families: &mut Families, cycle: &Option<Cycle>) -> Result<(), NoMemory>
    ensures { OnOk result (AddsLast families.old families.new cycle.now) }
{
    match cycle {
        Some(cycle) => families.put(cycle),
        None => Ok(()),
    }
}
