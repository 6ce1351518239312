ghost use Rattle.std.specs.Prelude.{◌≡◌, ◌<◌, [], length, OnOk, OnErr};
ghost use Rattle.diy_io.specs.{Page.{Sends}, Wrote.{Wrote}};
ghost use Rattle.cycles_from_lines.specs.Normed.{name_line, Norms, WritesLast, last_lines};

use crate::errors::{LinesError, NormError};
use crate::line::LineForm;
use crate::reader::{Line, LineReader};
use arrayvec::ArrayString;
use cycle_names::{MAX_CYCLE_NAME, MAX_NAME_LINE, name_and_words};
use diy_io::{Failed, Page, Sink, Source};
use edge_algebra::Cycle;
use edges_from_text::EdgeList;

/// Reads lines of cycles, and writes for each cycle the line of its name and its
/// edges, in order. These lines are gathered on a page, and each is at the sink before more of the
/// input is read. No memory is allocated.
///
/// A line ends with a line feed, and a carriage return right before that is dropped; a last line
/// without a line feed counts if it isn't empty. A line of only blanks (spaces and tabs) is skipped. `LineForm`
/// says how the cycle of any other is given.
///
/// If a line has an error, if there are more than `MAX_INPUT` bytes, or if the source fails, the lines
/// of the cycles before that are written. If the sink fails, it has taken a prefix of the lines of the
/// cycles before the first line with an error, or of all if no line has one.
pub fn norm_lines<I: Source, O: Sink>(
    form: LineForm,
    input: &mut I,
    out: &mut O,
) -> Result<(), NormError>
    ensures { Norms form (I.seen input.old) (I.seen input.new) (O.seen out.old) (O.seen out.new) result }
{
    let mut reader = LineReader::new();
    let mut page = Page::new();
    let mut words: ArrayString<MAX_CYCLE_NAME> = ArrayString::new();
    let mut line: ArrayString<MAX_NAME_LINE> = ArrayString::new();
    let mut edges = EdgeList::new();
    let mut cycle = None;
    loop {
        let number = reader.line();
        match reader.next_line(form, &mut edges, &mut cycle) {
            Line::Read => match &cycle {
                Some(cycle) => {
                    match send_name_line(cycle, &mut words, &mut line, &mut page, out) {
                        Ok(()) => {}
                        Err(Failed) => return Err(NormError::OutFault),
                    }
                }
                None => {}
            },
            Line::Wrong(kind) => {
                return match hand_on(&mut page, out) {
                    Ok(()) => Err(NormError::Lines(LinesError::Wrong { line: number, kind })),
                    Err(Failed) => Err(NormError::OutFault),
                };
            }
            Line::Unended => {
                match hand_on(&mut page, out) {
                    Ok(()) => {}
                    Err(Failed) => return Err(NormError::OutFault),
                }
                match reader.read_more(&page, input) {
                    Ok(0) => {
                        return match reader.last_line(form, &mut edges, &mut cycle) {
                            Ok(()) => write_last(&cycle, out),
                            Err(error) => Err(NormError::Lines(error)),
                        };
                    }
                    Ok(_) => {}
                    Err(error) => return Err(NormError::Lines(error)),
                }
            }
        }
    }
}

/// Writes out what a page holds, if it holds anything.
fn hand_on<O: Sink>(page: &mut Page, out: &mut O) -> Result<(), Failed>
    ensures wrote { Wrote (O.seen out.old) (O.seen out.new) page.old result }
    ensures empty { OnOk result (page.new ≡ []) }
    ensures held { OnErr result (0 < length page.old) }
{
    if page.as_slice().is_empty() {
        return Ok(());
    }
    page.flush(out)
}

/// Writes the line of a last cycle, if there is one.
fn write_last<O: Sink>(cycle: &Option<Cycle>, out: &mut O) -> Result<(), NormError>
    ensures { WritesLast (last_lines cycle.now) (O.seen out.old) (O.seen out.new) result }
{
    match cycle {
        Some(cycle) => match write_name_line(cycle, out) {
            Ok(()) => Ok(()),
            Err(Failed) => Err(NormError::OutFault),
        },
        None => Ok(()),
    }
}

/// Writes the line of a cycle: its name, a colon and a blank, and its edges in the rotation that it
/// is named from, joined by blanks. If the sink fails, it has taken a prefix of the line.
pub fn write_name_line<O: Sink>(cycle: &Cycle, out: &mut O) -> Result<(), Failed>
    ensures { Wrote (O.seen out.old) (O.seen out.new) (name_line cycle.now) result }
{
    let mut words: ArrayString<MAX_CYCLE_NAME> = ArrayString::new();
    let mut line: ArrayString<MAX_NAME_LINE> = ArrayString::new();
    make_line(cycle, &mut words, &mut line);
    out.write_all(line.as_str().as_bytes())
}

/// Sends the line of a cycle, as `write_name_line` writes it, by way of a page: if the page is full
/// enough, it is written out first. What `words` and `line` held doesn't matter.
pub fn send_name_line<O: Sink>(
    cycle: &Cycle,
    words: &mut ArrayString<MAX_CYCLE_NAME>,
    line: &mut ArrayString<MAX_NAME_LINE>,
    page: &mut Page,
    out: &mut O,
) -> Result<(), Failed>
    ensures { Sends (O.seen out.old) page.old (O.seen out.new) page.new (name_line cycle.now) result }
{
    make_line(cycle, words, line);
    page.spill(out)?;
    page.put(line.as_str().as_bytes());
    Ok(())
}

/// Sets `line` to the line of a cycle. What `words` and `line` held doesn't matter.
fn make_line(
    cycle: &Cycle,
    words: &mut ArrayString<MAX_CYCLE_NAME>,
    line: &mut ArrayString<MAX_NAME_LINE>,
)
    ensures { line.new.bytes ≡ name_line cycle.now }
{
    name_and_words(cycle, words, line);
    line.push_str("\n");
}
