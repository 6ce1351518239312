ghost use Rattle.std.specs.{Prelude.{◌≡◌, ◌<◌, ◌+◌, [], IfOk, length, map, slice_index_or}, List.{range_with_len}};
ghost use Rattle.text_parts.specs.{Words.{words}, Lines.{lines_of}};
ghost use Rattle.exec_text.specs.declared.errors.ExecKind.TheVariants.{BadThread, BadRead, BadPlace, BadWrite, EndMissing};
ghost use Rattle.exec_text.specs.ExecutionText.{access_named, all_named, execution_read, read_named, thread_head, reads_told, writes_told, all_reads_told, all_writes_told, place_head_at};
ghost use Rattle.exec_text.specs.ExecutionSteps.{AtLine, ReadsLine, ReadsLines, ReadsText, line_added, lines_added};
ghost use Rattle.exec_text.specs.{declared.errors.ExecError.TheVariants.{Text}, declared.reading.LineError.TheVariants.{NoMemory as NoMemoryForLine}};
ghost use Rattle.program_meaning.specs.KeptExecutions.{with_read, with_write};

use crate::errors::{ExecError, ExecFault, ExecKind};
use crate::heads::{is_place_head, is_thread_head};
use crate::lines::first_line;
use crate::words::{access_named, read_named};
use arch_trait::Places;
use diy_io::NoMemory;
use litmus_text::MAX_TEST_TEXT;
use program_meaning::Execution;
use std::alloc::Global;
use text_parts::next_word;

/// What is wrong in a line, or that there is no memory for what it names.
pub(crate) enum LineError {
    Kind(ExecKind),
    NoMemory,
}

impl From<NoMemory> for LineError {
    ghost from_gives = { λ _ error. error ≡ NoMemoryForLine };

    fn from(_error: NoMemory) -> LineError {
        LineError::NoMemory
    }
}

impl LineError {
    /// The error with the number of its line.
    fn at(self, line: u64) -> ExecError
        ensures { AtLine line self result }
    {
        match self {
            LineError::Kind(kind) => ExecError::Text(ExecFault { line, kind }),
            LineError::NoMemory => ExecError::NoMemory,
        }
    }
}

/// Adds the reads that the words of a text name to those of a thread.
fn add_reads(thread: u8, threads: u8, text: &[u8], exec: &mut Execution) -> Result<(), LineError>
    requires { thread < length exec.old.reads }
    ensures { ReadsLine result exec.new (line_added with_read exec.old thread (all_named BadRead (read_named threads) (words text.now))) }
{
    let mut left = text;
    while let Some((word, rest)) = next_word(left) {
        match read_named(threads, word) {
            Some((value, from)) => exec.add_read(thread, value, from)?,
            None => return Err(LineError::Kind(ExecKind::BadRead)),
        }
        left = rest;
    }
    Ok(())
}

/// Adds the writes that the words of a text name to those of a location.
fn add_writes(place: u8, threads: u8, text: &[u8], exec: &mut Execution) -> Result<(), LineError>
    requires { place < length exec.old.orders }
    ensures { ReadsLine result exec.new (line_added with_write exec.old place (all_named BadWrite (access_named threads) (words text.now))) }
{
    let mut left = text;
    while let Some((word, rest)) = next_word(left) {
        match access_named(threads, word) {
            Some(write) => exec.add_write(place, write)?,
            None => return Err(LineError::Kind(ExecKind::BadWrite)),
        }
        left = rest;
    }
    Ok(())
}

/// Reads the line of a thread.
#[tactic(auto, unfolding(crate::specs::ExecutionText::line_read))]
fn read_thread(thread: u8, threads: u8, line: &[u8], exec: &mut Execution) -> Result<(), LineError>
    requires { thread < length exec.old.reads }
    ensures { ReadsLine result exec.new (line_added with_read exec.old thread (reads_told threads (thread_head thread) (words line.now))) }
{
    match next_word(line) {
        Some((head, rest)) if is_thread_head(thread, head) => add_reads(
            thread, threads, rest, exec,
        ),
        _ => Err(LineError::Kind(ExecKind::BadThread)),
    }
}

/// Reads the line of a location.
#[tactic(auto, unfolding(crate::specs::ExecutionText::line_read))]
fn read_place(
    place: u8,
    places: &Places,
    threads: u8,
    line: &[u8],
    exec: &mut Execution,
) -> Result<(), LineError>
    requires place { place < length places.now }
    requires orders { place < length exec.old.orders }
    ensures { ReadsLine result exec.new (line_added with_write exec.old place (writes_told threads (place_head_at places.now place) (words line.now))) }
{
    match next_word(line) {
        Some((head, rest)) if is_place_head(places.get(place), head) => add_writes(
            place, threads, rest, exec,
        ),
        _ => Err(LineError::Kind(ExecKind::BadPlace)),
    }
}

/// Reads the lines of the threads, and returns the text after them.
fn read_threads<'a>(
    threads: u8,
    text: &'a [u8],
    exec: &mut Execution,
) -> Result<&'a [u8], ExecError>
    requires { length exec.old.reads ≡ threads }
    ensures { ReadsLines result exec.new (lines_added with_read exec.old 0 (all_reads_told threads (lines_of text.now))) }
{
    let mut left = text;
    for thread in 0..threads {
        let line = u64::from(thread) + 1;
        match first_line(left) {
            Some((text, rest)) => match read_thread(thread, threads, text, exec) {
                Ok(()) => left = rest,
                Err(error) => return Err(error.at(line)),
            },
            None => return Err(missing_line(line)),
        }
    }
    Ok(left)
}

/// Reads the lines of the locations, which come after those of the threads, and returns the text after them.
fn read_places<'a>(
    places: &Places,
    threads: u8,
    text: &'a [u8],
    exec: &mut Execution,
) -> Result<&'a [u8], ExecError>
    requires { length exec.old.orders ≡ length places.now }
    ensures { ReadsLines result exec.new (lines_added with_write exec.old 0 (all_writes_told threads places.now (lines_of text.now))) }
{
    let mut left = text;
    for place in 0..places.len() {
        let line = u64::from(threads) + u64::from(place) + 1;
        match first_line(left) {
            Some((text, rest)) => match read_place(place, places, threads, text, exec) {
                Ok(()) => left = rest,
                Err(error) => return Err(error.at(line)),
            },
            None => return Err(missing_line(line)),
        }
    }
    Ok(left)
}

/// The error for a missing line.
fn missing_line(line: u64) -> ExecError
    ensures { result ≡ Text (record { line = line; kind = EndMissing }) }
{
    ExecError::Text(ExecFault {
        line,
        kind: ExecKind::EndMissing,
    })
}

/// The execution that a text gives, of a program with this many threads and with these locations: a line for each
/// thread, `Pk:` and for each of its reads `VALUE@init` or `VALUE@T.N`, the value and the access that is
/// read; then a line for each location, its name, a colon and its writes in coherence order, each as `T.N`.
/// For a text that gives none, the error is the first line with an error and the leftmost error in it. A text of
/// more than `MAX_TEST_TEXT` bytes is TooLarge at line 1, whatever it holds. The execution has as many lists of
/// reads as threads, and as many orders as locations. It may return `NoMemory` instead.
///
/// Whether the program has such accesses isn't judged here: see `exec_meaning::is_candidate`.
#[tactic(auto, unfolding(crate::specs::ExecutionText::execution_read))]
pub fn read_execution(
    alloc: Global,
    threads: u8,
    places: &Places,
    text: &[u8],
) -> Result<Execution, ExecError>
    ensures read { ReadsText result (execution_read threads places.now text.now) }
    ensures shape { IfOk result (λ x. (length x.reads ≡ threads) × (length x.orders ≡ length places.now)) }
{
    if text.len() > MAX_TEST_TEXT {
        return Err(ExecError::Text(ExecFault {
            line: 1,
            kind: ExecKind::TooLarge,
        }));
    }
    let mut exec = match Execution::new(alloc, threads, places.len()) {
        Ok(exec) => exec,
        Err(NoMemory) => return Err(ExecError::NoMemory),
    };
    let rest = match read_threads(threads, text, &mut exec) {
        Ok(rest) => rest,
        Err(error) => return Err(error),
    };
    let rest = match read_places(places, threads, rest, &mut exec) {
        Ok(rest) => rest,
        Err(error) => return Err(error),
    };
    match first_line(rest) {
        None => Ok(exec),
        Some(_) => Err(ExecError::Text(ExecFault {
            line: u64::from(threads) + u64::from(places.len()) + 1,
            kind: ExecKind::StrayLine,
        })),
    }
}
