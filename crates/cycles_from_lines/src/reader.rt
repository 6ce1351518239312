ghost use Rattle.std.specs.Prelude.{◌≡◌, ◌≤◌, ◌<◌, ℕ, ◌+◌, ◌-◌, List, [], false, length, take, drop, Option, Some, IfOk, OnErr};
ghost use Rattle.relax_edges.specs.declared.edge.Edge.{Edge};
ghost use Rattle.cycles_from_lines.specs.{Cycles.{is_long_line}, KeptLines.{said_with}};
ghost use Rattle.cycles_from_lines.specs.LineSteps.{ReaderSeen, Without, GivesNext, line_said_by, Fills, FillsBuffer, Stops, ReadsOn, Refills, LessToDo, FindsLast, ReadsLast, Ends, work};
ghost use Rattle.text_parts.specs.Lines.{without_return};

use crate::MAX_CYCLE_LINE;
use crate::errors::{LineKind, LinesError};
use crate::line::{LineForm, read_line};
use diy_io::{Failed, MAX_INPUT, Page, Source};
use edge_algebra::Cycle;
use edges_from_text::EdgeList;
use std::marker::Model;
use text_parts::{cut, without_return};

/// The most bytes that are read at once: 36,864. What `norm7` writes for this many usually fits on a page.
const INPUT_ROOM: usize = 36_864;

/// Space for a piece, after a line of `MAX_CYCLE_LINE` bytes and its carriage return.
const BUFFER: usize = INPUT_ROOM + MAX_CYCLE_LINE + 1;

/// What comes after the lines that were given. The cycle that it says, if any, is stored where the caller asked.
#[derive(Clone, Copy)]
pub(crate) enum Found {
    /// The next line.
    Next,
    /// The end, after a last line without a line feed, if there is one.
    Last,
}

/// Whether the next line was read.
#[derive(Clone, Copy)]
pub(crate) enum Line {
    /// It was, and the cycle that it says, if any, is stored where the caller asked.
    Read,
    /// It has an error.
    Wrong(LineKind),
    /// Its line feed is not pending yet.
    Unended,
}

/// Reads the lines of a source.
///
/// A source is read in pieces of up to 36,864 bytes, and read on only if no complete line is pending.
/// Of an incomplete line at most `MAX_CYCLE_LINE` bytes and a carriage return are held then, and the next
/// piece comes after them: a line of more bytes is too long, and nothing is read after it.
///
/// Contracts see the bytes that were taken and not yet given, the number of the line that they begin
/// with, and how many bytes were taken.
#[derive(Drop)]
pub(crate) struct LineReader {
    buffer: [u8; BUFFER],
    start: usize,
    end: usize,
    line: u64,
    taken: u64,
}

impl Model for LineReader {
    ghost use Rattle.std.specs.Prelude.{◌+◌, ◌-◌, ◌≤◌, take, drop};
    ghost use Rattle.diy_io.specs.declared.source.TheConstants.{MAX_INPUT};
    ghost use Rattle.cycles_from_lines.specs.{declared.reader.TheConstants.{BUFFER}, LineSteps.{ReaderSeen}};

    ghost Value = { ReaderSeen };

    ghost view = { λ r. record { pending = take (r.end - r.start) (drop r.start r.buffer); line = r.line; taken = r.taken } };

    ghost invariant = { λ r. (r.start ≤ r.end) × (r.end ≤ BUFFER) × (r.line + (r.end - r.start) ≤ r.taken + 1) × (r.taken ≤ MAX_INPUT) };
}

impl LineReader {
    /// A reader that has read nothing.
    pub(crate) fn new() -> LineReader
        ensures { result ≡ record { pending = []; line = 1; taken = 0 } }
    {
        LineReader {
            buffer: [0; BUFFER],
            start: 0,
            end: 0,
            line: 1,
            taken: 0,
        }
    }

    /// Sets `cycle` to what the next line of the source says, or returns why the source can't be read
    /// on. `edges` is space for the edges.
    pub(crate) fn next_found<I: Source>(
        &mut self,
        form: LineForm,
        input: &mut I,
        edges: &mut EdgeList,
        cycle: &mut Option<Cycle>,
    ) -> Result<Found, LinesError>
        ensures reads { ReadsOn form (I.seen input.old) (I.seen input.new) self.old self.new cycle.new result }
        ensures less { LessToDo (work self.old) (work self.new) result }
    {
        loop {
            let line = self.line;
            match self.next_line(form, edges, cycle) {
                Line::Read => return Ok(Found::Next),
                Line::Wrong(kind) => return Err(LinesError::Wrong { line, kind }),
                Line::Unended => match self.refill(input) {
                    Ok(0) => return self.last_found(form, edges, cycle),
                    Ok(_) => {}
                    Err(error) => return Err(error),
                },
            }
        }
    }

    /// The number of the next line.
    pub(crate) fn line(&self) -> u64
        ensures { result ≡ self.now.line }
    {
        self.line
    }

    /// The bytes that were taken and not yet given.
    fn pending_bytes(&self) -> &[u8]
        ensures pending { result.now ≡ self.now.pending }
        ensures held { length result.now ≤ BUFFER }
    {
        &self.buffer[self.start..self.end]
    }

    /// Sets `cycle` to what the next line says, and gives that line, if its line feed is pending.
    /// `edges` is space for the edges.
    pub(crate) fn next_line(
        &mut self,
        form: LineForm,
        edges: &mut EdgeList,
        cycle: &mut Option<Cycle>,
    ) -> Line
        ensures { GivesNext form self.old self.new cycle.new result }
    {
        let Some((bytes, _)) = cut(b'\n', self.pending_bytes()) else {
            return Line::Unended;
        };
        let length = bytes.len();
        let line = line_of(read_line(form, without_return(bytes), edges, cycle));
        self.start += length + 1;
        self.line += 1;
        line
    }

    /// Sets `cycle` to what the last line says, if there is one, and returns the end.
    fn last_found(
        &self,
        form: LineForm,
        edges: &mut EdgeList,
        cycle: &mut Option<Cycle>,
    ) -> Result<Found, LinesError>
        requires { Without 10 self.now.pending }
        ensures reads { FindsLast form self.now cycle.new result }
        ensures ends { Ends result }
    {
        match self.last_line(form, edges, cycle) {
            Ok(()) => Ok(Found::Last),
            Err(error) => Err(error),
        }
    }

    /// Sets `cycle` to what the last line says, which has no line feed, or to none if there is no such
    /// line. `edges` is space for the edges.
    pub(crate) fn last_line(
        &self,
        form: LineForm,
        edges: &mut EdgeList,
        cycle: &mut Option<Cycle>,
    ) -> Result<(), LinesError>
        requires { Without 10 self.now.pending }
        ensures { ReadsLast form self.now cycle.new result }
    {
        if self.pending_bytes().is_empty() {
            *cycle = None;
            return Ok(());
        }
        match read_line(form, self.pending_bytes(), edges, cycle) {
            Ok(()) => Ok(()),
            Err(kind) => Err(LinesError::Wrong {
                line: self.line,
                kind,
            }),
        }
    }

    /// Reads on, as `refill` does, once the page with the lines of the cycles is written out: no line
    /// of a cycle that was read before waits for more input.
    pub(crate) fn read_more<I: Source>(
        &mut self,
        page: &Page,
        input: &mut I,
    ) -> Result<usize, LinesError>
        requires sent { page.now ≡ [] }
        requires unended { Without 10 self.old.pending }
        ensures refills { Refills (I.seen input.old) (I.seen input.new) self.old self.new result }
        ensures pending { IfOk result (λ count. count ≡ 0 → Without 10 self.new.pending) }
        ensures less { IfOk result (λ count. 0 < count → work self.new < work self.old) }
    {
        self.refill(input)
    }

    /// Reads a piece after the pending bytes, which is empty only at the end of the source, and returns its length.
    /// It fails if the pending line is too long already, if there are too many bytes, or if the source fails.
    fn refill<I: Source>(&mut self, input: &mut I) -> Result<usize, LinesError>
        requires { Without 10 self.old.pending }
        ensures refills { Refills (I.seen input.old) (I.seen input.new) self.old self.new result }
        ensures pending { IfOk result (λ count. count ≡ 0 → Without 10 self.new.pending) }
        ensures less { IfOk result (λ count. 0 < count → work self.new < work self.old) }
    {
        if without_return(self.pending_bytes()).len() > MAX_CYCLE_LINE {
            return Err(LinesError::Wrong {
                line: self.line,
                kind: LineKind::LineTooLong,
            });
        }
        if self.taken == MAX_INPUT {
            return self.end_at_limit(input);
        }
        match self.fill(input) {
            Ok(count) => Ok(count),
            Err(Failed) => Err(LinesError::InputFault),
        }
    }

    /// Returns 0 if a source ends after `MAX_INPUT` bytes, and fails if it has more or fails itself.
    fn end_at_limit<I: Source>(&self, input: &mut I) -> Result<usize, LinesError>
        requires one_line { Without 10 self.now.pending }
        requires short { is_long_line (without_return self.now.pending) ≡ false }
        requires full { self.now.taken ≡ MAX_INPUT }
        ensures refills { Refills (I.seen input.old) (I.seen input.new) self.now self.now result }
        ensures none { IfOk result (λ count. count ≡ 0) }
    {
        let mut byte = [0];
        match read_part(input, &mut byte, 0, 1) {
            Ok(0) => Ok(0),
            Ok(_) => Err(LinesError::TooMuch { line: self.line }),
            Err(Failed) => Err(LinesError::InputFault),
        }
    }

    /// Reads a piece after the pending bytes.
    fn fill<I: Source>(&mut self, input: &mut I) -> Result<usize, Failed>
        requires short { is_long_line (without_return self.old.pending) ≡ false }
        requires few { self.old.taken < MAX_INPUT }
        ensures filled { IfOk result (λ count. Fills (I.seen input.old) (I.seen input.new) self.old self.new count) }
        ensures stopped { OnErr result (Stops (I.seen input.old) (I.seen input.new) × (self.new ≡ self.old)) }
        ensures held { length self.new.pending ≤ length self.old.pending + INPUT_ROOM }
    {
        self.end = move_to_start(&mut self.buffer, self.start, self.end);
        self.start = 0;
        let room = INPUT_ROOM.min((MAX_INPUT - self.taken) as usize);
        let count = read_part(input, &mut self.buffer, self.end, room)?;
        self.end += count;
        self.taken += count as u64;
        Ok(count)
    }
}

fn line_of(read: Result<(), LineKind>) -> Line
    ensures { (cycle : Option (List Edge)) → line_said_by result cycle ≡ Some (said_with read cycle) }
{
    match read {
        Ok(()) => Line::Read,
        Err(kind) => Line::Wrong(kind),
    }
}

/// Moves a part of a buffer to its beginning, and returns where it ends there.
fn move_to_start(buffer: &mut [u8], start: usize, end: usize) -> usize
    requires order { start ≤ end }
    requires within { end ≤ length buffer.old }
    ensures end { result ≡ end - start }
    ensures moved { take result buffer.new ≡ take (end - start) (drop start buffer.old) }
{
    buffer.copy_within(start..end, 0);
    end - start
}

/// Reads at most `room` bytes into a buffer, from `start` on.
#[tactic(auto, using(diy_io::proofs::EndLaws::end_counted, diy_io::proofs::EndLaws::no_end_counted))]
fn read_part<I: Source>(
    input: &mut I,
    buffer: &mut [u8],
    start: usize,
    room: usize,
) -> Result<usize, Failed>
    requires within { start + room ≤ length buffer.old }
    requires some { 0 < room }
    ensures prefix { take start buffer.new ≡ take start buffer.old }
    ensures filled { IfOk result (λ count. FillsBuffer (I.seen input.old) (I.seen input.new) buffer.new start room count) }
    ensures stopped { OnErr result (Stops (I.seen input.old) (I.seen input.new)) }
{
    input.read(&mut buffer[start..start + room])
}
