ghost use Rattle.std.specs.Prelude.{◌≡◌, ℕ, List, [], ◌++◌, true, Some, None, IfOk, IfErr, OnOk, map, option_map};
ghost use Rattle.diy_io.specs.{Page.{Sends}, Wrote.{Wrote}};
ghost use Rattle.log_sum.specs.LogReading.{LogSeen, line_judged, rest_judged};
ghost use Rattle.log_sum.specs.Representing.{Kept, Represents, IsBetweenLogs, FedTo, EndedTo, IsKeptRefusal, GivenAgain, kept_table, kept_text, running_line};
ghost use Rattle.log_sum.specs.KeptStates.{counted_view, states_kept};
ghost use Rattle.log_sum.specs.Feeding.{IsFed, FollowsSeen, JudgedTo, PieceTo, EndTo, sum_refusal};

use crate::counted::{CountedState, counted_states};
use crate::errors::{Fault, LogError, LogKind, SumError};
use crate::print;
use crate::reading::Reading;
use diy_io::{Failed, NoMemory, Page, Sink};
use std::alloc::Global;
use std::marker::Model;
use text_parts::{cut, without_return};

/// The most bytes that a line of a log may have, its line feed not counted.
pub const MAX_LOG_LINE: usize = 65_536;

/// Sums the logs of litmus tests, which it is fed in pieces.
#[derive(Drop)]
pub struct Summer {
    reading: Reading,
    /// The bytes of the running line so far.
    held: Vec<u8>,
    /// What a finished summer returns.
    refusal: Option<SumError>,
}

impl Model for Summer {
    ghost use Rattle.std.specs.Prelude.{◌≤◌, length};
    ghost use Rattle.log_sum.specs.{Representing.{Kept}, SumViews.{progress_view}};

    ghost Value = { Kept };

    ghost view = { λ s. record {
      progress = progress_view s.reading;
      held = s.held.items;
      refusal = s.refusal;
    } };

    ghost invariant = { λ s. length s.held.items ≤ 65536 };
}

impl Summer {
    /// A summer that has been fed nothing.
    pub fn new(alloc: Global) -> Result<Summer, NoMemory>
        ensures { IfOk result (λ summer. Represents summer [] []) }
    {
        Ok(Summer {
            reading: Reading::new(alloc),
            held: Vec::with_capacity(alloc, MAX_LOG_LINE)?,
            refusal: None,
        })
    }

    /// Feeds a piece of the running log, which may end anywhere.
    ///
    /// The error is the first one that the bytes fed so far show, or that there is no memory; the summer is finished
    /// then, and returns it again.
    pub fn feed(&mut self, piece: &[u8]) -> Result<(), SumError>
        ensures fed { (files : List (List ℕ)) (bytes : List ℕ) → Represents self.old files bytes → FedTo self.new files (bytes ++ piece.now) result }
        ensures kept { IsKeptRefusal self.new result }
        ensures given_again { GivenAgain self.old self.new result }
    {
        self.check_refusal()?;
        match self.feed_lines(piece) {
            Ok(()) => Ok(()),
            Err(fault) => Err(self.refuse(fault)),
        }
    }

    /// Ends the running log; what is fed next is the next log, from line 1.
    ///
    /// The error is the first one of the logs that have ended, or that there is no memory; the summer is finished
    /// then, and returns it again.
    pub fn end_file(&mut self) -> Result<(), SumError>
        ensures ended { (files : List (List ℕ)) (bytes : List ℕ) → Represents self.old files bytes → EndedTo self.new files bytes result }
        ensures kept { IsKeptRefusal self.new result }
        ensures given_again { GivenAgain self.old self.new result }
    {
        self.check_refusal()?;
        match self.end_line() {
            Ok(()) => Ok(()),
            Err(fault) => Err(self.refuse(fault)),
        }
    }

    /// Appends the sum of what is kept. If the sink fails, it has taken a prefix of it.
    ///
    /// To be called between two logs: before the first, or after an `end_file` that returned `Ok`, with nothing fed
    /// since. It can't be called on a finished summer.
    pub fn write_sum<O: Sink>(&self, out: &mut O) -> Result<(), Failed>
        requires { IsBetweenLogs self.now }
        ensures { Wrote (O.seen out.old) (O.seen out.new) (kept_text self.now) result }
    {
        let mut page = Page::new();
        self.print_sums(&mut page, out)?;
        page.flush(out)
    }

    /// Appends the table of what is kept: for each test a line with its name, `Sometimes`, `Always` or `Never`, and the sums of
    /// the counts of both marks, with tabs between, as the line of its observation in the sum has them. If the sink fails, it
    /// has taken a prefix of the table.
    ///
    /// To be called as `write_sum` is.
    pub fn write_table<O: Sink>(&self, out: &mut O) -> Result<(), Failed>
        requires { IsBetweenLogs self.now }
        ensures { Wrote (O.seen out.old) (O.seen out.new) (kept_table self.now) result }
    {
        let mut page = Page::new();
        self.print_lines(&mut page, out)?;
        page.flush(out)
    }

    /// The states of the test with this name, in byte order, each with its mark and the sum of its counts; `None` if no log so
    /// far has the test.
    pub fn states_of(
        &self,
        alloc: Global,
        name: &[u8],
    ) -> Result<Option<Vec<CountedState>>, NoMemory>
        ensures { IfOk result (λ states. option_map (λ list. map counted_view list.items) states ≡ states_kept name.now self.now) }
    {
        let tests = &self.reading.table.tests;
        let Some(i) = tests.index_of(name) else {
            return Ok(None);
        };
        match tests.entries.get(i) {
            Some((_, test)) => Ok(Some(counted_states(alloc, &test.states)?)),
            None => Ok(None),
        }
    }

    /// The number of the running line in the running log, from 1; it stops at 2^64-1. The contract says nothing for
    /// a finished summer.
    pub fn line(&self) -> u64
        ensures { (files : List (List ℕ)) (bytes : List ℕ) → Represents self.now files bytes → result ≡ running_line bytes }
    {
        self.reading.line
    }

    /// Sends the texts of the tests, through the output buffer `page`.
    fn print_sums<O: Sink>(&self, page: &mut Page, out: &mut O) -> Result<(), Failed>
        ensures { Sends (O.seen out.old) page.old (O.seen out.new) page.new (kept_text self.now) result }
    {
        print::print_sums(self.reading.table.tests.entries.as_slice(), page, out)
    }

    /// Sends the lines of the tests in the table, through the output buffer `page`.
    fn print_lines<O: Sink>(&self, page: &mut Page, out: &mut O) -> Result<(), Failed>
        ensures { Sends (O.seen out.old) page.old (O.seen out.new) page.new (kept_table self.now) result }
    {
        print::print_lines(self.reading.table.tests.entries.as_slice(), page, out)
    }

    /// `Ok` if the summer isn't finished, otherwise what it returns.
    fn check_refusal(&self) -> Result<(), SumError>
        ensures ok { OnOk result (self.now.refusal ≡ None) }
        ensures err { IfErr result (λ refusal. self.now.refusal ≡ Some refusal) }
    {
        match self.refusal {
            Some(refusal) => Err(refusal),
            None => Ok(()),
        }
    }

    /// Keeps an error at the running line, and returns it.
    fn refuse(&mut self, fault: Fault) -> SumError
        ensures refusal { result ≡ sum_refusal self.old.progress.line fault }
        ensures kept { self.new ≡ record self.old { refusal = Some result } }
    {
        let refusal = match fault {
            Fault::Wrong(kind) => SumError::Log(LogError {
                line: self.reading.line,
                kind,
            }),
            Fault::NoMemory => SumError::NoMemory,
        };
        self.refusal = Some(refusal);
        refusal
    }

    fn feed_lines(&mut self, piece: &[u8]) -> Result<(), Fault>
        ensures { (files : List (List ℕ)) (bytes : List ℕ) → IsFed self.old files bytes → PieceTo self.new files (bytes ++ piece.now) result }
    {
        let mut rest = piece;
        while let Some((prefix, remainder)) = cut(b'\n', rest) {
            self.feed_line(prefix)?;
            rest = remainder;
        }
        self.hold(rest)
    }

    /// Reads the running line, of which `prefix` is the last part, before its line feed.
    fn feed_line(&mut self, prefix: &[u8]) -> Result<(), Fault>
        ensures judged { (seen : LogSeen) → FollowsSeen self.old.progress seen
            → JudgedTo self.new.progress (line_judged seen (self.old.held ++ prefix.now)) result }
        ensures held { OnOk result (self.new.held ≡ []) }
        ensures refusal { self.new.refusal ≡ self.old.refusal }
    {
        if self.held.is_empty() {
            if prefix.len() > MAX_LOG_LINE {
                return Err(Fault::Wrong(LogKind::LineTooLong));
            }
            return self.reading.judge(without_return(prefix));
        }
        self.hold(prefix)?;
        self.reading.judge(without_return(self.held.as_slice()))?;
        self.held.clear();
        Ok(())
    }

    /// Holds a part of the running line; `LineTooLong` if the line is then too long.
    fn hold(&mut self, part: &[u8]) -> Result<(), Fault>
        ensures judged { (seen : LogSeen) → FollowsSeen self.old.progress seen
            → JudgedTo self.new.progress (rest_judged seen (self.old.held ++ part.now)) result }
        ensures held { OnOk result (self.new ≡ record self.old { held = self.old.held ++ part.now }) }
        ensures refusal { self.new.refusal ≡ self.old.refusal }
    {
        if part.len() > MAX_LOG_LINE - self.held.len() {
            return Err(Fault::Wrong(LogKind::LineTooLong));
        }
        self.held.extend_from_slice(part)?;
        Ok(())
    }

    /// Reads a last line that no line feed ends, if there is one, and ends the log.
    fn end_line(&mut self) -> Result<(), Fault>
        ensures { (files : List (List ℕ)) (bytes : List ℕ) → IsFed self.old files bytes → EndTo self.new files bytes result }
    {
        if !self.held.is_empty() {
            self.reading.judge(self.held.as_slice())?;
            self.held.clear();
        }
        self.reading.end()
    }
}
