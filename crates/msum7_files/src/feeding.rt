ghost use Rattle.std.specs.Prelude.{true, ◌≡◌, ◌+◌, ◌≤◌, ◌^◌, ◌++◌, ℕ, List, [], length, OnOk, IfOk};
ghost use Rattle.log_sum.specs.Representing.{IsBetweenLogs};
ghost use Rattle.msum7_files.specs.{FileFaults.{sum_fault, sum_end_at}, declared.feeding.ReadFault.TheVariants.{Log, Device}};
ghost use Rattle.msum7_files.specs.declared.feeding.LogFault.TheVariants as faults;

use crate::sum_end::SumEnd;
use crate::sum_form::SumForm;
use diy_io::{Failed, MAX_INPUT, NoMemory, Sink};
use log_sum::{LogError, SumError, Summer};
use std::alloc::Global;

/// How many bytes are read at once.
pub(crate) const PIECE: usize = 4_096;

/// Why no more of the logs is fed.
#[derive(Clone, Copy)]
pub(crate) enum LogFault {
    /// A line is wrong.
    Wrong(LogError),
    /// The log has more than 2^40 bytes, and this is the line of the byte after these.
    TooMuch(u64),
    /// There was no memory.
    NoMemory,
}

/// Why a log isn't read to its end.
#[derive(Clone, Copy)]
pub(crate) enum ReadFault {
    Log(LogFault),
    /// The device failed.
    Device,
}

impl From<NoMemory> for LogFault {
    ghost from_gives = { λ _ error. error ≡ faults.NoMemory };

    fn from(_error: NoMemory) -> LogFault {
        LogFault::NoMemory
    }
}

impl From<LogFault> for ReadFault {
    ghost from_gives = { λ fault error. error ≡ Log fault };

    fn from(fault: LogFault) -> ReadFault {
        ReadFault::Log(fault)
    }
}

impl From<Failed> for ReadFault {
    ghost from_gives = { λ _ error. error ≡ Device };

    fn from(_error: Failed) -> ReadFault {
        ReadFault::Device
    }
}

/// A summer, and how many bytes of the running log it was fed; at most 2^40.
#[derive(Drop)]
pub(crate) struct Feeding {
    pub(crate) summer: Summer,
    pub(crate) read: u64,
    ghost in_range: { read ≤ 2 ^ 40 },
}

fn fault_of(error: SumError) -> LogFault
    ensures { result ≡ sum_fault error }
{
    match error {
        SumError::Log(error) => LogFault::Wrong(error),
        SumError::NoMemory => LogFault::NoMemory,
    }
}

impl LogFault {
    /// How the call ends if a log can't be summed for this reason.
    pub(crate) fn end_at(self, file: Option<usize>) -> SumEnd
        ensures { result ≡ sum_end_at file self }
    {
        match self {
            LogFault::Wrong(LogError { line, kind }) => SumEnd::Wrong { file, line, kind },
            LogFault::TooMuch(line) => SumEnd::TooMuch { file, line },
            LogFault::NoMemory => SumEnd::NoMemory,
        }
    }
}

impl Feeding {
    ghost use Rattle.msum7_files.specs.FileFeeding.{ReadsLogs, FedOn, EndedOn, SumWrote};

    pub(crate) fn new(alloc: Global) -> Result<Feeding, NoMemory>
        ensures { IfOk result (λ feeding. ReadsLogs feeding [] []) }
    {
        Ok(Feeding {
            summer: Summer::new(alloc)?,
            read: 0,
        })
    }

    /// Feeds a piece of the running log, but no bytes after the first 2^40 of the log; `TooMuch` if there are any.
    pub(crate) fn feed(&mut self, piece: &[u8]) -> Result<(), LogFault>
        ensures fed { (logs : List (List ℕ)) (bytes : List ℕ) → ReadsLogs self.old logs bytes → FedOn self.new logs (bytes ++ piece.now) result }
        ensures counted { OnOk result (self.new.read ≡ self.old.read + length piece.now) }
    {
        let fitting = piece.len().min((MAX_INPUT - self.read) as usize);
        let prefix = &piece[..fitting];
        if let Err(error) = self.summer.feed(prefix) {
            return Err(fault_of(error));
        }
        self.read += fitting as u64;
        if fitting < piece.len() {
            return Err(LogFault::TooMuch(self.summer.line()));
        }
        Ok(())
    }

    /// Ends the running log.
    pub(crate) fn end_log(&mut self) -> Result<(), LogFault>
        ensures { (logs : List (List ℕ)) (log : List ℕ) → ReadsLogs self.old logs log → EndedOn self.new logs log result }
    {
        self.read = 0;
        match self.summer.end_file() {
            Ok(()) => Ok(()),
            Err(error) => Err(fault_of(error)),
        }
    }

    /// Writes the sum of the logs that have ended, in a form.
    pub(crate) fn write_sum<O: Sink>(&self, form: SumForm, out: &mut O) -> Result<(), Failed>
        requires { IsBetweenLogs self.now.summer }
        ensures { (logs : List (List ℕ)) → ReadsLogs self.now logs [] → SumWrote form logs (O.seen out.old) (O.seen out.new) result }
    {
        match form {
            SumForm::Log => self.summer.write_sum(out),
            SumForm::Table => self.summer.write_table(out),
        }
    }
}
