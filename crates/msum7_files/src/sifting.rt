ghost use Rattle.std.specs.Prelude.{◌≡◌, ◌+◌, ◌≤◌, ◌^◌, ◌++◌, ℕ, List, [], length, OnOk, IfOk};
ghost use Rattle.log_sum.specs.Sieving.{AreBetweenLogs};

use crate::feeding::LogFault;
use crate::sum_form::SumForm;
use diy_io::{Failed, MAX_INPUT, NoMemory, Sink};
use log_sum::{SkippedBlock, SkippingSummer};
use std::alloc::Global;

/// A summer that leaves out blocks with errors, and how many bytes of the running log it was fed; at most 2^40.
#[derive(Drop)]
pub(crate) struct Sifting {
    pub(crate) summer: SkippingSummer,
    pub(crate) read: u64,
    ghost in_range: { read ≤ 2 ^ 40 },
}

impl Sifting {
    ghost use Rattle.msum7_files.specs.SkipReading.{SiftsLogs, SiftedOn, SiftEnded, KeptWrote};

    pub(crate) fn new(alloc: Global) -> Result<Sifting, NoMemory>
        ensures { IfOk result (λ sifting. SiftsLogs sifting [] []) }
    {
        Ok(Sifting {
            summer: SkippingSummer::new(alloc)?,
            read: 0,
        })
    }

    /// Feeds a piece of the running log, but no bytes after the first 2^40 of the log; `TooMuch` if there are any.
    pub(crate) fn feed(&mut self, piece: &[u8]) -> Result<(), LogFault>
        ensures fed { (logs : List (List ℕ)) (bytes : List ℕ) → SiftsLogs self.old logs bytes → SiftedOn self.new logs (bytes ++ piece.now) result }
        ensures counted { OnOk result (self.new.read ≡ self.old.read + length piece.now) }
    {
        let fitting = piece.len().min((MAX_INPUT - self.read) as usize);
        let prefix = &piece[..fitting];
        self.summer.feed(prefix)?;
        self.read += fitting as u64;
        if fitting < piece.len() {
            return Err(LogFault::TooMuch(self.summer.line()));
        }
        Ok(())
    }

    /// Ends the running log.
    pub(crate) fn end_log(&mut self) -> Result<(), LogFault>
        ensures { (logs : List (List ℕ)) (log : List ℕ) → SiftsLogs self.old logs log → SiftEnded self.new logs log result }
    {
        self.read = 0;
        self.summer.end_file()?;
        Ok(())
    }

    /// Writes the sum of what is kept of the logs that have ended, in a form, and gives the blocks that were left out.
    pub(crate) fn write_sum<O: Sink>(
        self,
        form: SumForm,
        out: &mut O,
    ) -> Result<Vec<SkippedBlock>, Failed>
        requires { AreBetweenLogs self.summer }
        ensures { (logs : List (List ℕ)) → SiftsLogs self logs [] → KeptWrote form logs (O.seen out.old) (O.seen out.new) result }
    {
        match form {
            SumForm::Log => self.summer.write_sum(out)?,
            SumForm::Table => self.summer.write_table(out)?,
        }
        Ok(self.summer.into_skipped())
    }
}
