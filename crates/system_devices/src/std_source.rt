ghost use Rattle.std.specs.{Prelude.{◌≡◌, ℕ, OnErr}, Io.KnownBytes.{ReadConsumes}};
ghost use Rattle.diy_io.specs.{Count.{next_count}, Taken.{GivesBytes}};

use crate::again::read_again;
use diy_io::{Failed, Source, ends_after};
use std::io::Read;

/// A source over a reader of the standard library.
///
/// It shows nothing of the bytes to come, since no program knows them. A read that a signal interrupts
/// is made again; each other error of the reader is counted, and each end that is seen.
#[derive(Drop)]
pub struct StdSource<R> {
    reader: R,
    taken: u64,
    faults: u64,
    ends: u64,
}

impl<R: Read> StdSource<R> {
    ghost use Rattle.system_devices.specs.StdSource.{reader_of, std_source_faults, std_source_taken, std_source_ends};

    /// A source over `inner`, with nothing taken, no error and no end so far.
    pub fn new(inner: R) -> StdSource<R>
        ensures reader { reader_of result ≡ inner }
        ensures taken { std_source_taken result ≡ 0 }
        ensures faults { std_source_faults result ≡ 0 }
        ensures ends { std_source_ends result ≡ 0 }
    {
        StdSource {
            reader: inner,
            taken: 0,
            faults: 0,
            ends: 0,
        }
    }
}

impl<R: Read> Source for StdSource<R> {
    ghost use Rattle.system_devices.specs.StdSource.{reader_of, std_source_faults, std_source_seen};

    ghost seen = { std_source_seen };

    fn read(&mut self, buf: &mut [u8]) -> Result<usize, Failed>
        ensures gives { GivesBytes (std_source_seen self.old) (std_source_seen self.new) buf.new result }

        // What the reader beneath has left, if it shows that, as a reader in memory does.
        ensures read { ReadConsumes (R.remaining (reader_of self.old)) (R.remaining (reader_of self.new)) result buf.new }
        ensures one_fault { OnErr result (std_source_faults self.new ≡ next_count (std_source_faults self.old)) }
    {
        match read_again(&mut self.reader, buf) {
            Ok(count) => {
                self.taken = self.taken.saturating_add(count as u64);
                self.ends = ends_after(self.ends, buf.len(), count);
                Ok(count)
            }
            Err(_) => {
                self.faults = self.faults.saturating_add(1);
                Err(Failed)
            }
        }
    }
}
