ghost use Rattle.std.specs.{Prelude.{◌≡◌, ◌≤◌, ℕ, OnOk, OnErr}, Io.KnownBytes.{Appends}};
ghost use Rattle.diy_io.specs.{Count.{next_count}, Wrote.{Wrote}};

use crate::again::write_again;
use diy_io::{Failed, Sink};
use std::io::Write;

/// A sink over a writer of the standard library.
///
/// It shows nothing of the bytes, since no program knows what becomes of them outside. It buffers
/// none: a write is complete once the writer has taken all of it and has flushed. A write that a
/// signal interrupts is made again. Each other error of the writer, also of its flush, is counted, and
/// so is a write that takes nothing.
#[derive(Drop)]
pub struct StdSink<W> {
    writer: W,
    faults: u64,
}

impl<W: Write> StdSink<W> {
    ghost use Rattle.system_devices.specs.StdSink.{writer_of, std_sink_faults};

    /// A sink over `inner`, with no error so far.
    pub fn new(inner: W) -> StdSink<W>
        ensures writer { writer_of result ≡ inner }
        ensures faults { std_sink_faults result ≡ 0 }
    {
        StdSink {
            writer: inner,
            faults: 0,
        }
    }

    // Counts a failure of the writer.
    fn count_fault(&mut self) -> Failed
        ensures writer { writer_of self.new ≡ writer_of self.old }
        ensures counted { std_sink_faults self.new ≡ next_count (std_sink_faults self.old) }
        ensures never_falls { std_sink_faults self.old ≤ std_sink_faults self.new }
    {
        self.faults = self.faults.saturating_add(1);
        Failed
    }
}

impl<W: Write> Sink for StdSink<W> {
    ghost use Rattle.system_devices.specs.StdSink.{writer_of, std_sink_faults, std_sink_seen, AppendsPrefix};

    ghost seen = { std_sink_seen };

    #[tactic(auto, using(diy_io::specs::SinkLaws::nothing_grew, diy_io::specs::SinkLaws::nothing_stopped, crate::proofs::StdSinkLemmas::took_more, crate::proofs::StdSinkLemmas::took_all, crate::proofs::StdSinkLemmas::took_prefix))]
    fn write_all(&mut self, bytes: &[u8]) -> Result<(), Failed>
        ensures wrote { Wrote (std_sink_seen self.old) (std_sink_seen self.new) bytes.now result }

        // What the writer beneath holds, if it shows that, as a writer in memory does.
        ensures written { OnOk result (Appends (W.contents (writer_of self.old)) (W.contents (writer_of self.new)) bytes.now) }
        ensures cut_off { OnErr result (AppendsPrefix (W.contents (writer_of self.old)) (W.contents (writer_of self.new)) bytes.now) }

        ensures one_fault { OnErr result (std_sink_faults self.new ≡ next_count (std_sink_faults self.old)) }
    {
        let mut rest = bytes;
        while !rest.is_empty() {
            match write_again(&mut self.writer, rest) {
                Ok(0) | Err(_) => return Err(self.count_fault()),
                Ok(n) => rest = &rest[n..],
            }
        }
        match self.writer.flush() {
            Ok(()) => Ok(()),
            Err(_) => Err(self.count_fault()),
        }
    }
}
