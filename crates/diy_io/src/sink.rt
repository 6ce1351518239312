ghost use Rattle.diy_io.specs.Wrote.{SinkSeen, Wrote};

use crate::errors::Failed;

/// What bytes are written to: a file, a terminal, memory.
///
/// A sink may show the bytes that it has taken, or their tally. It counts the writes that failed, up
/// to the maximum of 64 bits.
pub trait Sink {
    // What the sink shows of the bytes that it has taken, and how many writes failed.
    ghost seen: { Self → SinkSeen };

    /// Writes all of `bytes`. If the sink fails, it has taken a prefix of them.
    fn write_all(&mut self, bytes: &[u8]) -> Result<(), Failed>
        ensures { Wrote (seen self.old) (seen self.new) bytes.now result };
}
