ghost use Rattle.std.specs.Prelude.{◌≡◌};
ghost use Rattle.diy_io.specs.{Count.{ends_after}, Taken.{SourceSeen, GivesBytes}};

use crate::errors::Failed;

/// The most bytes that an input or a log may have: 2^40.
pub const MAX_INPUT: u64 = 1_099_511_627_776;

/// What bytes are read from: a file, a terminal, memory.
///
/// A source may show the bytes that are still to come. It counts the bytes that were taken, the reads
/// that failed, and the ends that were seen, each up to the maximum of 64 bits.
pub trait Source {
    // The bytes still to come, if the source shows them, how many were taken, how many reads failed, and how often the end was seen.
    ghost seen: { Self → SourceSeen };

    /// Reads bytes into the start of `buf`, and returns how many. If `buf` is not empty, 0 means the
    /// end of the input, which is counted as an end that was seen.
    fn read(&mut self, buf: &mut [u8]) -> Result<usize, Failed>
        ensures { GivesBytes (seen self.old) (seen self.new) buf.new result };
}

/// A count of ends after a read of `count` bytes into space for `room`: one more, up to the maximum of
/// 64 bits, if there was space and nothing was read.
pub fn ends_after(ends: u64, room: usize, count: usize) -> u64
    ensures { result ≡ ends_after ends room count }
{
    if count == 0 && room > 0 {
        ends.saturating_add(1)
    } else {
        ends
    }
}
