ghost use Rattle.std.specs.Prelude.{◌≢◌, ◌≤◌, length, IfOk, IfErr};
ghost use Rattle.std.specs.{IoError.error_kind, Io.KnownBytes.{ReadConsumes, WriteAppends}};

use std::io;
use std::io::{Error, ErrorKind, Read, Write};

// How often a call is made again that a signal interrupted. Nothing says that signals end, and each function must.
const MOST_SIGNALS: u32 = 4_294_967_295;

/// One read, made again if a signal interrupts it. So an error is never an interruption.
pub(crate) fn read_again<R: Read>(reader: &mut R, buf: &mut [u8]) -> io::Result<usize>
    ensures read { ReadConsumes (R.remaining reader.old) (R.remaining reader.new) result buf.new }
    ensures bound { IfOk result (λ n. n ≤ length buf.new) }
    ensures again { IfErr result (λ e. error_kind e ≢ ErrorKind.Interrupted) }
{
    let mut signals = MOST_SIGNALS;
    while signals > 0 {
        match reader.read(buf) {
            Ok(count) => return Ok(count),
            Err(error) => {
                if error.kind() != ErrorKind::Interrupted {
                    return Err(error);
                }
            }
        }
        signals -= 1;
    }
    Err(Error::from(ErrorKind::TimedOut))
}

/// One write, made again if a signal interrupts it. So an error is never an interruption.
pub(crate) fn write_again<W: Write>(writer: &mut W, bytes: &[u8]) -> io::Result<usize>
    ensures wrote { WriteAppends (W.contents writer.old) (W.contents writer.new) result bytes.now }
    ensures bound { IfOk result (λ n. n ≤ length bytes.now) }
    ensures again { IfErr result (λ e. error_kind e ≢ ErrorKind.Interrupted) }
{
    let mut signals = MOST_SIGNALS;
    while signals > 0 {
        match writer.write(bytes) {
            Ok(count) => return Ok(count),
            Err(error) => {
                if error.kind() != ErrorKind::Interrupted {
                    return Err(error);
                }
            }
        }
        signals -= 1;
    }
    Err(Error::from(ErrorKind::TimedOut))
}
