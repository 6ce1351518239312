ghost use Rattle.std.specs.Prelude.{◌≡◌, ◌≤◌, ◌<◌, [], length, IfOk};
ghost use Rattle.lines_to_files.specs.ReadTexts.{ReadsText, ReadsPiece, EndsAtLimit};

use diy_io::{Failed, MAX_INPUT, NoMemory, Source};

/// The most bytes that are read at once: 65,536.
const PIECE: usize = 65_536;

/// How the reading of a source's text ended.
#[derive(Clone, Copy)]
pub(crate) enum SourceEnd {
    /// The source is at its end.
    AtEnd,
    /// It has more than `MAX_INPUT` bytes.
    TooMuch,
    /// It failed.
    Fault,
}

/// Reads the text of a source, at most `MAX_INPUT` bytes of it, and returns how the reading ended.
pub(crate) fn read_text<I: Source>(input: &mut I, text: &mut Vec<u8>) -> Result<SourceEnd, NoMemory>
    requires { text.old.items ≡ [] }
    ensures { IfOk result (λ end. ReadsText (I.seen input.old) (I.seen input.new) text.new.items end) }
{
    let mut piece = [0; PIECE];
    while (text.len() as u64) < MAX_INPUT {
        let room = PIECE.min((MAX_INPUT - text.len() as u64) as usize);
        match read_piece(input, &mut piece, room) {
            Ok(count) => text.extend_from_slice(&piece[..count])?,
            Err(end) => return Ok(end),
        }
    }
    Ok(end_at_limit(input))
}

/// How the reading ends once `MAX_INPUT` bytes were read.
fn end_at_limit<I: Source>(input: &mut I) -> SourceEnd
    ensures { EndsAtLimit (I.seen input.old) (I.seen input.new) result }
{
    let mut byte = [0];
    match read_piece(input, &mut byte, 1) {
        Ok(_) => SourceEnd::TooMuch,
        Err(end) => end,
    }
}

/// Reads at most `room` bytes to the start of a buffer, at least one, or returns how the reading ended.
#[tactic(auto, using(diy_io::proofs::EndLaws::end_counted, diy_io::proofs::EndLaws::no_end_counted))]
fn read_piece<I: Source>(input: &mut I, buffer: &mut [u8], room: usize) -> Result<usize, SourceEnd>
    requires some { 0 < room }
    requires within { room ≤ length buffer.old }
    ensures { ReadsPiece (I.seen input.old) (I.seen input.new) buffer.new room result }
{
    match input.read(&mut buffer[..room]) {
        Ok(0) => Err(SourceEnd::AtEnd),
        Ok(count) => Ok(count),
        Err(Failed) => Err(SourceEnd::Fault),
    }
}
