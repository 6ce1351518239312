ghost use Rattle.std.specs.Prelude.{◌≡◌, ◌<◌, ◌≤◌, length, ℕ, List, []};
ghost use Rattle.msum7_files.specs.{Logs.{max_piece}, SkipReading.{SiftsLogs, SiftedTo}, SkipEnds.{InputSkipped}};

use crate::feeding::{PIECE, ReadFault};
use crate::sifting::Sifting;
use crate::sum_end::SumEnd;
use crate::sum_form::SumForm;
use diy_io::{Failed, Sink, Source};
use log_sum::SkippedBlock;
use std::alloc::Global;

/// Feeds the input, which is one log, and ends the log.
fn sift_source<I: Source>(
    sifting: &mut Sifting,
    input: &mut I,
    buf: &mut [u8],
) -> Result<(), ReadFault>
    requires some { 0 < length buf.old }
    requires piece { length buf.old ≤ max_piece }
    ensures { (logs : List (List ℕ)) → SiftsLogs sifting.old logs [] → SiftedTo (I.seen input.old) (I.seen input.new) sifting.new logs result }
{
    loop {
        let count = input.read(buf)?;
        if count == 0 {
            sifting.end_log()?;
            return Ok(());
        }
        sifting.feed(&buf[..count])?;
    }
}

/// Sums the input, which is one log, without its blocks that have errors, writes the sum to `out`, in a form, and gives the blocks
/// that were left out. The blocks are given only if the whole sum is written.
pub fn skip_input<I: Source, O: Sink>(
    alloc: Global,
    form: SumForm,
    input: &mut I,
    out: &mut O,
) -> Result<Vec<SkippedBlock>, SumEnd>
    ensures { InputSkipped form (I.seen input.old) (I.seen input.new) (O.seen out.old) (O.seen out.new) result }
{
    let mut buf = [0; PIECE];
    let Ok(mut sifting) = Sifting::new(alloc) else {
        return Err(SumEnd::NoMemory);
    };
    match sift_source(&mut sifting, input, &mut buf) {
        Ok(()) => match sifting.write_sum(form, out) {
            Ok(skipped) => Ok(skipped),
            Err(Failed) => Err(SumEnd::OutFault),
        },
        Err(ReadFault::Log(fault)) => Err(fault.end_at(None)),
        Err(ReadFault::Device) => Err(SumEnd::InputFault),
    }
}
