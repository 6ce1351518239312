ghost use Rattle.std.specs.Prelude.{◌≡◌, ◌<◌, ◌≤◌, length, ℕ, List, [], Result};
ghost use Rattle.msum7_files.specs.{Logs.{max_piece}, FileFeeding.{ReadsLogs, SummedTo}, SumEnds.{InputSummed}};

use crate::feeding::{Feeding, PIECE, ReadFault};
use crate::sum_end::SumEnd;
use crate::sum_form::SumForm;
use diy_io::{Failed, Sink, Source};
use std::alloc::Global;

/// Feeds the input, which is one log, and ends the log.
pub(crate) fn sum_source<I: Source>(
    feeding: &mut Feeding,
    input: &mut I,
    buf: &mut [u8],
) -> Result<(), ReadFault>
    requires some { 0 < length buf.old }
    requires piece { length buf.old ≤ max_piece }
    ensures { (logs : List (List ℕ)) → ReadsLogs feeding.old logs [] → SummedTo (I.seen input.old) (I.seen input.new) feeding.new logs result }
{
    loop {
        let count = input.read(buf)?;
        if count == 0 {
            feeding.end_log()?;
            return Ok(());
        }
        feeding.feed(&buf[..count])?;
    }
}

/// Sums the input, which is one log, and writes the sum to `out`, in a form.
pub fn sum_input<I: Source, O: Sink>(
    alloc: Global,
    form: SumForm,
    input: &mut I,
    out: &mut O,
) -> SumEnd
    ensures { InputSummed form (I.seen input.old) (I.seen input.new) (O.seen out.old) (O.seen out.new) result }
{
    let mut buf = [0; PIECE];
    let Ok(mut feeding) = Feeding::new(alloc) else {
        return SumEnd::NoMemory;
    };
    match sum_source(&mut feeding, input, &mut buf) {
        Ok(()) => match feeding.write_sum(form, out) {
            Ok(()) => SumEnd::Done,
            Err(Failed) => SumEnd::OutFault,
        },
        Err(ReadFault::Log(fault)) => fault.end_at(None),
        Err(ReadFault::Device) => SumEnd::InputFault,
    }
}
