ghost use Rattle.std.specs.Prelude.{◌≡◌, map};
ghost use Rattle.diy_io.specs.Shelf.{Idle};
ghost use Rattle.log_sum.specs.Sieving.{skipped_view};
ghost use Rattle.run_status.specs.{Report.{StatusNamesLocation}};
ghost use Rattle.diy_tools.specs.{Devices.{devices}, KeptRequests.{GivesKept}, SkipAnswers.{first_kept, kept_status, left_out, skip_status}};

use crate::sums::{first_log, sum_status};
use diy_io::{Shelf, Sink, Source, Words};
use log_sum::SkippedBlock;
use msum7_files::{SumEnd, SumForm, skip_files, skip_input};
use run_status::{Outcome, Status};
use std::alloc::Global;

/// Sums the logs that the arguments name, or the input if they name none, without the blocks that have errors, and prints
/// the sum in a form.
#[inline(never)]
pub(crate) fn skip<I: Source, O: Sink, H: Shelf>(
    alloc: Global,
    form: SumForm,
    words: &Words,
    input: &mut I,
    shelf: &mut H,
    out: &mut O,
) -> Outcome
    requires { (H.seen shelf.old).mode ≡ Idle }
    ensures gives { GivesKept form words.now result (devices (I.seen input.old, O.seen out.old, H.seen shelf.old)) (devices (I.seen input.new, O.seen out.new, H.seen shelf.new)) }
    ensures idle { (H.seen shelf.new).mode ≡ Idle }
    ensures location { StatusNamesLocation result.status }
{
    let first = first_kept(form);
    if first < words.len() {
        outcome_of(
            alloc,
            Some(first),
            skip_files(alloc, form, words, first, shelf, out),
        )
    } else {
        outcome_of(alloc, None, skip_input(alloc, form, input, out))
    }
}

/// The index of the first argument that can name a log.
fn first_kept(form: SumForm) -> usize
    ensures { result ≡ first_kept form }
{
    first_log(form) + 1
}

/// The outcome of a sum that ended in this way, by the index of the argument that names the first log, if one does.
fn outcome_of(
    alloc: Global,
    first_log: Option<usize>,
    end: Result<Vec<SkippedBlock>, SumEnd>,
) -> Outcome
    ensures status { result.status ≡ skip_status end }
    ensures first { result.first_log ≡ first_log }
    ensures blocks { map skipped_view result.skipped.items ≡ left_out end }
    ensures location { StatusNamesLocation result.status }
{
    match end {
        Ok(skipped) => Outcome {
            status: kept_status(skipped.as_slice()),
            first_log,
            skipped,
        },
        Err(end) => Outcome {
            status: sum_status(end),
            first_log,
            skipped: Vec::new(alloc),
        },
    }
}

/// The status where the sum was written, by the blocks that were left out.
fn kept_status(blocks: &[SkippedBlock]) -> Status
    ensures status { result ≡ kept_status blocks.now }
    ensures location { StatusNamesLocation result }
{
    match blocks {
        [] => Status::Done,
        [_, ..] => Status::Skipped,
    }
}
