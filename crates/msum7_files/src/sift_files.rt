ghost use Rattle.std.specs.Prelude.{◌≡◌, ◌<◌, ◌≤◌, length, ℕ, List, []};
ghost use Rattle.diy_io.specs.Shelf.{Idle, IsReading};
ghost use Rattle.msum7_files.specs.{Logs.{max_piece}, SkipReading.{SiftsLogs, SiftReadTo, SiftedTo, SiftClosedTo, FileSiftedTo, ForSifted}};
ghost use Rattle.msum7_files.specs.{LogFiles.{log_seen, ModeAfter}, SkipEnds.{FilesSkipped}};

use crate::feeding::{PIECE, ReadFault};
use crate::files::FileFault;
use crate::sifting::Sifting;
use crate::sum_end::SumEnd;
use crate::sum_form::SumForm;
use diy_io::{Failed, OpenError, Shelf, Sink, Words};
use log_sum::SkippedBlock;
use std::alloc::Global;

// Reads the open file to its end, and feeds it. The file stays open, unless the shelf fails.
fn read_file<H: Shelf>(
    sifting: &mut Sifting,
    shelf: &mut H,
    buf: &mut [u8],
) -> Result<(), ReadFault>
    requires reading { IsReading (H.seen shelf.old).mode }
    requires some { 0 < length buf.old }
    requires piece { length buf.old ≤ max_piece }
    ensures read { ForSifted sifting.old (λ logs. SiftReadTo (log_seen (H.seen shelf.old)) (log_seen (H.seen shelf.new)) sifting.new logs result) }
    ensures mode { ModeAfter (H.seen shelf.new).mode result }
    ensures files { (H.seen shelf.new).files ≡ (H.seen shelf.old).files }
    ensures opened { (H.seen shelf.new).opened ≡ (H.seen shelf.old).opened }
    ensures at_open { (H.seen shelf.new).faults_at_open ≡ (H.seen shelf.old).faults_at_open }
{
    loop {
        let count = shelf.read(buf)?;
        if count == 0 {
            return Ok(());
        }
        sifting.feed(&buf[..count])?;
    }
}

// Feeds the open file and ends its log. The file stays open, unless the shelf fails.
fn sift_log<H: Shelf>(sifting: &mut Sifting, shelf: &mut H, buf: &mut [u8]) -> Result<(), ReadFault>
    requires reading { IsReading (H.seen shelf.old).mode }
    requires some { 0 < length buf.old }
    requires piece { length buf.old ≤ max_piece }
    ensures mode { ModeAfter (H.seen shelf.new).mode result }
    ensures files { (H.seen shelf.new).files ≡ (H.seen shelf.old).files }
    ensures opened { (H.seen shelf.new).opened ≡ (H.seen shelf.old).opened }
    ensures at_open { (H.seen shelf.new).faults_at_open ≡ (H.seen shelf.old).faults_at_open }
    ensures summed { ForSifted sifting.old (λ logs. SiftedTo (log_seen (H.seen shelf.old)) (log_seen (H.seen shelf.new)) sifting.new logs result) }
{
    read_file(sifting, shelf, buf)?;
    sifting.end_log()?;
    Ok(())
}

// Feeds the open file, ends its log, and closes it.
fn sift_open<H: Shelf>(
    sifting: &mut Sifting,
    shelf: &mut H,
    buf: &mut [u8],
) -> Result<(), ReadFault>
    requires reading { IsReading (H.seen shelf.old).mode }
    requires some { 0 < length buf.old }
    requires piece { length buf.old ≤ max_piece }
    ensures mode { (H.seen shelf.new).mode ≡ Idle }
    ensures files { (H.seen shelf.new).files ≡ (H.seen shelf.old).files }
    ensures opened { (H.seen shelf.new).opened ≡ (H.seen shelf.old).opened }
    ensures at_open { (H.seen shelf.new).faults_at_open ≡ (H.seen shelf.old).faults_at_open }
    ensures summed { ForSifted sifting.old (λ logs. SiftClosedTo (log_seen (H.seen shelf.old)) (log_seen (H.seen shelf.new)) sifting.new logs result) }
{
    match sift_log(sifting, shelf, buf) {
        Ok(()) => match shelf.finish() {
            Ok(()) => Ok(()),
            Err(Failed) => Err(ReadFault::Device),
        },
        Err(ReadFault::Log(fault)) => {
            let _ = shelf.finish();
            Err(ReadFault::Log(fault))
        }
        Err(ReadFault::Device) => Err(ReadFault::Device),
    }
}

// Opens a file, feeds it and closes it.
fn sift_file<H: Shelf>(
    sifting: &mut Sifting,
    shelf: &mut H,
    name: &str,
    buf: &mut [u8],
) -> Result<(), FileFault>
    requires idle { (H.seen shelf.old).mode ≡ Idle }
    requires some { 0 < length buf.old }
    requires piece { length buf.old ≤ max_piece }
    ensures mode { (H.seen shelf.new).mode ≡ Idle }
    ensures files { (H.seen shelf.new).files ≡ (H.seen shelf.old).files }
    ensures summed { (logs : List (List ℕ)) → SiftsLogs sifting.old logs [] → FileSiftedTo (H.seen shelf.old) (H.seen shelf.new) sifting.new logs name.now result }
{
    match shelf.open_file(name) {
        Ok(()) => match sift_open(sifting, shelf, buf) {
            Ok(()) => Ok(()),
            Err(fault) => Err(FileFault::Read(fault)),
        },
        Err(OpenError::Missing) => Err(FileFault::Missing),
        Err(OpenError::Failed) => Err(FileFault::Read(ReadFault::Device)),
    }
}

/// Sums the files that the arguments from index `first` on name, in order, without their blocks that have errors, writes the sum to
/// `out`, in a form, and gives the blocks that were left out. They are given only if the whole sum is written. At least one argument
/// must name a file, and the shelf must have no open file; it has none afterwards.
pub fn skip_files<H: Shelf, O: Sink>(
    alloc: Global,
    form: SumForm,
    words: &Words,
    first: usize,
    shelf: &mut H,
    out: &mut O,
) -> Result<Vec<SkippedBlock>, SumEnd>
    requires idle { (H.seen shelf.old).mode ≡ Idle }
    requires some { first < length words.now }
    ensures summed { FilesSkipped form (H.seen shelf.old) (H.seen shelf.new) words.now first (O.seen out.old) (O.seen out.new) result }
    ensures mode { (H.seen shelf.new).mode ≡ Idle }
    ensures files { (H.seen shelf.new).files ≡ (H.seen shelf.old).files }
{
    let mut buf = [0; PIECE];
    let Ok(mut sifting) = Sifting::new(alloc) else {
        return Err(SumEnd::NoMemory);
    };
    for word in first..words.len() {
        if let Err(fault) = sift_file(&mut sifting, shelf, words.get(word), &mut buf) {
            return Err(fault.end_at(word));
        }
    }
    match sifting.write_sum(form, out) {
        Ok(skipped) => Ok(skipped),
        Err(Failed) => Err(SumEnd::OutFault),
    }
}
