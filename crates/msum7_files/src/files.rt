ghost use Rattle.std.specs.Prelude.{◌≡◌, ◌<◌, ◌≤◌, length, ℕ, List, [], Result, MatchResult};
ghost use Rattle.diy_io.specs.Shelf.{Idle, IsReading};
ghost use Rattle.msum7_files.specs.{Logs.{max_piece}, FileFeeding.{ReadsLogs, ReadTo, SummedTo, ClosedTo, ForLogs}};
ghost use Rattle.msum7_files.specs.{LogFiles.{log_seen, ModeAfter, LogFileTo, log_file_end}, SumEnds.{FilesSummed}};

use crate::feeding::{Feeding, PIECE, ReadFault};
use crate::sum_end::SumEnd;
use crate::sum_form::SumForm;
use diy_io::{Failed, OpenError, Shelf, Sink, Words};
use std::alloc::Global;

/// Why a file isn't summed.
#[derive(Clone, Copy)]
pub(crate) enum FileFault {
    Missing,
    Read(ReadFault),
}

impl FileFault {
    /// How the call ends if the file that argument `word` names isn't summed.
    pub(crate) fn end_at(self, word: usize) -> SumEnd
        ensures { result ≡ log_file_end word self }
    {
        match self {
            FileFault::Missing => SumEnd::NoFile { word },
            FileFault::Read(ReadFault::Log(fault)) => fault.end_at(Some(word)),
            FileFault::Read(ReadFault::Device) => SumEnd::ShelfFault,
        }
    }
}

// Reads the open file to its end, and feeds it. The file stays open, unless the shelf fails.
fn read_file<H: Shelf>(
    feeding: &mut Feeding,
    shelf: &mut H,
    buf: &mut [u8],
) -> Result<(), ReadFault>
    requires reading { IsReading (H.seen shelf.old).mode }
    requires some { 0 < length buf.old }
    requires piece { length buf.old ≤ max_piece }
    ensures read { ForLogs feeding.old (λ logs. ReadTo (log_seen (H.seen shelf.old)) (log_seen (H.seen shelf.new)) feeding.new logs result) }
    ensures mode { ModeAfter (H.seen shelf.new).mode result }
    ensures files { (H.seen shelf.new).files ≡ (H.seen shelf.old).files }
    ensures opened { (H.seen shelf.new).opened ≡ (H.seen shelf.old).opened }
    ensures at_open { (H.seen shelf.new).faults_at_open ≡ (H.seen shelf.old).faults_at_open }
{
    loop {
        let count = shelf.read(buf)?;
        if count == 0 {
            return Ok(());
        }
        feeding.feed(&buf[..count])?;
    }
}

// Sums the open file, which stays open, unless the shelf fails.
fn sum_log<H: Shelf>(feeding: &mut Feeding, shelf: &mut H, buf: &mut [u8]) -> Result<(), ReadFault>
    requires reading { IsReading (H.seen shelf.old).mode }
    requires some { 0 < length buf.old }
    requires piece { length buf.old ≤ max_piece }
    ensures mode { ModeAfter (H.seen shelf.new).mode result }
    ensures files { (H.seen shelf.new).files ≡ (H.seen shelf.old).files }
    ensures opened { (H.seen shelf.new).opened ≡ (H.seen shelf.old).opened }
    ensures at_open { (H.seen shelf.new).faults_at_open ≡ (H.seen shelf.old).faults_at_open }
    ensures summed { ForLogs feeding.old (λ logs. SummedTo (log_seen (H.seen shelf.old)) (log_seen (H.seen shelf.new)) feeding.new logs result) }
{
    read_file(feeding, shelf, buf)?;
    feeding.end_log()?;
    Ok(())
}

// Sums the open file, and closes it. An error of the log is returned even if closing fails.
fn sum_open<H: Shelf>(feeding: &mut Feeding, shelf: &mut H, buf: &mut [u8]) -> Result<(), ReadFault>
    requires reading { IsReading (H.seen shelf.old).mode }
    requires some { 0 < length buf.old }
    requires piece { length buf.old ≤ max_piece }
    ensures mode { (H.seen shelf.new).mode ≡ Idle }
    ensures files { (H.seen shelf.new).files ≡ (H.seen shelf.old).files }
    ensures opened { (H.seen shelf.new).opened ≡ (H.seen shelf.old).opened }
    ensures at_open { (H.seen shelf.new).faults_at_open ≡ (H.seen shelf.old).faults_at_open }
    ensures summed { ForLogs feeding.old (λ logs. ClosedTo (log_seen (H.seen shelf.old)) (log_seen (H.seen shelf.new)) feeding.new logs result) }
{
    match sum_log(feeding, shelf, buf) {
        Ok(()) => match shelf.finish() {
            Ok(()) => Ok(()),
            Err(Failed) => Err(ReadFault::Device),
        },
        Err(ReadFault::Log(fault)) => {
            let _ = shelf.finish();
            Err(ReadFault::Log(fault))
        }
        Err(ReadFault::Device) => Err(ReadFault::Device),
    }
}

// Opens a file, sums it and closes it.
pub(crate) fn sum_file<H: Shelf>(
    feeding: &mut Feeding,
    shelf: &mut H,
    name: &str,
    buf: &mut [u8],
) -> Result<(), FileFault>
    requires idle { (H.seen shelf.old).mode ≡ Idle }
    requires some { 0 < length buf.old }
    requires piece { length buf.old ≤ max_piece }
    ensures mode { (H.seen shelf.new).mode ≡ Idle }
    ensures files { (H.seen shelf.new).files ≡ (H.seen shelf.old).files }
    ensures summed { (logs : List (List ℕ)) → ReadsLogs feeding.old logs [] → LogFileTo (H.seen shelf.old) (H.seen shelf.new) feeding.new logs name.now result }
{
    match shelf.open_file(name) {
        Ok(()) => match sum_open(feeding, shelf, buf) {
            Ok(()) => Ok(()),
            Err(fault) => Err(FileFault::Read(fault)),
        },
        Err(OpenError::Missing) => Err(FileFault::Missing),
        Err(OpenError::Failed) => Err(FileFault::Read(ReadFault::Device)),
    }
}

/// Sums the files that the arguments from index `first` on name, in order, and writes the sum to `out`, in a form. At
/// least one argument must name a file, and the shelf must have no open file; it has none afterwards.
pub fn sum_files<H: Shelf, O: Sink>(
    alloc: Global,
    form: SumForm,
    words: &Words,
    first: usize,
    shelf: &mut H,
    out: &mut O,
) -> SumEnd
    requires idle { (H.seen shelf.old).mode ≡ Idle }
    requires some { first < length words.now }
    ensures summed { FilesSummed form (H.seen shelf.old) (H.seen shelf.new) words.now first (O.seen out.old) (O.seen out.new) result }
    ensures mode { (H.seen shelf.new).mode ≡ Idle }
    ensures files { (H.seen shelf.new).files ≡ (H.seen shelf.old).files }
{
    let mut buf = [0; PIECE];
    let Ok(mut feeding) = Feeding::new(alloc) else {
        return SumEnd::NoMemory;
    };
    for word in first..words.len() {
        if let Err(fault) = sum_file(&mut feeding, shelf, words.get(word), &mut buf) {
            return fault.end_at(word);
        }
    }
    match feeding.write_sum(form, out) {
        Ok(()) => SumEnd::Done,
        Err(Failed) => SumEnd::OutFault,
    }
}
