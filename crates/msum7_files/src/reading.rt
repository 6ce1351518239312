ghost use Rattle.std.specs.Prelude.{◌≡◌, ◌<◌, length};
ghost use Rattle.diy_io.specs.Shelf.{Idle};
ghost use Rattle.msum7_files.specs.LogsFed.{LogFilesTo, LogInputTo, fault_in_file, fault_in_input, fault_in_log};

use crate::feeding::{Feeding, LogFault, PIECE, ReadFault};
use crate::files::{FileFault, sum_file};
use crate::input::sum_source;
use crate::logs_fault::LogsFault;
use diy_io::{Shelf, Source, Words};
use log_sum::{LogError, Summer};
use std::alloc::Global;

/// Why the logs weren't all read, if no more of this file or of the input is fed for a reason.
fn fault_in_log(file: Option<usize>, fault: LogFault) -> LogsFault
    ensures { result ≡ fault_in_log file fault }
{
    match fault {
        LogFault::Wrong(LogError { line, kind }) => LogsFault::Wrong { file, line, kind },
        LogFault::TooMuch(line) => LogsFault::TooMuch { file, line },
        LogFault::NoMemory => LogsFault::NoMemory,
    }
}

/// Why the logs weren't all read, if the file that the argument `word` names wasn't.
fn fault_in_file(word: usize, fault: FileFault) -> LogsFault
    ensures { result ≡ fault_in_file word fault }
{
    match fault {
        FileFault::Missing => LogsFault::NoFile { word },
        FileFault::Read(ReadFault::Log(fault)) => fault_in_log(Some(word), fault),
        FileFault::Read(ReadFault::Device) => LogsFault::ShelfFault,
    }
}

/// Why the input wasn't read.
fn fault_in_input(fault: ReadFault) -> LogsFault
    ensures { result ≡ fault_in_input fault }
{
    match fault {
        ReadFault::Log(fault) => fault_in_log(None, fault),
        ReadFault::Device => LogsFault::InputFault,
    }
}

/// Feeds the files that the arguments from index `first` on name, in order, as logs to a summer, which is then between two
/// logs. At least one argument must name a file, and the shelf must have no open file; it has none afterwards.
pub fn read_files<H: Shelf>(
    alloc: Global,
    words: &Words,
    first: usize,
    shelf: &mut H,
) -> Result<Summer, LogsFault>
    requires idle { (H.seen shelf.old).mode ≡ Idle }
    requires some { first < length words.now }
    ensures read { LogFilesTo (H.seen shelf.old) (H.seen shelf.new) words.now first result }
    ensures mode { (H.seen shelf.new).mode ≡ Idle }
    ensures files { (H.seen shelf.new).files ≡ (H.seen shelf.old).files }
{
    let mut buf = [0; PIECE];
    let Ok(mut feeding) = Feeding::new(alloc) else {
        return Err(LogsFault::NoMemory);
    };
    for word in first..words.len() {
        if let Err(fault) = sum_file(&mut feeding, shelf, words.get(word), &mut buf) {
            return Err(fault_in_file(word, fault));
        }
    }
    Ok(feeding.summer)
}

/// Feeds the input, as one log, to a summer, which is then between two logs.
pub fn read_input<I: Source>(alloc: Global, input: &mut I) -> Result<Summer, LogsFault>
    ensures { LogInputTo (I.seen input.old) (I.seen input.new) result }
{
    let mut buf = [0; PIECE];
    let Ok(mut feeding) = Feeding::new(alloc) else {
        return Err(LogsFault::NoMemory);
    };
    match sum_source(&mut feeding, input, &mut buf) {
        Ok(()) => Ok(feeding.summer),
        Err(fault) => Err(fault_in_input(fault)),
    }
}
