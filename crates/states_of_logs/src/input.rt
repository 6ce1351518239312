ghost use Rattle.std.specs.Prelude.{◌≡◌, ◌<◌, length};
ghost use Rattle.diy_io.specs.Shelf.{Idle};
ghost use Rattle.states_of_logs.specs.StatesEnds.{InputJudged};

use crate::log_end::log_end;
use crate::states_end::StatesEnd;
use crate::test_file::test_in_file;
use crate::writing::write_states;
use arch_trait::Arch;
use diy_io::{Shelf, Sink, Source, Words};
use msum7_files::read_input;
use std::alloc::Global;

/// The same for logs that are the input, as one log: the file of the test, which the argument at position `test` names, is
/// read first, and if it can't be used, nothing is read from the input.
pub fn judge_input<A: Arch, I: Source, H: Shelf, O: Sink>(
    alloc: Global,
    words: &Words,
    test: usize,
    shelf: &mut H,
    input: &mut I,
    out: &mut O,
) -> StatesEnd
    requires idle { (H.seen shelf.old).mode ≡ Idle }
    requires within { test < length words.now }
    ensures judged { InputJudged A.NAME A.writing (record { shelf = H.seen shelf.old; input = I.seen input.old; out = O.seen out.old }) (record { shelf = H.seen shelf.new; input = I.seen input.new; out = O.seen out.new }) words.now test result }
    ensures mode { (H.seen shelf.new).mode ≡ Idle }
    ensures files { (H.seen shelf.new).files ≡ (H.seen shelf.old).files }
{
    let read = match test_in_file::<A, H>(alloc, words, test, shelf) {
        Ok(read) => read,
        Err(fault) => return fault.end_at(test),
    };
    match read_input(alloc, input) {
        Ok(summer) => write_states(alloc, test, &read, &summer, out),
        Err(fault) => log_end(fault),
    }
}
