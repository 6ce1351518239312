ghost use Rattle.std.specs.{Prelude.{◌≡◌, ◌≤◌, Ok, length}, Option.{ForSome}};
ghost use Rattle.diy_io.specs.Shelf.{Idle};
ghost use Rattle.diy_words.specs.{Given.{GivesTask, HasForm}, Requests.{asked_of}};
ghost use Rattle.diy_words.specs.declared.request.Request.TheVariants as requests;
ghost use Rattle.diy_tools.specs.{KeptRequests.{AnswersCrossing, CrossesFor, CrossesOn}};
ghost use Rattle.run_status.specs.{Report.{StatusNamesLocation}};

use crate::listing::listing_status;
use crate::machines::on_machine;
use arch_trait::Arch;
use diy_io::{MAX_FOLDER, NoMemory, Shelf, Sink, Words};
use diy_words::{Cross, read_places};
use diycross7_cycles::crossed_cycles;
use edges_from_text::Relaxes;
use relax_edges::{ArchName, ObsMode};
use run_status::Status;
use std::alloc::Global;
use tests_to_files::put_cycles;

/// Writes the tests of the choices of one relaxation for each position, each test in a file.
#[tactic(auto, using(crate::proofs::CrossAnswers::asks_choices, crate::proofs::CrossAnswers::choices_answered, crate::proofs::CrossAnswers::choices_unread))]
pub(crate) fn cross<H: Shelf, O: Sink>(
    alloc: Global,
    words: &Words,
    request: Cross,
    shelf: &mut H,
    out: &mut O,
) -> Status
    requires idle { (H.seen shelf.old).mode ≡ Idle }
    requires given { GivesTask (Ok (requests.Cross request)) (asked_of words.now) }
    requires form { HasForm (requests.Cross request) }
    ensures answers { AnswersCrossing (asked_of words.now) result (H.seen shelf.old) (H.seen shelf.new) (O.seen out.old) (O.seen out.new) }
    ensures location { StatusNamesLocation result }
{
    match read_places(alloc, words) {
        Ok(places) => cross_places(alloc, request, places.as_slice(), shelf, out),
        Err(NoMemory) => Status::NoMemory,
    }
}

/// Writes the tests of the choices from lists, on the requested architecture.
#[tactic(auto, using(crate::proofs::CrossAnswers::choices_on))]
fn cross_places<H: Shelf, O: Sink>(
    alloc: Global,
    request: Cross,
    places: &[Relaxes],
    shelf: &mut H,
    out: &mut O,
) -> Status
    requires idle { (H.seen shelf.old).mode ≡ Idle }
    requires form { HasForm (requests.Cross request) }
    ensures answers { CrossesFor request.entry places.now result (H.seen shelf.old) (H.seen shelf.new) (O.seen out.old) (O.seen out.new) }
    ensures location { StatusNamesLocation result }
{
    let Cross { arch, mode, folder } = request;
    on_machine!(arch, cross_on[H, O](alloc, mode, folder, places, shelf, out))
}

/// Writes the tests of the choices from lists, on an architecture.
#[tactic(auto, using(crate::proofs::CrossAnswers::choices_written))]
#[inline(never)]
fn cross_on<A: Arch, H: Shelf, O: Sink>(
    alloc: Global,
    mode: ObsMode,
    folder: Option<&str>,
    places: &[Relaxes],
    shelf: &mut H,
    out: &mut O,
) -> Status
    requires idle { (H.seen shelf.old).mode ≡ Idle }
    requires folder { ForSome folder (λ folder. length folder.now ≤ MAX_FOLDER) }
    ensures answers { CrossesOn A.puts A.writing mode folder.entry places.now result (H.seen shelf.old) (H.seen shelf.new) (O.seen out.old) (O.seen out.new) }
    ensures location { StatusNamesLocation result }
{
    match crossed_cycles::<A>(alloc, places, mode) {
        Ok(cycles) => listing_status(put_cycles::<A, H, O>(
            cycles.as_slice(),
            mode,
            folder,
            shelf,
            out,
        )),
        Err(NoMemory) => Status::NoMemory,
    }
}
