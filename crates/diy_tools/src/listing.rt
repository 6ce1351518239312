ghost use Rattle.std.specs.{Prelude.{◌≡◌, ◌≤◌, length}, Option.{ForSome}};
ghost use Rattle.relax_edges.specs.declared.TheConstants.{MAX_EDGES};
ghost use Rattle.diy_io.specs.Shelf.{Idle};
ghost use Rattle.diy_words.specs.{Given.{HasForm, list_kept}, declared.request.Request.TheVariants.{List, Lines}};
ghost use Rattle.diy_tools.specs.{ListAnswers.{AnswersList, AnswersListed}, KeptRequests.{EndsOn, EndsLinesOn, asked_listing}, ArchMachines.{machine_of}};
ghost use Rattle.run_status.specs.{Report.{StatusNamesLocation}};
ghost use Rattle.diy_tools.specs.{Statuses.{listing_status}};

use crate::machines::on_machine;
use diy_io::{Failed, MAX_FOLDER, Shelf, Sink};
use diy_words::Diy;
use relax_edges::ArchName;
use run_status::{Device, Status};
use tests_to_files::{Listing, ListingEnd, list_tests, write_listed};

/// Writes the tests of a listing, each in a file.
#[tactic(auto, using(crate::proofs::ListingAnswers::list_answered))]
pub(crate) fn list<H: Shelf, O: Sink>(request: Diy, shelf: &mut H, out: &mut O) -> Status
    requires idle { (H.seen shelf.old).mode ≡ Idle }
    requires form { HasForm (List request) }
    ensures answers { AnswersList (list_kept request.entry) result (H.seen shelf.old) (H.seen shelf.new) (O.seen out.old) (O.seen out.new) }
    ensures location { StatusNamesLocation result }
{
    let arch = request.arch;
    let end = list_on(arch, listing_of(request), shelf, out);
    listing_status(end)
}

/// Writes the lines of the cycles of a listing.
#[tactic(auto, using(crate::proofs::ListingAnswers::lines_written, crate::proofs::ListingAnswers::lines_stopped))]
pub(crate) fn list_lines<O: Sink>(request: Diy, out: &mut O) -> Status
    requires form { HasForm (Lines request) }
    ensures answers { AnswersListed (list_kept request.entry) result (O.seen out.old) (O.seen out.new) }
    ensures location { StatusNamesLocation result }
{
    let arch = request.arch;
    match lines_on(arch, listing_of(request), out) {
        Ok(()) => Status::Done,
        Err(Failed) => Status::WriteFault { of: Device::Out },
    }
}

/// The listing that is asked for, on whatever architecture.
fn listing_of(request: Diy<'_>) -> Listing<'_>
    ensures asked { asked_listing request.entry.arch result ≡ list_kept request.entry }
    ensures size { result.limits.size ≡ request.entry.limits.size }
    ensures folder { result.folder ≡ request.entry.folder }
{
    Listing {
        relaxes: request.relaxes,
        limits: request.limits,
        threads: request.threads,
        accesses: request.accesses,
        mode: request.mode,
        after: request.after,
        folder: request.folder,
    }
}

/// Writes the lines of the cycles of a listing on an architecture.
#[tactic(auto, using(crate::proofs::ListingAnswers::lines_on))]
#[inline(never)]
fn lines_on<O: Sink>(arch: ArchName, listing: Listing, out: &mut O) -> Result<(), Failed>
    requires size { listing.limits.size ≤ MAX_EDGES }
    ensures { EndsLinesOn (machine_of arch) listing.entry (O.seen out.old) (O.seen out.new) result }
{
    on_machine!(arch, write_listed[O](listing, out))
}

/// Writes the tests of a listing on an architecture, each in a file.
#[tactic(auto, using(crate::proofs::ListingAnswers::ends_on))]
#[inline(never)]
fn list_on<H: Shelf, O: Sink>(
    arch: ArchName,
    listing: Listing,
    shelf: &mut H,
    out: &mut O,
) -> ListingEnd
    requires idle { (H.seen shelf.old).mode ≡ Idle }
    requires size { listing.limits.size ≤ MAX_EDGES }
    requires folder { ForSome listing.folder (λ folder. length folder.now ≤ MAX_FOLDER) }
    ensures { EndsOn (machine_of arch) listing.entry result (H.seen shelf.old) (H.seen shelf.new) (O.seen out.old) (O.seen out.new) }
{
    on_machine!(arch, list_tests[H, O](listing, shelf, out))
}

/// The status for each way in which the writing of tests can end.
pub(crate) fn listing_status(end: ListingEnd) -> Status
    ensures status { result ≡ listing_status end }
    ensures location { StatusNamesLocation result }
{
    match end {
        ListingEnd::Done => Status::Done,
        ListingEnd::ShelfFault => Status::WriteFault { of: Device::Shelf },
        ListingEnd::OutFault => Status::WriteFault { of: Device::Out },
    }
}
