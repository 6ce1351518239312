ghost use Rattle.std.specs.{Prelude.{◌≡◌, ◌≤◌, ◌↔◌, true, Some, None, length, List, [], ◌∷◌, OnOk, OnErr, IfOk, IfSome}, Option.{ForSome}};
ghost use Rattle.relax_edges.specs.{declared.TheConstants.{MAX_EDGES}, declared.edge.Edge.{Edge as EdgeValue}};
ghost use Rattle.edge_algebra.specs.Composable.{IsCycle};
ghost use Rattle.cycle_enum.specs.{declared.taken.Taken.TheVariants.{SpreadOver}, Walking.{KnowsOf, Lists, Says}};
ghost use Rattle.diy_io.specs.{Shelf.{Idle}, Wrote.{Wrote}};
ghost use Rattle.test_maker.specs.Refusals.{refusal_of};
ghost use Rattle.tests_to_files.specs.{ListingEnds.{BeginsAfter, EndsAfter, EndsListing}, ListedFiles.{count_line, file_of}, Arrives.{ArrivesOrEnds}};
ghost use Rattle.tests_to_files.specs.{Keeping.{PutsAll, StopsPutting}, Plans.{HaveTests, is_sought, Seeks, plan_in, test_file_of, walk_of, walk_plan, wanted_in}};
ghost use Rattle.tests_to_files.specs.{Putting.{PutFiles, FailsAt}, Ready.{IsReady}};

use crate::ending::ListingEnd;
use crate::files::{FileName, Path, file_named, set_path};
use crate::making::{Desk, make_test};
use crate::names::{Names, put_names};
use crate::putting::put_text;
use crate::wanted::{Wanted, may_lead};
use arch_trait::{Arch, Places, ThreadCodes};
use arrayvec::{ArrayString, ArrayVec};
use cycle_enum::{Limits, Taken, Walk};
use cycle_names::name_of;
use diy_io::{Failed, MAX_FOLDER, Page, Shelf, Sink};
use edge_algebra::Cycle;
use edges_from_text::Relaxes;
use final_cond::Cond;
use itoa::Buffer;
use litmus_text::{KeptTable, Test};
use relax_edges::{Edge, ObsMode};

/// Space for the line on how many tests there are, whose number has at most 39 digits.
const MAX_COUNT_LINE: usize = 80;

/// A listing: which cycles have a test in it, and where the files of the tests are.
#[derive(Drop)]
pub struct Listing<'a> {
    /// Each cycle is built from these: one of its rotations is a concatenation of them.
    pub relaxes: Relaxes,
    /// How many edges a cycle has: at most, or exactly, a number that is at most `MAX_EDGES`.
    pub limits: Limits,
    /// The most threads of a cycle, observers not counted.
    pub threads: u8,
    /// The most accesses of each of a cycle's own threads, observers not counted; `None` is no limit.
    pub accesses: Option<u8>,
    /// How observers are treated.
    pub mode: ObsMode,
    /// The cycle after whose normal form the listing begins; with `None` it begins with the first.
    pub after: Option<Cycle>,
    /// The folder of the files, of at most `MAX_FOLDER` bytes; with `None` a path is the file's name only.
    pub folder: Option<&'a str>,
}

impl<'a> Listing<'a> {
    /// What it requires of a cycle, and where the files of the tests are.
    pub(crate) fn wanted(&self) -> Wanted<'a>
        ensures { result ≡ wanted_in self.now }
    {
        Wanted {
            threads: self.threads,
            accesses: self.accesses,
            mode: self.mode,
            folder: self.folder,
        }
    }

    /// A walk over its cycles with two pruners and a test of cycles, which begins where the listing does.
    pub(crate) fn walk<K: Fn(&[Edge]) -> bool, J: Fn(&[Edge]) -> bool, P: Fn(&Cycle) -> bool>(
        self,
        keep: K,
        fit: J,
        take: P,
    ) -> Walk<K, J, P>
        requires size { self.limits.size ≤ MAX_EDGES }
        requires knows { KnowsOf K.pre K.Fn.post J.pre J.Fn.post P.pre P.Fn.post (SpreadOver self.threads) keep fit take }
        ensures begins { BeginsAfter self.entry.after result.last }
        ensures walk { result ≡ walk_of self.entry keep fit take result.last }
    {
        let taken = Taken::SpreadOver(self.threads);
        let mut walk = Walk::new(self.relaxes, self.limits, taken, keep, fit, take);
        begin_after(&mut walk, &self.after);
        walk
    }
}

/// Writes a file for each listed cycle, in order, then the file `@all` that names them, and then a
/// line on their number to `out`. It allocates no memory.
///
/// A cycle is listed if it is in normal form, keeps the limits, is built from the relaxations, has a test on the
/// architecture in the mode, and has no more threads than are allowed, and no more accesses in each of its own
/// threads; after a given cycle, only if it also follows that cycle's normal form. Its file has the text of its test
/// under its name. The file is called by that name if it has at most 200 bytes, otherwise by `long` and the number of
/// the test in this listing, from 0; then comes `.litmus`. In a folder the file's name comes after the folder's and a
/// slash; `@all` has only the names, each on a line. Numbers stop at the maximum of 128 bits.
///
/// `ShelfFault` comes only if the shelf's error count rose or is at its maximum. Then the files before one are
/// complete, that one is as it was or has a prefix of its text, no other file changed, and nothing is written to
/// `out`. `OutFault` comes only if the error count of `out` rose or is at its maximum. Then all files are complete,
/// and `out` has a prefix of the line. The shelf has no open file before and after.
#[inline(never)]
pub fn list_tests<A: Arch, H: Shelf, O: Sink>(
    listing: Listing,
    shelf: &mut H,
    out: &mut O,
) -> ListingEnd
    requires size { listing.limits.size ≤ MAX_EDGES }
    requires folder { ForSome listing.folder (λ folder. length folder.now ≤ MAX_FOLDER) }
    requires idle { (H.seen shelf.old).mode ≡ Idle }
    ensures { EndsListing O.seen (plan_in A.puts A.writing listing.entry) listing.entry.after result (H.seen shelf.old) (H.seen shelf.new) out.old out.new }
{
    // It is written out here, and not made by a call of `Test::new`, for the reasons given at `Desk`.
    let mut test = Test {
        edges: ArrayVec::new(),
        places: Places::new(),
        threads: ThreadCodes::new(),
        cond: Cond::default(),
    };
    list_with::<A, H, O>(listing, &mut test, shelf, out)
}

/// Writes the files of a listing and the line on their number, as `list_tests` does. Each test is made in `test`.
#[inline(never)]
#[tactic(auto, using(crate::proofs::WantedCycles::pruning))]
fn list_with<A: Arch, H: Shelf, O: Sink>(
    listing: Listing,
    test: &mut Test,
    shelf: &mut H,
    out: &mut O,
) -> ListingEnd
    requires size { listing.limits.size ≤ MAX_EDGES }
    requires folder { ForSome listing.folder (λ folder. length folder.now ≤ MAX_FOLDER) }
    requires idle { (H.seen shelf.old).mode ≡ Idle }
    ensures { EndsListing O.seen (plan_in A.puts A.writing listing.entry) listing.entry.after result (H.seen shelf.old) (H.seen shelf.new) out.old out.new }
{
    let wanted = listing.wanted();
    let keep = |edges: &[Edge]| may_lead::<A>(edges);
    let fit = |edges: &[Edge]| wanted.may_fit(edges);
    let take = |cycle: &Cycle| -> bool
        ensures { result ≡ is_sought A.puts.name wanted.entry.threads wanted.entry.accesses cycle.now }
    { wanted.seeks::<A>(cycle) };
    let mut walk = listing.walk(keep, fit, take);
    list_walk::<A, H, O, _, _, _>(&wanted, &mut walk, test, shelf, out)
}

/// Lets a walk go on after a cycle, if one is given.
fn begin_after<K: Fn(&[Edge]) -> bool, J: Fn(&[Edge]) -> bool, P: Fn(&Cycle) -> bool>(
    walk: &mut Walk<K, J, P>,
    after: &Option<Cycle>,
)
    requires { walk.old.last ≡ None }
    ensures begins { BeginsAfter after.now walk.new.last }
    ensures same { walk.new ≡ record walk.old { last = walk.new.last } }
{
    match after {
        Some(cycle) => walk.after(cycle),
        None => {}
    }
}

/// Writes the files of those of a walk's cycles that have a test, from where the walk is, the file that names them, and the line on
/// their number. Each test is made in `test`.
#[inline(never)]
fn list_walk<
    A: Arch,
    H: Shelf,
    O: Sink,
    K: Fn(&[Edge]) -> bool,
    J: Fn(&[Edge]) -> bool,
    P: Fn(&Cycle) -> bool,
>(
    wanted: &Wanted,
    walk: &mut Walk<K, J, P>,
    test: &mut Test,
    shelf: &mut H,
    out: &mut O,
) -> ListingEnd
    requires knows { KnowsOf K.pre K.Fn.post J.pre J.Fn.post P.pre P.Fn.post walk.old.taken walk.old.keep walk.old.fit walk.old.take }
    requires sought { (cycle : List EdgeValue) → IsCycle cycle → Says P.Fn.post walk.old.take cycle true ↔ Seeks A.puts wanted.now cycle }
    requires folder { ForSome wanted.now.folder (λ folder. length folder.now ≤ MAX_FOLDER) }
    requires idle { (H.seen shelf.old).mode ≡ Idle }
    ensures { EndsAfter O.seen (walk_plan A.puts A.writing wanted.now walk.old) walk.old.last result (H.seen shelf.old) (H.seen shelf.new) out.old out.new }
{
    let mut names = Names::new();
    let count = match put_tests::<A, H, K, J, P>(wanted, walk, test, &mut names, shelf) {
        Ok(count) => count,
        Err(Failed) => return ListingEnd::ShelfFault,
    };
    match put_names::<A, H, K, J, P>(&mut names, wanted.mode, wanted.folder, walk, shelf) {
        Ok(()) => {}
        Err(Failed) => return ListingEnd::ShelfFault,
    }
    match write_count(count, out) {
        Ok(()) => ListingEnd::Done,
        Err(Failed) => ListingEnd::OutFault,
    }
}

/// Writes on the shelf the files of those of a walk's cycles that have a test, from where the walk is, keeps the
/// lines that name them, as far as there is space, and returns their number. Each test is made in `test`.
fn put_tests<
    A: Arch,
    H: Shelf,
    K: Fn(&[Edge]) -> bool,
    J: Fn(&[Edge]) -> bool,
    P: Fn(&Cycle) -> bool,
>(
    wanted: &Wanted,
    walk: &mut Walk<K, J, P>,
    test: &mut Test,
    names: &mut Names,
    shelf: &mut H,
) -> Result<u128, Failed>
    requires knows { KnowsOf K.pre K.Fn.post J.pre J.Fn.post P.pre P.Fn.post walk.old.taken walk.old.keep walk.old.fit walk.old.take }
    requires folder { ForSome wanted.now.folder (λ folder. length folder.now ≤ MAX_FOLDER) }
    requires idle { (H.seen shelf.old).mode ≡ Idle }
    requires no_lines { names.old.lines.items ≡ [] }
    requires not_closed { names.old.closed ≡ None }
    ensures ok { IfOk result (PutsAll A.puts A.writing wanted.now (Lists P.Fn.post walk.old) walk.old.last (H.seen shelf.old) (H.seen shelf.new) names.new) }
    ensures failed { OnErr result (StopsPutting A.puts A.writing wanted.now (Lists P.Fn.post walk.old) walk.old.last (H.seen shelf.old) (H.seen shelf.new)) }
    ensures walk { walk.new ≡ record walk.old { last = walk.new.last } }
{
    let mut desk = Desk {
        name: ArrayString::new(),
        path: Path::new(),
        table: KeptTable::new(),
        page: Page::new(),
    };
    let mut count: u128 = 0;
    while let Some(cycle) = next_made::<A, K, J, P>(walk, wanted.mode, test, &mut desk.table) {
        let file = put_made::<A, H>(wanted, &cycle, count, test, &mut desk, shelf)?;
        count = count.saturating_add(1);
        names.keep(&cycle, &file, count);
    }
    Ok(count)
}

/// The next of a walk's cycles that has a test. That test is made in `test`.
fn next_made<A: Arch, K: Fn(&[Edge]) -> bool, J: Fn(&[Edge]) -> bool, P: Fn(&Cycle) -> bool>(
    walk: &mut Walk<K, J, P>,
    mode: ObsMode,
    test: &mut Test,
    table: &mut KeptTable,
) -> Option<Cycle>
    requires knows { KnowsOf K.pre K.Fn.post J.pre J.Fn.post P.pre P.Fn.post walk.old.taken walk.old.keep walk.old.fit walk.old.take }
    ensures next { ArrivesOrEnds (HaveTests A.puts mode (Lists P.Fn.post walk.old)) walk.old walk.new result }
    ensures ready { IfSome result (λ cycle. IsReady A.NAME A.REGISTERS A.puts A.writing mode cycle test.new table.new) }
{
    while let Some(cycle) = walk.next() {
        if make_test::<A>(&cycle, mode, test, table) {
            return Some(cycle);
        }
    }
    None
}

/// Writes the file of a cycle's test on the shelf, and returns the file's name. The test is made in `test`; what that held doesn't
/// matter.
pub(crate) fn put_test<A: Arch, H: Shelf>(
    wanted: &Wanted,
    cycle: &Cycle,
    number: u128,
    test: &mut Test,
    desk: &mut Desk,
    shelf: &mut H,
) -> Result<FileName, Failed>
    requires has_test { refusal_of A.puts cycle.now wanted.now.mode ≡ None }
    requires folder { ForSome wanted.now.folder (λ folder. length folder.now ≤ MAX_FOLDER) }
    requires idle { (H.seen shelf.old).mode ≡ Idle }
    ensures file { IfOk result (λ file. file.bytes ≡ file_of number cycle.now) }
    ensures ok { OnOk result (PutFiles (H.seen shelf.old) (H.seen shelf.new) (test_file_of A.puts A.writing wanted.now number cycle.now ∷ [])) }
    ensures failed { OnErr result (FailsAt (H.seen shelf.old) (H.seen shelf.new) (test_file_of A.puts A.writing wanted.now number cycle.now)) }
{
    if !make_test::<A>(cycle, wanted.mode, test, &mut desk.table) {
        unreachable!();
    }
    put_made::<A, H>(wanted, cycle, number, test, desk, shelf)
}

/// Writes the file of a cycle's test, which is made already, on the shelf, and returns the file's name.
fn put_made<A: Arch, H: Shelf>(
    wanted: &Wanted,
    cycle: &Cycle,
    number: u128,
    test: &Test,
    desk: &mut Desk,
    shelf: &mut H,
) -> Result<FileName, Failed>
    requires ready { IsReady A.NAME A.REGISTERS A.puts A.writing wanted.now.mode cycle.now test.now desk.old.table }
    requires folder { ForSome wanted.now.folder (λ folder. length folder.now ≤ MAX_FOLDER) }
    requires idle { (H.seen shelf.old).mode ≡ Idle }
    ensures file { IfOk result (λ file. file.bytes ≡ file_of number cycle.now) }
    ensures ok { OnOk result (PutFiles (H.seen shelf.old) (H.seen shelf.new) (test_file_of A.puts A.writing wanted.now number cycle.now ∷ [])) }
    ensures failed { OnErr result (FailsAt (H.seen shelf.old) (H.seen shelf.new) (test_file_of A.puts A.writing wanted.now number cycle.now)) }
{
    name_of(cycle, &mut desk.name);
    let file = file_named(number, desk.name.as_str());
    set_path(wanted.folder, file.as_str(), &mut desk.path);
    put_text::<A, H>(
        desk.path.as_str(),
        desk.name.as_str(),
        test,
        &desk.table,
        &mut desk.page,
        shelf,
    )?;
    Ok(file)
}

/// Writes the line on how many tests there are. If the sink fails, it has taken a prefix of the line.
pub fn write_count<O: Sink>(count: u128, out: &mut O) -> Result<(), Failed>
    ensures { Wrote (O.seen out.old) (O.seen out.new) (count_line count) result }
{
    let mut line: ArrayString<MAX_COUNT_LINE> = ArrayString::new();
    line.push_str("Generator produced ");
    line.push_str(Buffer::new().format(count));
    line.push_str(" tests\n");
    out.write_all(line.as_str().as_bytes())
}
