ghost use Rattle.std.specs.Prelude.{◌≡◌, ◌++◌, map, IfOk, OnOk};
ghost use Rattle.program_meaning.specs.{Accesses.{at_name, accesses_of, visits_of, is_read, reads_before}, Executions.{same_write}, Deciding.{name, writes_to}};
ghost use Rattle.exec_meaning.specs.EndedRuns.{item_access};

use micro_ops::{Item, Trace};
use program_meaning::{Access, WriteAt};
use relax_edges::Dir;
use std::alloc::{AllocError, Global};
use std::marker::Model;

/// The accesses of a thread, in program order.
///
/// Contracts see their list.
#[derive(Drop)]
pub(crate) struct Accesses {
    list: Vec<Access>,
}

impl Model for Accesses {
    ghost use Rattle.std.specs.Prelude.{List};
    ghost use Rattle.program_meaning.specs.declared.Access.{Access as Given};

    ghost Value = { List Given };

    ghost view = { λ a. a.list.items };
}

impl Accesses {
    pub(crate) fn as_slice(&self) -> &[Access]
        ensures { result.now ≡ self.now }
    {
        self.list.as_slice()
    }
}

/// Adds the access that an item is, if it is one.
fn push_access(list: &mut Vec<Access>, item: &Item) -> Result<(), AllocError>
    ensures { OnOk result (list.new.items ≡ list.old.items ++ item_access item.now) }
{
    match *item {
        Item::Access {
            dir,
            place,
            value,
            ..
        } => list.push(Access { dir, place, value })?,
        Item::Barrier { .. } => {}
    }
    Ok(())
}

/// The accesses among the items of a run.
#[tactic(auto, using(crate::proofs::VisitLaws::after_item, crate::proofs::VisitLaws::after_items))]
fn accesses_of(alloc: Global, items: &[Item]) -> Result<Accesses, AllocError>
    ensures { IfOk result (λ accesses. accesses ≡ accesses_of (visits_of items.now)) }
{
    let mut list = Vec::new(alloc);
    for item in items {
        push_access(&mut list, item)?;
    }
    Ok(Accesses { list })
}

/// The accesses of each thread.
pub(crate) fn all_accesses(alloc: Global, traces: &[Trace]) -> Result<Vec<Accesses>, AllocError>
    ensures { IfOk result (λ all. all.items ≡ map (λ trace. accesses_of (visits_of trace.items)) traces.now) }
{
    let mut all = Vec::new(alloc);
    for trace in traces {
        all.push(accesses_of(alloc, trace.items())?)?;
    }
    Ok(all)
}

/// The access with a name, if there is one.
pub(crate) fn access_at(all: &[Accesses], name: WriteAt) -> Option<Access>
    ensures { result ≡ at_name all.now name }
{
    let thread = all.get(usize::from(name.thread))?;
    thread.as_slice().get(usize::from(name.access)).copied()
}

/// Whether two names are the same.
pub(crate) fn is_same(write: WriteAt, other: WriteAt) -> bool
    ensures { result ≡ same_write write other }
{
    write.thread == other.thread && write.access == other.access
}

/// Whether a name has these numbers, which may be larger than a name can hold.
pub(crate) fn has_numbers(write: WriteAt, thread: usize, access: usize) -> bool
    ensures { result ≡ same_write (name thread access) write }
{
    thread == usize::from(write.thread) && access == usize::from(write.access)
}

/// Whether an access is a read.
pub(crate) fn is_read(access: &Access) -> bool
    ensures { result ≡ is_read access.now }
{
    access.dir == Dir::R
}

/// Whether an access is a write to a location.
pub(crate) fn writes_to(place: u8, access: &Access) -> bool
    ensures { result ≡ writes_to place access.now }
{
    access.dir == Dir::W && access.place == place
}
