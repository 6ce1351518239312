ghost use Rattle.std.specs.Prelude.{◌≡◌, ◌<◌, length, slice_get, Some, OnOk, OnErr, IfOk, map};
ghost use Rattle.program_meaning.specs.KeptExecutions.{nothing_kept, empty_lists, with_read, with_write};

use crate::WriteAt;
use diy_io::NoMemory;
use std::alloc::{AllocError, Global};
use std::marker::Model;

/// A read: its value, and the write that it reads, or none for the initial value.
pub type Read = (u32, Option<WriteAt>);

/// An execution: for each thread its reads in program order, for each location its writes in coherence order.
///
/// Contracts see the two lists of lists.
#[derive(Drop)]
pub struct Execution {
    reads: Vec<Vec<Read>>,
    writes: Vec<Vec<WriteAt>>,
}

impl Model for Execution {
    ghost use Rattle.std.specs.Prelude.{◌≤◌, length, map};
    ghost use Rattle.program_meaning.specs.Executions.{Execution as Given};

    ghost Value = { Given };

    ghost view = { λ x. record { reads = map (λ list. list.items) x.reads.items; orders = map (λ list. list.items) x.writes.items } };

    ghost invariant = { λ x. (length x.reads.items ≤ 255) × (length x.writes.items ≤ 255) };
}

/// This many empty lists.
fn no_lists<T: Drop>(alloc: Global, count: u8) -> Result<Vec<Vec<T>>, AllocError>
    ensures lists { IfOk result (λ lists. map (λ list. list.items) lists.items ≡ empty_lists count) }
    ensures count { IfOk result (λ lists. length lists.items ≡ count) }
{
    let mut lists = Vec::new(alloc);
    for _ in 0..count {
        lists.push(Vec::new(alloc))?;
    }
    Ok(lists)
}

impl Execution {
    /// An execution with this many threads and locations, without reads and writes, or `NoMemory`.
    pub fn new(alloc: Global, threads: u8, places: u8) -> Result<Execution, NoMemory>
        ensures { IfOk result (λ x. x ≡ nothing_kept threads places) }
    {
        let reads = no_lists(alloc, threads)?;
        let writes = no_lists(alloc, places)?;
        Ok(Execution { reads, writes })
    }

    /// Adds a read after the others of a thread: its value, and the write that it reads, or none for the
    /// initial value. On `NoMemory` the execution is unchanged.
    pub fn add_read(
        &mut self,
        thread: u8,
        value: u32,
        from: Option<WriteAt>,
    ) -> Result<(), NoMemory>
        requires { thread < length self.old.reads }
        ensures ok { OnOk result (self.new ≡ with_read self.old thread (value, from)) }
        ensures err { OnErr result (self.new ≡ self.old) }
    {
        let reads = &mut self.reads[usize::from(thread)];
        reads.push((value, from))?;
        Ok(())
    }

    /// Adds a write after the others of a location. On `NoMemory` the execution is unchanged.
    pub fn add_write(&mut self, place: u8, write: WriteAt) -> Result<(), NoMemory>
        requires { place < length self.old.orders }
        ensures ok { OnOk result (self.new ≡ with_write self.old place write) }
        ensures err { OnErr result (self.new ≡ self.old) }
    {
        let writes = &mut self.writes[usize::from(place)];
        writes.push(write)?;
        Ok(())
    }

    /// How many threads it has.
    pub fn threads(&self) -> u8
        ensures { result ≡ length self.now.reads }
    {
        self.reads.len() as u8
    }

    /// How many locations it has.
    pub fn places(&self) -> u8
        ensures { result ≡ length self.now.orders }
    {
        self.writes.len() as u8
    }

    /// The reads of a thread, in program order.
    pub fn reads(&self, thread: u8) -> &[Read]
        requires { thread < length self.now.reads }
        ensures { slice_get self.now.reads thread ≡ Some result.now }
    {
        self.reads[usize::from(thread)].as_slice()
    }

    /// The writes of a location, in coherence order.
    pub fn writes(&self, place: u8) -> &[WriteAt]
        requires { place < length self.now.orders }
        ensures { slice_get self.now.orders place ≡ Some result.now }
    {
        self.writes[usize::from(place)].as_slice()
    }
}
