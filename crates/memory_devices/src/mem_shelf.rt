ghost use Rattle.std.specs.Prelude.{◌≡◌, ◌+◌, ◌-◌, ◌<◌, ◌≤◌, ◌↔◌, ◌⊎◌, ℕ, Err, None, Some, length, take, Contains, IsTrue, IsErr, IfOk, OnOk, OnErr, MatchOption};
ghost use Rattle.diy_io.specs.declared.shelf.OpenError.TheVariants as open_errors;
ghost use Rattle.diy_io.specs.Count.{next_count};
ghost use Rattle.diy_io.specs.Shelf.{Idle, name_written, IsReading, IsWriting, IsBusy, Opened, NotThere, Stopped, Gave, Created, NotCreated, Appended, AppendedPart, Finished};

use crate::mem_files::{MAX_FILE_NAME, MemFiles};
use diy_io::{Failed, NoMemory, OpenError, Shelf, ends_after};
use std::alloc::Global;
use std::marker::Model;

/// What a shelf in memory is doing, with the index of the open file and how many of its bytes were read.
#[derive(Clone, Copy)]
pub(crate) enum Work {
    Idle,
    Reading(usize, usize),
    Writing(usize),
}

/// A shelf in memory, which fails at chosen calls.
///
/// Its calls `open_file`, `read`, `create`, `append` and `finish` are numbered together from 0, and
/// the number stays at the maximum of its type once it reaches it. They allocate no memory.
#[derive(Drop)]
pub struct MemShelf {
    alloc: Global,
    held: MemFiles,
    work: Work,
    fail: Vec<u64>,
    calls: u64,
    faults: u64,
    taken: u64,
    opened: u64,
    ends: u64,
    faults_at_open: u64,
}

impl Model for MemShelf {
    ghost use Rattle.memory_devices.specs.MemShelf.{MemShelfState, mode_of, IsAt};

    ghost Value = { MemShelfState };

    ghost view = { λ s. record {
      held = s.held;
      mode = mode_of s.held.files s.work;
      fail = s.fail.items;
      calls = s.calls;
      faults = s.faults;
      taken = s.taken;
      opened = s.opened;
      ends = s.ends;
      faults_at_open = s.faults_at_open;
    } };

    ghost invariant = { λ s. IsAt s.held.files s.work };
}

impl MemShelf {
    ghost use Rattle.memory_devices.specs.MemFiles.{PutIn, file_place, bytes_at, files_named, with_bytes};
    ghost use Rattle.diy_io.specs.Shelf.{with_more};
    ghost use Rattle.memory_devices.specs.MemShelf.{mem_shelf_seen, new_shelf, Called, SameCall, mode_of, IsPlace};
    ghost use Rattle.memory_devices.specs.declared.mem_shelf.Work.TheVariants as works;

    /// A shelf with no files, and with memory for `files` new names of at most 1,300 bytes each and
    /// for `room` appended bytes in all. The calls whose numbers are in `fail` are among those that
    /// fail. It fails only if there is no memory.
    pub fn new(
        alloc: Global,
        files: usize,
        room: usize,
        fail: Vec<u64>,
    ) -> Result<MemShelf, NoMemory>
        ensures { IfOk result (λ shelf. shelf ≡ new_shelf files room fail.items) }
    {
        Ok(MemShelf {
            alloc,
            held: MemFiles::new(alloc, files, room)?,
            work: Work::Idle,
            fail,
            calls: 0,
            faults: 0,
            taken: 0,
            opened: 0,
            ends: 0,
            faults_at_open: 0,
        })
    }

    /// Gives a file these bytes, whatever it had, while no file is open. The call has no number, and
    /// uses up none of the space for new names and appended bytes. It fails only if there is no
    /// memory, and then leaves the shelf as it was. The name has at most 1,300 bytes.
    pub fn put(&mut self, name: &str, bytes: &[u8]) -> Result<(), NoMemory>
        requires idle { self.old.mode ≡ Idle }
        requires short { length name.now ≤ 1300 }
        ensures ok { OnOk result (PutIn self.old.held self.new.held name.now bytes.now) }
        ensures rest { self.new ≡ record self.old { held = self.new.held } }
        ensures err { OnErr result (self.new ≡ self.old) }
    {
        self.held.put(self.alloc, name.as_bytes(), bytes)
    }

    /// The bytes of a file, or `None` if no file has the name.
    pub fn get(&self, name: &str) -> Option<&[u8]>
        ensures { MatchOption result (files_named self.now.held.files name.now ≡ None) (λ bytes. files_named self.now.held.files name.now ≡ Some bytes.now) }
    {
        let place = self.held.place_of(name.as_bytes())?;
        Some(self.held.bytes_at(place))
    }

    // Counts a failure, and closes the file.
    fn count_fault(&mut self) -> Failed
        ensures failed { self.new ≡ record self.old { mode = Idle; faults = next_count self.old.faults } }
        ensures stopped { Stopped (mem_shelf_seen self.old) (mem_shelf_seen self.new) }
    {
        self.work = Work::Idle;
        self.faults = self.faults.saturating_add(1);
        Failed
    }

    // Whether the next call is one that is to fail.
    fn is_to_fail(&self) -> bool
        ensures { IsTrue result ↔ Contains self.now.fail self.now.calls }
    {
        self.fail.contains(&self.calls)
    }

    // Counts a call, and fails if it is one that is to fail.
    fn begin_call(&mut self) -> Result<(), Failed>
        ensures answer { IsErr result ↔ Contains self.old.fail self.old.calls }
        ensures called { Called self.old self.new }
        ensures held { self.new.held ≡ self.old.held }
        ensures ok { OnOk result (self.new ≡ record self.old { calls = next_count self.old.calls }) }
        ensures stopped { OnErr result (Stopped (mem_shelf_seen self.old) (mem_shelf_seen self.new)) }
    {
        let is_to_fail = self.is_to_fail();
        self.calls = self.calls.saturating_add(1);
        if is_to_fail {
            return Err(self.count_fault());
        }
        Ok(())
    }

    #[tactic(auto, using(crate::proofs::ShelfLaws::place_at_inside))]
    // The index of the file that is read, and how many of its bytes were read.
    fn file_read(&self) -> (usize, usize)
        requires { IsReading self.now.mode }
        ensures mode { self.now.mode ≡ mode_of self.now.held.files (works.Reading result.0 result.1) }
        ensures place { IsPlace result.0 self.now.held.files }
        ensures inside { result.0 < length self.now.held.files }
        ensures within { result.1 ≤ length (bytes_at result.0 self.now.held.files) }
    {
        match self.work {
            Work::Reading(file, at) => (file, at),
            _ => unreachable!(),
        }
    }

    #[tactic(auto, using(crate::proofs::ShelfLaws::place_at_inside))]
    // The index of the file that is written.
    fn file_written(&self) -> usize
        requires { IsWriting self.now.mode }
        ensures mode { self.now.mode ≡ mode_of self.now.held.files (works.Writing result) }
        ensures place { IsPlace result self.now.held.files }
        ensures inside { result < length self.now.held.files }
    {
        match self.work {
            Work::Writing(file) => file,
            _ => unreachable!(),
        }
    }

    // Begins a new file, and fails if its name is too long or there is space for no more files.
    fn add_file(&mut self, name: &[u8]) -> Result<(), Failed>
        requires idle { self.old.mode ≡ Idle }
        requires absent { file_place name.now self.old.held.files ≡ None }
        ensures answer { IsErr result ↔ ((1300 < length name.now) ⊎ (self.old.held.names ≡ 0)) }
        ensures called { SameCall self.old self.new }
        ensures room { self.new.held.room ≡ self.old.held.room }
        ensures names { OnOk result (self.new.held.names ≡ self.old.held.names - 1) }
        ensures unchanged { OnErr result (self.new.held ≡ self.old.held) }
        ensures ok { OnOk result (Created (mem_shelf_seen self.old) (mem_shelf_seen self.new) name.now) }
        ensures failed { OnErr result (Stopped (mem_shelf_seen self.old) (mem_shelf_seen self.new)) }
    {
        if name.len() > MAX_FILE_NAME || self.held.names() == 0 {
            return Err(self.count_fault());
        }
        self.work = Work::Writing(self.held.add(name));
        Ok(())
    }

    // Appends bytes to the file that is written.
    fn grow(&mut self, bytes: &[u8])
        requires writing { IsWriting self.old.mode }
        requires fits { length bytes.now ≤ self.old.held.room }
        ensures grown { self.new ≡ record self.old { held = with_bytes self.old.held (name_written self.old.mode) bytes.now } }
        ensures files { files_named self.new.held.files ≡ with_more (name_written self.old.mode) bytes.now (files_named self.old.held.files) }
    {
        let file = self.file_written();
        self.held.append(file, bytes);
    }
}

impl Shelf for MemShelf {
    ghost use Rattle.memory_devices.specs.{MemFiles.{IsRefusedName, names_after}, MemShelf.{mem_shelf_seen, held_with, half_that_fits, Called}};

    ghost seen = { mem_shelf_seen };

    /// Returns `Failed` exactly when the call's number is one that is to fail. A file that is missing
    /// is not counted as an error.
    fn open_file(&mut self, name: &str) -> Result<(), OpenError>
        requires { self.old.mode ≡ Idle }
        ensures answer { (result ≡ Err open_errors.Failed) ↔ Contains self.old.fail self.old.calls }
        ensures no_fault { result ≡ Err open_errors.Missing → self.new.faults ≡ self.old.faults }
        ensures called { Called self.old self.new }
        ensures held { self.new.held ≡ self.old.held }

        ensures ok { OnOk result (Opened (mem_shelf_seen self.old) (mem_shelf_seen self.new) name.now) }
        ensures missing { result ≡ Err open_errors.Missing → NotThere (mem_shelf_seen self.old) (mem_shelf_seen self.new) name.now }
        ensures failed { result ≡ Err open_errors.Failed → Stopped (mem_shelf_seen self.old) (mem_shelf_seen self.new) }
    {
        if self.begin_call().is_err() {
            return Err(OpenError::Failed);
        }
        match self.held.place_of(name.as_bytes()) {
            None => Err(OpenError::Missing),
            Some(file) => {
                self.work = Work::Reading(file, 0);
                self.taken = 0;
                self.opened = self.opened.saturating_add(1);
                self.faults_at_open = self.faults;
                Ok(())
            }
        }
    }

    /// Fails exactly when the call's number is one that is to fail.
    fn read(&mut self, buf: &mut [u8]) -> Result<usize, Failed>
        requires { IsReading self.old.mode }
        ensures answer { IsErr result ↔ Contains self.old.fail self.old.calls }
        ensures called { Called self.old self.new }
        ensures held { self.new.held ≡ self.old.held }

        ensures bound { IfOk result (λ n. n ≤ length buf.new) }
        ensures ok { IfOk result (λ n. Gave (mem_shelf_seen self.old) (mem_shelf_seen self.new) (take n buf.new) (length buf.new)) }
        ensures failed { OnErr result (Stopped (mem_shelf_seen self.old) (mem_shelf_seen self.new)) }
    {
        self.begin_call()?;
        let (file, at) = self.file_read();
        let rest = &self.held.bytes_at(file)[at..];
        let count = buf.len().min(rest.len());
        buf[..count].copy_from_slice(&rest[..count]);
        self.work = Work::Reading(file, at + count);
        self.taken = self.taken.saturating_add(count as u64);
        self.ends = ends_after(self.ends, buf.len(), count);
        Ok(count)
    }

    /// Fails exactly when the call's number is one that is to fail, or the name is new and has more
    /// than 1,300 bytes or there is space for no more files. If it fails, the files stay as they were.
    fn create(&mut self, name: &str) -> Result<(), Failed>
        requires { self.old.mode ≡ Idle }
        ensures answer { IsErr result ↔ (Contains self.old.fail self.old.calls ⊎ IsRefusedName self.old.held name.now) }
        ensures called { Called self.old self.new }
        ensures room { self.new.held.room ≡ self.old.held.room }
        ensures names { OnOk result (self.new.held.names ≡ names_after self.old.held name.now) }
        ensures unchanged { OnErr result (self.new.held ≡ self.old.held) }

        ensures ok { OnOk result (Created (mem_shelf_seen self.old) (mem_shelf_seen self.new) name.now) }
        ensures failed { OnErr result (NotCreated (mem_shelf_seen self.old) (mem_shelf_seen self.new) name.now) }
    {
        self.begin_call()?;
        match self.held.place_of(name.as_bytes()) {
            None => self.add_file(name.as_bytes()),
            Some(file) => {
                self.held.clear(file);
                self.work = Work::Writing(file);
                Ok(())
            }
        }
    }

    /// Fails exactly when the call's number is one that is to fail, or the bytes exceed the space that
    /// is left. In the first case it takes what fits of the first half of the bytes, rounded down, and
    /// otherwise what fits of them.
    fn append(&mut self, bytes: &[u8]) -> Result<(), Failed>
        requires { IsWriting self.old.mode }
        ensures answer { IsErr result ↔ (Contains self.old.fail self.old.calls ⊎ (self.old.held.room < length bytes.now)) }
        ensures called { Called self.old self.new }
        ensures names { self.new.held.names ≡ self.old.held.names }
        ensures half { Contains self.old.fail self.old.calls → self.new.held ≡ held_with self.old (half_that_fits self.old bytes.now) bytes.now }
        ensures fitting { ¬ Contains self.old.fail self.old.calls → self.new.held ≡ held_with self.old self.old.held.room bytes.now }

        ensures ok { OnOk result (Appended (mem_shelf_seen self.old) (mem_shelf_seen self.new) (name_written self.old.mode) bytes.now) }
        ensures failed { OnErr result (AppendedPart (mem_shelf_seen self.old) (mem_shelf_seen self.new) (name_written self.old.mode) bytes.now) }
    {
        let wanted = if self.is_to_fail() {
            bytes.len() / 2
        } else {
            bytes.len()
        };
        let fitting = wanted.min(self.held.room());
        self.grow(&bytes[..fitting]);
        self.begin_call()?;
        if fitting < bytes.len() {
            return Err(self.count_fault());
        }
        Ok(())
    }

    /// Fails exactly when the call's number is one that is to fail.
    fn finish(&mut self) -> Result<(), Failed>
        requires { IsBusy self.old.mode }
        ensures answer { IsErr result ↔ Contains self.old.fail self.old.calls }
        ensures called { Called self.old self.new }
        ensures held { self.new.held ≡ self.old.held }

        ensures ok { OnOk result (Finished (mem_shelf_seen self.old) (mem_shelf_seen self.new)) }
        ensures failed { OnErr result (Stopped (mem_shelf_seen self.old) (mem_shelf_seen self.new)) }
    {
        self.begin_call()?;
        self.work = Work::Idle;
        Ok(())
    }
}
