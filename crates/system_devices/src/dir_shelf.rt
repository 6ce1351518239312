ghost use Rattle.std.specs.Prelude.{◌≡◌, ◌↔◌, ◌+◌, ◌≤◌, ◌∷◌, ℕ, [], Err, None, length, take, IsOk, IfOk, OnOk, OnErr};
ghost use Rattle.diy_io.specs.declared.shelf.OpenError.TheVariants as open_errors;
ghost use Rattle.diy_io.specs.Count.{next_count};
ghost use Rattle.diy_io.specs.Shelf.{ShelfSeen, Idle, name_written, IsReading, IsWriting, IsBusy, Opened, NotThere, Stopped, Gave, Created, NotCreated, Appended, AppendedPart, Finished};
ghost use Rattle.system_devices.specs.DirShelf.{dir_shelf_seen};

use crate::again::{read_again, write_again};
use diy_io::{Failed, OpenError, Shelf, ends_after};
use std::alloc::{AllocError, Global};
use std::fs::OpenOptions;
use std::io::{Error, ErrorKind, Write};
use std::marker::Model;
use std::rt::Files;
use std::{fs, io, mem};

/// The file that is read or written.
#[derive(Drop)]
pub(crate) enum AtFile<F> {
    Closed,
    Reading(F),
    Writing(F),
}

/// The name of the file that says which others are there. Nobody sees it before it is whole.
const LIST: &str = "@all";

// A draft's name is that of the list with a period before it and one of these or more after it, at most as many as this: a draft of a
// call that was killed stays, and the next call takes the next name.
const MARK: &str = "~";

const MOST_MARKS: u32 = 100;

/// A shelf over the files of the system, whose names are paths. It makes no folders.
///
/// It shows nothing of the files, since no program knows what becomes of them outside, and buffers
/// no bytes. A call that a signal interrupts is made again. Counted as errors are each other error of
/// the system in opening, creating, reading, writing and renaming a file, a missing file among them, a
/// write that takes nothing, and a name for which there is no memory. An error in closing a file is not
/// seen, since the standard library drops it.
///
/// A file that is called `@all` is written under another name in its folder, and `finish` gives it its
/// own: so it is whole, or as it was. If a call fails before that, what it wrote is removed.
#[derive(Drop)]
pub struct DirShelf<R: Files> {
    files: R,
    name: String,
    // What the file that is written is called until its end, if it isn't its name.
    draft: String,
    file: AtFile<R::File>,
    faults: u64,
    taken: u64,
    opened: u64,
    ends: u64,
    faults_at_open: u64,
}

impl<R: Files> Model for DirShelf<R> {
    ghost use Rattle.std.specs.Prelude.{string_bytes};
    ghost use Rattle.system_devices.specs.DirShelf.{DirShelfState, mode_seen};

    ghost Value = { DirShelfState };

    ghost view = { λ s. record {
      mode = mode_seen (string_bytes s.name) s.file;
      faults = s.faults;
      taken = s.taken;
      opened = s.opened;
      ends = s.ends;
      faults_at_open = s.faults_at_open;
    } };
}

impl<R: Files> DirShelf<R> {
    /// A shelf over `files` that has no open file and has counted nothing. It allocates no memory
    /// before the first file.
    pub fn new(alloc: Global, files: R) -> DirShelf<R>
        ensures { result ≡ record { mode = Idle; faults = 0; taken = 0; opened = 0; ends = 0; faults_at_open = 0 } }
    {
        DirShelf {
            files,
            name: String::new(alloc),
            draft: String::new(alloc),
            file: AtFile::Closed,
            faults: 0,
            taken: 0,
            opened: 0,
            ends: 0,
            faults_at_open: 0,
        }
    }

    // Counts a failure, closes the file, and removes it if it is a draft.
    fn count_fault(&mut self) -> Failed
        ensures failed { self.new ≡ record self.old { mode = Idle; faults = next_count self.old.faults } }
        ensures stopped { Stopped (dir_shelf_seen self.old) (dir_shelf_seen self.new) }
    {
        self.file = AtFile::Closed;
        self.remove_draft();
        self.faults = self.faults.saturating_add(1);
        Failed
    }

    // Removes the draft, if there is one.
    fn remove_draft(&mut self)
        ensures { self.new ≡ self.old }
    {
        if !self.draft.is_empty() {
            let _ = fs::remove_file(&self.files, self.draft.as_str());
            self.draft.clear();
        }
    }

    // Creates a file, or the draft of the list.
    fn begin(&mut self, name: &str) -> io::Result<R::File>
        ensures { self.new ≡ self.old }
    {
        match folder_of_list(name) {
            Some(folder) => {
                let answer = begin_draft(&self.files, folder, &mut self.draft);
                if answer.is_err() {
                    self.draft.clear();
                }
                answer
            }
            None => fs::create(&self.files, name),
        }
    }

    // Gives a draft its name, once its file is closed.
    fn name_draft(&self) -> Result<(), Failed> {
        if self.draft.is_empty() {
            return Ok(());
        }
        judged(fs::rename(&self.files, self.draft.as_str(), self.name.as_str()))
    }

    // Begins to read a file. It fails only if there is no memory for the name.
    fn read_from(&mut self, name: &str, file: R::File) -> Result<(), AllocError>
        requires { self.old.mode ≡ Idle }
        ensures ok { OnOk result (Opened (dir_shelf_seen self.old) (dir_shelf_seen self.new) name.now) }
        ensures err { OnErr result (self.new ≡ self.old) }
    {
        self.name.clear();
        self.name.push_str(name)?;
        self.file = AtFile::Reading(file);
        self.taken = 0;
        self.opened = self.opened.saturating_add(1);
        self.faults_at_open = self.faults;
        Ok(())
    }

    // Begins to write a file. It fails only if there is no memory for the name.
    fn write_to(&mut self, name: &str, file: R::File) -> Result<(), AllocError>
        requires { self.old.mode ≡ Idle }
        ensures ok { OnOk result (Created (dir_shelf_seen self.old) (dir_shelf_seen self.new) name.now) }
        ensures err { OnErr result (self.new ≡ self.old) }
    {
        self.name.clear();
        self.name.push_str(name)?;
        self.file = AtFile::Writing(file);
        Ok(())
    }
}

impl<R: Files> Shelf for DirShelf<R> {
    ghost seen = { dir_shelf_seen };

    fn open_file(&mut self, name: &str) -> Result<(), OpenError> {
        match fs::open(&self.files, name) {
            Ok(file) => match self.read_from(name, file) {
                Ok(()) => Ok(()),
                Err(_) => {
                    self.count_fault();
                    Err(OpenError::Failed)
                }
            },
            Err(error) => {
                self.count_fault();
                match error.kind() {
                    ErrorKind::NotFound => Err(OpenError::Missing),
                    _ => Err(OpenError::Failed),
                }
            }
        }
    }

    fn read(&mut self, buf: &mut [u8]) -> Result<usize, Failed> {
        let answer = match &mut self.file {
            AtFile::Reading(file) => read_again(file, buf),
            _ => unreachable!(),
        };
        match answer {
            Ok(count) => {
                self.taken = self.taken.saturating_add(count as u64);
                self.ends = ends_after(self.ends, buf.len(), count);
                Ok(count)
            }
            Err(_) => Err(self.count_fault()),
        }
    }

    fn create(&mut self, name: &str) -> Result<(), Failed> {
        match self.begin(name) {
            Ok(file) => match self.write_to(name, file) {
                Ok(()) => Ok(()),
                Err(_) => Err(self.count_fault()),
            },
            Err(_) => Err(self.count_fault()),
        }
    }

    fn append(&mut self, bytes: &[u8]) -> Result<(), Failed> {
        let answer = match &mut self.file {
            AtFile::Writing(file) => write_whole(file, bytes),
            _ => unreachable!(),
        };
        match answer {
            Ok(()) => Ok(()),
            Err(Failed) => Err(self.count_fault()),
        }
    }

    fn finish(&mut self) -> Result<(), Failed> {
        self.file = AtFile::Closed;
        match self.name_draft() {
            Ok(()) => {
                self.draft.clear();
                Ok(())
            }
            Err(Failed) => Err(self.count_fault()),
        }
    }
}

// What the shelf says to an answer of the system: it fails exactly if the system did.
fn judged(answer: io::Result<()>) -> Result<(), Failed>
    ensures { IsOk result ↔ IsOk answer }
{
    match answer {
        Ok(()) => Ok(()),
        Err(_) => Err(Failed),
    }
}

// Creates the draft of the list of a folder, under a name that no file has, and notes this name.
fn begin_draft<R: Files>(files: &R, folder: &str, draft: &mut String) -> io::Result<R::File> {
    draft.clear();
    draft.push_str(folder)?;
    draft.push_str(".")?;
    draft.push_str(LIST)?;
    for _ in 0..MOST_MARKS {
        draft.push_str(MARK)?;
        let mut options = OpenOptions::new();
        let _ = options.write(true).create_new(true);
        match options.open(files, draft.as_str()) {
            Ok(file) => return Ok(file),
            Err(error) => {
                if error.kind() != ErrorKind::AlreadyExists {
                    return Err(error);
                }
            }
        }
    }
    Err(Error::from(ErrorKind::AlreadyExists))
}

// What is before the list's name in a path whose last part that is.
fn folder_of_list(path: &str) -> Option<&str> {
    let folder = path.strip_suffix(LIST)?;
    if folder.is_empty() || folder.ends_with("/") {
        Some(folder)
    } else {
        None
    }
}

// Writes all bytes and flushes. A write that takes no byte is an error.
fn write_whole<W: Write>(file: &mut W, bytes: &[u8]) -> Result<(), Failed> {
    let mut rest = bytes;
    while !rest.is_empty() {
        match write_again(file, rest) {
            Ok(0) | Err(_) => return Err(Failed),
            Ok(n) => rest = &rest[n..],
        }
    }
    judged(file.flush())
}
