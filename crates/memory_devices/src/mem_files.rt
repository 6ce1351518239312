ghost use Rattle.std.specs.Prelude.{◌≡◌, ◌+◌, ◌-◌, ◌<◌, ◌≤◌, ◌++◌, ◌∷◌, ℕ, [], length, vec_len, vec_capacity, map, All, slice_set, IfOk, IfSome, OnOk, OnErr};
ghost use Rattle.memory_devices.specs.MemFiles.{MemFilesState, PutIn, file_place, file_name_at, bytes_at, with_bytes_at};

use diy_io::NoMemory;
use std::alloc::Global;
use std::marker::Model;

/// The most bytes of the name of a file in memory.
pub(crate) const MAX_FILE_NAME: usize = 1_300;

/// A file.
#[derive(Drop)]
pub(crate) struct Entry {
    name: Vec<u8>,
    bytes: Vec<u8>,
}

/// Files in memory, found by their names.
///
/// Their memory is allocated by `new` and `put`, and none when files are added and bytes appended.
#[derive(Drop)]
pub(crate) struct MemFiles {
    entries: Vec<Entry>,
    /// Files to come, with memory for a name and for all bytes that may still be appended.
    spare: Vec<Entry>,
    room: usize,
}

impl Model for MemFiles {
    ghost use Rattle.std.specs.Prelude.{map, vec_len};
    ghost use Rattle.memory_devices.specs.{MemEntries.{file_view, AreMemFiles}, MemFiles.{MemFilesState}};

    ghost Value = { MemFilesState };

    ghost view = { λ m. record { files = map file_view m.entries.items; room = m.room; names = vec_len m.spare } };

    ghost invariant = { λ m. AreMemFiles m.entries m.spare m.room };
}

impl Entry {
    ghost use Rattle.memory_devices.specs.MemEntries.{IsSpare, file_view};

    /// A file with no name and no bytes, and memory for both.
    fn spare(alloc: Global, room: usize) -> Result<Entry, NoMemory>
        ensures { IfOk result (IsSpare room) }
    {
        Ok(Entry {
            name: Vec::with_capacity(alloc, MAX_FILE_NAME)?,
            bytes: Vec::with_capacity(alloc, room)?,
        })
    }

    /// The index of the first file with a name.
    fn place_of(entries: &[Entry], name: &[u8]) -> Option<usize>
        ensures { result ≡ file_place name.now (map file_view entries.now) }
    {
        for (place, entry) in entries.iter().enumerate() {
            if entry.name.as_slice() == name {
                return Some(place);
            }
        }
        None
    }
}

impl MemFiles {
    /// No files, with memory for `files` new ones and for `room` appended bytes in all.
    pub(crate) fn new(alloc: Global, files: usize, room: usize) -> Result<MemFiles, NoMemory>
        ensures { IfOk result (λ held. held ≡ record { files = []; room = room; names = files }) }
    {
        let mut spare = Vec::with_capacity(alloc, files)?;
        for _ in 0..files {
            spare.push(Entry::spare(alloc, room)?)?;
        }
        Ok(MemFiles {
            entries: Vec::with_capacity(alloc, files)?,
            spare,
            room,
        })
    }

    /// How many bytes may still be appended.
    pub(crate) fn room(&self) -> usize
        ensures { result ≡ self.now.room }
    {
        self.room
    }

    /// How many new files may still be added.
    pub(crate) fn names(&self) -> usize
        ensures { result ≡ self.now.names }
    {
        self.spare.len()
    }

    /// The index of the first file with a name.
    pub(crate) fn place_of(&self, name: &[u8]) -> Option<usize>
        ensures place { result ≡ file_place name.now self.now.files }
        ensures inside { IfSome result (λ place. place < length self.now.files) }
    {
        Entry::place_of(self.entries.as_slice(), name)
    }

    /// The bytes of the file at an index.
    pub(crate) fn bytes_at(&self, place: usize) -> &[u8]
        requires { place < length self.now.files }
        ensures { result.now ≡ bytes_at place self.now.files }
    {
        self.entries[place].bytes.as_slice()
    }

    /// Adds a file that has no bytes, and returns its index.
    pub(crate) fn add(&mut self, name: &[u8]) -> usize
        requires names { 0 < self.old.names }
        requires short { length name.now ≤ 1300 }
        ensures place { result ≡ length self.old.files }
        ensures added { self.new ≡ record { files = self.old.files ++ (name.now, []) ∷ []; room = self.old.room; names = self.old.names - 1 } }
    {
        let place = self.entries.len();
        let mut entry = self.spare.pop().unwrap();
        entry.name.extend_from_slice(name).unwrap();
        self.entries.push_reserved(entry);
        place
    }

    /// Removes all bytes of the file at an index.
    pub(crate) fn clear(&mut self, place: usize)
        requires { place < length self.old.files }
        ensures { self.new ≡ record self.old { files = slice_set self.old.files place (file_name_at place self.old.files, []) } }
    {
        self.entries[place].bytes.clear();
    }

    /// Appends bytes to the file at an index.
    pub(crate) fn append(&mut self, place: usize, bytes: &[u8])
        requires there { place < length self.old.files }
        requires fits { length bytes.now ≤ self.old.room }
        ensures { self.new ≡ record self.old { files = with_bytes_at place bytes.now self.old.files; room = self.old.room - length bytes.now } }
    {
        self.entries[place].bytes.extend_from_slice(bytes).unwrap();
        self.room -= bytes.len();
    }

    /// Adds a file, or replaces the bytes of the first one with its name, and reserves memory for all bytes that may still be appended.
    pub(crate) fn put(&mut self, alloc: Global, name: &[u8], bytes: &[u8]) -> Result<(), NoMemory>
        ensures ok { OnOk result (PutIn self.old self.new name.now bytes.now) }
        ensures err { OnErr result (self.new ≡ self.old) }
    {
        let capacity = bytes.len().checked_add(self.room).ok_or(NoMemory)?;
        let mut copy = Vec::with_capacity(alloc, capacity)?;
        copy.extend_from_slice(bytes)?;
        match self.place_of(name) {
            Some(place) => self.entries[place].bytes = copy,
            None => {
                let name = Vec::from_slice(alloc, name)?;
                let places = self.spare.len().checked_add(1).ok_or(NoMemory)?;
                self.entries.reserve(places)?;
                self.entries.push_reserved(Entry { name, bytes: copy });
            }
        }
        Ok(())
    }
}
