ghost use Rattle.std.specs.{Prelude.{◌≡◌, [], true, OnOk}, List.{list_any}, Str.{bytes_eq}};
ghost use Rattle.cycles_from_lines.specs.{Classified.{with_cycle_name}, KeptNames.{names_in_set, AreAmong}};

use cycle_names::Family;
use diy_io::NoMemory;
use std::alloc::Global;
use std::collections::{BTreeSet, HashSet};

/// The names of the cycles of a family, each once, in byte order.
#[derive(Drop)]
pub(crate) struct FamilyNames {
    pub(crate) family: Family,
    /// Strings, since these are compared many bytes at a time, and lists of bytes aren't.
    pub(crate) names: BTreeSet<String>,
    /// Some of these names, if the family isn't `Other`: they are short and few, and come again and
    /// again, so each is looked up by its hash.
    known: HashSet<String>,
    ghost known_are: { AreAmong names known.keys },
}

impl FamilyNames {
    /// A family without any name.
    pub(crate) fn new(alloc: Global, family: Family) -> FamilyNames
        ensures family { result.family ≡ family }
        ensures none { names_in_set result.names ≡ [] }
    {
        FamilyNames {
            family,
            names: BTreeSet::new(alloc),
            known: HashSet::new(alloc),
        }
    }

    /// Adds a name.
    pub(crate) fn put(&mut self, alloc: Global, name: &str) -> Result<(), NoMemory>
        ensures put { OnOk result (names_in_set self.new.names ≡ with_cycle_name (names_in_set self.old.names) name.now) }
        ensures same { self.new.family ≡ self.old.family }
    {
        match self.family {
            Family::Other => self.keep(alloc, name),
            _ => self.keep_known(alloc, name),
        }
    }

    /// Adds a name, unless it is known already.
    fn keep_known(&mut self, alloc: Global, name: &str) -> Result<(), NoMemory>
        ensures put { OnOk result (names_in_set self.new.names ≡ with_cycle_name (names_in_set self.old.names) name.now) }
        ensures same { self.new.family ≡ self.old.family }
    {
        if self.known.contains(name) {
            // Brings the invariant of the names into the proof.
            let _count = self.names.len();
            return Ok(());
        }
        self.keep(alloc, name)?;
        self.know(alloc, name)
    }

    /// Adds a name to the sorted ones.
    fn keep(&mut self, alloc: Global, name: &str) -> Result<(), NoMemory>
        ensures put { OnOk result (names_in_set self.new.names ≡ with_cycle_name (names_in_set self.old.names) name.now) }
        ensures same { self.new.family ≡ self.old.family }
    {
        let name = String::from_str(alloc, name)?;
        self.names.insert(name)?;
        Ok(())
    }

    /// Makes a name known that is among the sorted ones.
    fn know(&mut self, alloc: Global, name: &str) -> Result<(), NoMemory>
        requires { list_any (bytes_eq name.now) (names_in_set self.old.names) ≡ true }
        ensures names { self.new.names ≡ self.old.names }
        ensures same { self.new.family ≡ self.old.family }
    {
        let name = String::from_str(alloc, name)?;
        self.known.insert(name)?;
        Ok(())
    }
}
