ghost use Rattle.std.specs.Prelude.{ℕ, List, [], ◌∷◌, ◌++◌, IfOk, OnOk};
ghost use Rattle.diy_io.specs.Wrote.{Wrote};
ghost use Rattle.relax_edges.specs.declared.edge.Edge.{Edge};
ghost use Rattle.cycles_from_lines.specs.{Classified.{families_text}, FamilyTables.{HoldsCycles}};

use crate::names::FamilyNames;
use crate::table::{no_names, put_cycle, write_families};
use arrayvec::ArrayString;
use cycle_names::MAX_CYCLE_NAME;
use diy_io::{Failed, NoMemory, Sink};
use edge_algebra::Cycle;
use std::alloc::Global;
use std::marker::Model;

/// The names of cycles by their families, each name once.
///
/// Contracts see each family with its names.
#[derive(Drop)]
pub struct Families {
    table: Vec<FamilyNames>,
    /// Space for a name.
    name: ArrayString<MAX_CYCLE_NAME>,
}

impl Model for Families {
    ghost use Rattle.std.specs.Prelude.{◌≡◌, List, length, map};
    ghost use Rattle.cycles_from_lines.specs.FamilyTables.{FamilyEntry, family_view};

    ghost Value = { List FamilyEntry };

    ghost view = { λ families. map family_view families.table.items };

    ghost invariant = { λ families. length families.table.items ≡ 15 };
}

impl Families {
    /// The families without any name. It fails only if there is no memory.
    pub fn new(alloc: Global) -> Result<Families, NoMemory>
        ensures { IfOk result (λ families. HoldsCycles families []) }
    {
        Ok(Families {
            table: no_names(alloc)?,
            name: ArrayString::new(),
        })
    }

    /// Adds the name of a cycle to those of its family. It fails only if there is no memory.
    pub fn put(&mut self, cycle: &Cycle) -> Result<(), NoMemory>
        ensures { OnOk result ((cycles : List (List Edge)) → HoldsCycles self.old cycles → HoldsCycles self.new (cycles ++ cycle.now ∷ [])) }
    {
        put_cycle(&mut self.table, cycle, &mut self.name)
    }

    /// Writes, for each family that has a cycle, in the order of `Family`, a line of its name and a colon, and its
    /// names, each after two blanks, in byte order. If the sink fails, it has taken a prefix of that.
    pub fn write<O: Sink>(&self, out: &mut O) -> Result<(), Failed>
        ensures { (cycles : List (List Edge)) → HoldsCycles self.now cycles → Wrote (O.seen out.old) (O.seen out.new) (families_text cycles) result }
    {
        write_families(self.table.as_slice(), out)
    }
}
