ghost use Rattle.std.specs.Prelude.{◌≡◌, [], OnOk};
ghost use Rattle.diycross7_cycles.specs.{Known.{AreNormalForms}, CrossingSteps.{keep_turned}};

use crate::normal_form::NormalForm;
use diy_io::NoMemory;
use edge_algebra::Cycle;
use indexmap::IndexSet;
use std::alloc::Global;

/// The cycles that are kept, in order, and their normal forms, by which a rotation of one is recognised.
#[derive(Drop)]
pub(crate) struct Kept {
    known: IndexSet<NormalForm>,
    cycles: Vec<Cycle>,
}

impl Kept {
    /// No cycle.
    pub(crate) fn new(alloc: Global) -> Kept
        ensures none { result.cycles.items ≡ [] }
        ensures known { AreNormalForms result.cycles.items result.known.keys }
    {
        Kept {
            known: IndexSet::new(alloc),
            cycles: Vec::new(alloc),
        }
    }

    /// The cycles.
    pub(crate) fn into_cycles(self) -> Vec<Cycle>
        ensures { result ≡ self.cycles }
    {
        let Kept { known: _, cycles } = self;
        cycles
    }

    /// Keeps a cycle after the others, unless it is a rotation of one of them.
    pub(crate) fn keep(&mut self, cycle: Cycle) -> Result<(), NoMemory>
        requires { AreNormalForms self.old.cycles.items self.old.known.keys }
        ensures kept { OnOk result (self.new.cycles.items ≡ keep_turned self.old.cycles.items cycle) }
        ensures known { OnOk result (AreNormalForms self.new.cycles.items self.new.known.keys) }
    {
        // Brings the invariant of `Cycle` into the proof.
        let _edges = cycle.edges();
        let is_new = self.known.insert(NormalForm::of(&cycle))?;
        if is_new {
            self.cycles.push(cycle)?;
        }
        Ok(())
    }
}
