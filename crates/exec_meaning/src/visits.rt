ghost use Rattle.std.specs.Prelude.{◌≡◌, IfOk, option_map, slice_get};
ghost use Rattle.program_meaning.specs.Accesses.{visits_of};
ghost use Rattle.exec_meaning.specs.StandingEdges.{named};

use micro_ops::Item;
use program_meaning::{Access, Barred, WriteAt};
use relax_edges::Mark;
use std::alloc::{AllocError, Global};
use std::marker::Model;

/// An access of a thread, with its mark, the barriers between it and the access before it, and the loads
/// that it depends on: bit `k` of a mask names load number `k` of the thread.
#[derive(Drop)]
pub(crate) struct Visit {
    barriers: Vec<Barred>,
    access: Access,
    mark: Mark,
    address_mask: u64,
    data_mask: u64,
    control_mask: u64,
}

impl Model for Visit {
    ghost use Rattle.program_meaning.specs.Accesses.{Visit as Given};

    ghost Value = { Given };

    ghost view = { λ v. record { barriers = v.barriers.items; access = v.access; mark = v.mark; address_mask = v.address_mask; data_mask = v.data_mask; control_mask = v.control_mask } };
}

impl Visit {
    pub(crate) fn barriers(&self) -> &[Barred]
        ensures { result.now ≡ self.now.barriers }
    {
        self.barriers.as_slice()
    }

    pub(crate) fn access(&self) -> &Access
        ensures { result.now ≡ self.now.access }
    {
        &self.access
    }

    pub(crate) fn mark(&self) -> Mark
        ensures { result ≡ self.now.mark }
    {
        self.mark
    }

    pub(crate) fn address_mask(&self) -> u64
        ensures { result ≡ self.now.address_mask }
    {
        self.address_mask
    }

    pub(crate) fn data_mask(&self) -> u64
        ensures { result ≡ self.now.data_mask }
    {
        self.data_mask
    }

    pub(crate) fn control_mask(&self) -> u64
        ensures { result ≡ self.now.control_mask }
    {
        self.control_mask
    }
}

/// An access of an execution, by its name, with what comes before it.
#[derive(Drop)]
pub(crate) struct NamedAccess {
    name: WriteAt,
    visit: Visit,
}

impl Model for NamedAccess {
    ghost use Rattle.program_meaning.specs.Standing.{NamedAccess as Given};

    ghost Value = { Given };

    ghost view = { λ a. record { name = a.name; visit = a.visit } };
}

impl NamedAccess {
    pub(crate) fn new(name: WriteAt, visit: Visit) -> NamedAccess
        ensures { result ≡ named name visit }
    {
        NamedAccess { name, visit }
    }

    pub(crate) fn name(&self) -> WriteAt
        ensures { result ≡ self.now.name }
    {
        self.name
    }

    pub(crate) fn visit(&self) -> &Visit
        ensures { result.now ≡ self.now.visit }
    {
        &self.visit
    }
}

/// Access number `slot` of a run, from 0, if there is one.
pub(crate) fn visit_at(alloc: Global, items: &[Item], slot: u8) -> Result<Option<Visit>, AllocError>
    ensures { IfOk result (λ visit. visit ≡ slice_get (visits_of items.now) slot) }
{
    let mut barriers = Vec::new(alloc);
    let mut before = slot;
    for item in items {
        match *item {
            Item::Barrier { kind, ctrl_mask } => barriers.push(Barred {
                kind,
                control: ctrl_mask,
            })?,
            Item::Access {
                dir,
                mark,
                place,
                value,
                addr_mask,
                data_mask,
                ctrl_mask,
            } => {
                if before == 0 {
                    return Ok(Some(Visit {
                        barriers,
                        access: Access { dir, place, value },
                        mark,
                        address_mask: addr_mask,
                        data_mask,
                        control_mask: ctrl_mask,
                    }));
                }
                before -= 1;
                barriers.clear();
            }
        }
    }
    Ok(None)
}
