ghost use Rattle.std.specs.Prelude.{◌≡◌, ◌<◌, ◌^◌, ◌-◌, cond, count_by, take, IfOk, slice_get};
ghost use Rattle.program_meaning.specs.Accesses.{accesses_of, is_read, reads_by, visits_of};
ghost use Rattle.exec_graph.specs.Ties.{ties_if, untied, with_item};

use micro_ops::Item;
use program_meaning::Barred;
use relax_edges::Dir;
use std::alloc::{AllocError, Global};
use std::marker::Model;

/// What the code of a thread has before an access of it: the barriers between it and the access before it, and the loads that it
/// depends on. Bit `k` of a mask names load number `k` of the thread.
#[derive(Drop)]
pub(crate) struct Ties {
    barriers: Vec<Barred>,
    address_mask: u64,
    data_mask: u64,
    control_mask: u64,
}

impl Model for Ties {
    ghost use Rattle.exec_graph.specs.Ties.{Ties as Given};

    ghost Value = { Given };

    ghost view = { λ t. record { barriers = t.barriers.items; address_mask = t.address_mask; data_mask = t.data_mask; control_mask = t.control_mask } };
}

impl Ties {
    /// Nothing.
    pub(crate) fn none(alloc: Global) -> Ties
        ensures { result ≡ untied }
    {
        Ties {
            barriers: Vec::new(alloc),
            address_mask: 0,
            data_mask: 0,
            control_mask: 0,
        }
    }

    pub(crate) fn barriers(&self) -> &[Barred]
        ensures { result.now ≡ self.now.barriers }
    {
        self.barriers.as_slice()
    }

    pub(crate) fn address_mask(&self) -> u64
        ensures { result ≡ self.now.address_mask }
    {
        self.address_mask
    }

    pub(crate) fn data_mask(&self) -> u64
        ensures { result ≡ self.now.data_mask }
    {
        self.data_mask
    }

    pub(crate) fn control_mask(&self) -> u64
        ensures { result ≡ self.now.control_mask }
    {
        self.control_mask
    }
}

/// What comes before access number `number` of a run, from 0, if there is one.
pub(crate) fn ties_at(alloc: Global, items: &[Item], number: usize) -> Result<Ties, AllocError>
    ensures { IfOk result (λ ties. ties ≡ ties_if (slice_get (visits_of items.now) number)) }
{
    let mut barriers = Vec::new(alloc);
    let mut before = number;
    for item in items {
        match *item {
            Item::Barrier { kind, ctrl_mask } => barriers.push(Barred {
                kind,
                control: ctrl_mask,
            })?,
            Item::Access {
                addr_mask,
                data_mask,
                ctrl_mask,
                ..
            } => {
                if before == 0 {
                    return Ok(Ties {
                        barriers,
                        address_mask: addr_mask,
                        data_mask,
                        control_mask: ctrl_mask,
                    });
                }
                before -= 1;
                barriers.clear();
            }
        }
    }
    Ok(Ties::none(alloc))
}

/// One for a read, nothing for a write.
fn one_if_read(dir: Dir) -> usize
    ensures { result ≡ cond (reads_by dir) 1 0 }
{
    match dir {
        Dir::R => 1,
        Dir::W => 0,
    }
}

/// The loads of a run that were counted, and how many accesses are left of those in which they are.
#[derive(Clone, Copy)]
struct Counted {
    loads: usize,
    left: usize,
}

/// The count after one more item.
fn with_item(so_far: Counted, item: &Item) -> Counted
    requires { so_far.loads < 2 ^ 64 - 1 }
    ensures { result ≡ with_item so_far item.now }
{
    let Counted { loads, left } = so_far;
    match *item {
        Item::Barrier { .. } => so_far,
        Item::Access { dir, .. } => {
            if left == 0 {
                so_far
            } else {
                Counted {
                    loads: loads + one_if_read(dir),
                    left: left - 1,
                }
            }
        }
    }
}

/// How many of the first `number` accesses of a run read.
pub(crate) fn loads_at(items: &[Item], number: usize) -> usize
    ensures { result ≡ count_by is_read (take number (accesses_of (visits_of items.now))) }
{
    let mut so_far = Counted {
        loads: 0,
        left: number,
    };
    for item in items {
        so_far = with_item(so_far, item);
    }
    so_far.loads
}
