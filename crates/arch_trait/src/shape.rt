ghost use Rattle.std.specs.Prelude.{◌≡◌, ◌≤◌, ◌<◌, ◌+◌, length, not};
ghost use Rattle.arch_trait.specs.{Threads.{shape_of, visits}, Laws.{shape_grown}};

use crate::link::Link;
use crate::step::{MAX_STEPS, Shape, Step};
use relax_edges::Dir;

/// What the accesses need registers for.
#[tactic(auto, using(crate::proofs::Shapes::counted_shape))]
pub fn shape_of(steps: &[Step]) -> Shape
    requires { length steps.now ≤ MAX_STEPS }
    ensures { result ≡ shape_of steps.now }
{
    let mut shape = Shape {
        loads: 0,
        stores: 0,
        addr: 0,
        places: 0,
    };
    for (i, step) in steps.iter().enumerate() {
        add_step(step, &steps[i + 1..], &mut shape);
    }
    shape
}

/// Counts an access that the rest follows. A location is counted at its last access.
fn add_step(step: &Step, rest: &[Step], shape: &mut Shape)
    requires loads_room { shape.old.loads < 255 }
    requires stores_room { shape.old.stores < 255 }
    requires addr_room { shape.old.addr < 255 }
    requires places_room { shape.old.places < 255 }
    ensures { shape.new ≡ shape_grown shape.old step.now.dir step.now.link (not (visits step.now.place rest.now)) }
{
    shape.loads += u8::from(matches!(step.dir, Dir::R));
    shape.stores += u8::from(matches!(step.dir, Dir::W));
    shape.addr += u8::from(matches!(step.link, Link::Addr));
    shape.places += u8::from(!visits(step.place, rest));
}

fn visits(place: u8, steps: &[Step]) -> bool
    ensures { result ≡ visits place steps.now }
{
    steps.iter().any(|step| step.place == place)
}
