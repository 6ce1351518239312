ghost use Rattle.std.specs.Prelude.{◌≡◌};
ghost use Rattle.cycles_from_lines.specs.NamedCycles.{cycle_named, NamedCyclesAreFound};

use cycle_names::{NotAName, cycle_of};
use edge_algebra::Cycle;
use relax_edges::ArchName;

/// The cycle of an architecture that has a name, in the rotation that it is named from. It is `None` if no cycle of the
/// architecture has the name, for example if the bytes aren't UTF-8.
#[tactic(auto, using(crate::proofs::NamedCycles::none_unencoded))]
pub fn cycle_named(arch: ArchName, name: &[u8]) -> Option<Cycle>
    ensures { result ≡ cycle_named arch name.now }
{
    match str::from_utf8(name) {
        Ok(name) => cycle_of_name(arch, name),
        Err(_) => None,
    }
}

#[tactic(auto, using(crate::proofs::NamedCycles::named_cycle, crate::proofs::NamedCycles::named_none))]
fn cycle_of_name(arch: ArchName, name: &str) -> Option<Cycle>
    ensures { result ≡ cycle_named arch name.now }
{
    match cycle_of(name, arch) {
        Ok(cycle) => Some(cycle),
        Err(NotAName) => None,
    }
}

/// What `cycle_named` gives for a name is the cycle of the architecture that has it, in the rotation that it is named from;
/// and it gives none exactly if no cycle of the architecture has the name.
#[tactic(auto, using(crate::proofs::NamedCycles::named_cycles_are_found))]
pub fn named_cycles_are_found()
    ensures { NamedCyclesAreFound }
{}
