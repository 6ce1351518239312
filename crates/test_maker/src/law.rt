ghost use Rattle.std.specs.Prelude.{◌≡◌, List, None, Ok};
ghost use Rattle.relax_edges.specs.declared.edge.Edge.{Edge};
ghost use Rattle.cycle_events.specs.Resolution.{resolution_of, turned};
ghost use Rattle.arch_trait.specs.Threads.{Puts};
ghost use Rattle.test_maker.specs.{Made.{AreOfArch}, Refusals.{foreign_edge}};

/// Laws of the resolution of a cycle, if it has one: it is the rotated cycle (`turned`); and if no edge of
/// the cycle is foreign to an architecture, none of the resolution is.
pub fn resolved_edges()
    ensures turned { (cycle : List Edge) → (es : List Edge) → resolution_of cycle ≡ Ok es → turned cycle ≡ es }
    ensures of_arch { (a : Puts) → (cycle : List Edge) → (es : List Edge) → foreign_edge a.name cycle ≡ None → resolution_of cycle ≡ Ok es → AreOfArch a es }
{}
