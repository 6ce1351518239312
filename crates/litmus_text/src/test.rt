ghost use Rattle.std.specs.Prelude.{◌≡◌, []};
ghost use Rattle.final_cond.specs.{declared.cond.Quantifier.TheVariants.{Exists}, Conditions.{cond_view}};

use arch_trait::{Places, ThreadCodes};
use arrayvec::ArrayVec;
use final_cond::Cond;
use relax_edges::{Edge, MAX_EDGES};

/// A litmus test: the edges of the cycle that it is made from, the names of its locations, the code of
/// its threads, and its condition.
#[derive(Drop)]
pub struct Test {
    /// The edges of the resolved cycle.
    pub edges: ArrayVec<Edge, MAX_EDGES>,
    pub places: Places,
    pub threads: ThreadCodes,
    pub cond: Cond,
}

impl Test {
    /// A test without edges, locations, threads and terms, whose condition begins with `exists`. It
    /// stays a function of its own in the program (`inline(never)`), since it needs three times the
    /// stack of a test.
    #[inline(never)]
    pub fn new() -> Test
        ensures edges { result.edges.items ≡ [] }
        ensures places { result.places ≡ [] }
        ensures threads { result.threads.items ≡ [] }
        ensures cond { cond_view result.cond ≡ record { quantifier = Exists; terms = [] } }
    {
        Test {
            edges: ArrayVec::new(),
            places: Places::new(),
            threads: ThreadCodes::new(),
            cond: Cond::default(),
        }
    }
}
