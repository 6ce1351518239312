/// What is said of a state of a test, by the test's candidate executions that end in it.
#[derive(Clone, Copy, Debug, PartialEq, Eq)]
pub enum Verdict {
    /// One is sequentially consistent: an interleaving of the threads ends so.
    Sequential,
    /// None is sequentially consistent, and one is coherent per location: this is what relaxed memory shows.
    Relaxed,
    /// There are some, and none is coherent per location: the machine, or the run, is broken.
    Incoherent,
    /// There are none: the test that ran isn't this one, or the run is broken.
    Impossible,
    /// Nothing is said.
    Undecided,
}
