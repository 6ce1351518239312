use cycles_from_lines::LineKind;
use relax_edges::ObsMode;
use test_maker::Refusal;

/// Which test of a cycle is made.
#[derive(Clone, Copy)]
pub enum TestForm {
    /// The test of edges, with observers by the mode.
    Observed(ObsMode),
    /// The coherence test.
    Coherence,
}

/// What is wrong with a line, or with the test that it asks for: the first of these that applies, in this order.
#[derive(Clone, Copy)]
pub enum WrongTest {
    /// The line has an error.
    Line(LineKind),
    /// The label is no name of a test, or is `long` and a number, which stands for names that are too long for a file.
    BadName,
    /// The test of a line before has the name.
    NameTaken,
    /// The cycle has no test.
    Refused(Refusal),
}
