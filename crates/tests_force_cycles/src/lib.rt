//! The test of a cycle as a definition, and what it means: in each of its outcomes the cycle's edges stand.
#![tactic(auto)]

ghost use Rattle.tests_force_cycles.specs.TestHeadline.{TestsForce, RenumberedForce, TestsAsk};

/// On every architecture that keeps the laws and finds its registers by name, the test of a cycle that
/// has one forces the cycle: all edges of the cycle stand in every candidate execution of the test that
/// is coherent per location and meets the condition; there is one such execution, the intended one, and
/// no other.
pub fn tests_force()
    ensures { TestsForce }
{}

/// The same holds for every test that differs from it only in the numbers of its locations, such as
/// one that was printed and read again.
pub fn renumbered_tests_force()
    ensures { RenumberedForce }
{}

/// A candidate execution of such a test that is coherent per location meets the condition exactly when
/// each load of the cycle and of the observers reads the number that is asked for, and each location
/// that isn't observed and has two writes or more ends with its last value.
pub fn tests_ask()
    ensures { TestsAsk }
{}
