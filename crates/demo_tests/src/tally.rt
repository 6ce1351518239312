ghost use Rattle.std.specs.Prelude.{◌≡◌};
ghost use Rattle.demo_tests.specs.TestCounting.{Fits, test_counted, nothing_counted};

use diy_io::TallySink;

/// How many tests there are, and how many line feeds and bytes are in their texts.
#[derive(Clone, Copy)]
pub(crate) struct TestTally {
    pub(crate) tests: u64,
    pub(crate) lines: u64,
    pub(crate) bytes: u64,
}

impl TestTally {
    /// The tally of no tests.
    pub(crate) fn new() -> TestTally
        ensures { result ≡ nothing_counted }
    {
        TestTally {
            tests: 0,
            lines: 0,
            bytes: 0,
        }
    }

    /// Counts one more test, given the tally of its text.
    pub(crate) fn count(&mut self, text: &TallySink)
        requires { Fits text.now self.old }
        ensures { self.new ≡ test_counted text.now self.old }
    {
        self.tests += 1;
        self.lines += text.lines();
        self.bytes += text.bytes();
    }
}
