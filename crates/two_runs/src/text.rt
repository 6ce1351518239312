ghost use Rattle.std.specs.{Prelude.{◌≡◌, length, IfOk}, List.{All}};
ghost use Rattle.litmus_text.specs.{Tests.{IsPrintable, test_seen}, TestText.{test_text}};
ghost use Rattle.test_maker.specs.Made.{AreOfArch};
ghost use Rattle.two_runs.specs.Shown.{GivesText};

use crate::errors::WhyError;
use crate::sink::TextSink;
use arch_trait::Arch;
use cycle_resolve::Resolved;
use diy_io::{Failed, NoMemory};
use litmus_text::{Test, print_test};
use std::alloc::Global;
use test_maker::make_unobserved;

/// The text of the test of a cycle without observers, under a name.
pub(crate) fn text_unobserved<A: Arch>(
    alloc: Global,
    resolved: &Resolved,
    name: &str,
) -> Result<Vec<u8>, WhyError>
    requires { AreOfArch A.puts resolved.now }
    ensures { GivesText A.puts A.writing name.now resolved.now result }
{
    let mut test = Test::new();
    make_unobserved::<A>(resolved, &mut test)?;
    Ok(text_of::<A>(alloc, &test, name)?)
}

/// The text of a test under a name.
pub(crate) fn text_of<A: Arch>(alloc: Global, test: &Test, name: &str) -> Result<Vec<u8>, NoMemory>
    requires { All (λ code. IsPrintable A.puts.has A.REGISTERS (length test.now.places) code) test.now.threads.items }
    ensures { IfOk result (λ text. text.items ≡ test_text A.NAME A.writing name.now (test_seen test.now)) }
{
    let mut sink = TextSink::new(alloc);
    match print_test::<A, TextSink>(test, name, &mut sink) {
        Ok(()) => Ok(sink.bytes),
        Err(Failed) => Err(NoMemory),
    }
}
