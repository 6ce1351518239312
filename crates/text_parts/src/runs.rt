ghost use Rattle.std.specs.Prelude.{◌≡◌};
ghost use Rattle.text_parts.specs.LeadingRuns.{leading_run, after_run};
ghost use Rattle.text_parts.specs.Classes.{class_test};

use crate::classes::Class;

/// The longest prefix of a text whose bytes are all in a class, and the text after it.
#[tactic(auto, using(crate::proofs::RunLaws::run_stops, crate::proofs::RunLaws::run_ends, crate::proofs::RunLaws::none_passed, crate::proofs::RunLaws::one_passed))]
pub fn split_run(class: Class, text: &[u8]) -> (&[u8], &[u8])
    ensures run { result.0.now ≡ leading_run (class_test class) text.now }
    ensures rest { result.1.now ≡ after_run (class_test class) text.now }
{
    for (i, byte) in text.iter().enumerate() {
        if !class.has(*byte) {
            return text.split_at(i);
        }
    }
    (text, &[])
}
