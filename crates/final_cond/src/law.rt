ghost use Rattle.std.specs.Prelude.{◌≡◌, Ok};
ghost use Rattle.final_cond.specs.{Conditions.{CondSeen}, CondText.{cond_text}, ConditionReadBack.{IsFormedCondition}, ConditionReading.{cond_read}};

/// A law: the text that `print_cond` writes for a condition is one that `read_cond` reads as that
/// condition, if it has 1 to `MAX_TERMS` terms, its threads are below 64, its names are of their
/// forms, and its values have at most 32 bits.
#[tactic(auto, using(crate::proofs::BackLaws::read_back))]
pub fn printed_reads_back()
    ensures { (condition : CondSeen) → IsFormedCondition condition → cond_read (cond_text condition) ≡ Ok condition }
{}
