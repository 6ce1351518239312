ghost use Rattle.std.specs.Prelude.{◌≡◌, ◌↔◌, Err, IfErr, IfOk, IsTrue, Ok};
ghost use Rattle.final_cond.specs.{ConditionReading.{cond_read}, Conditions.{CondSeen}, States.{Meets, value_in_state}};

use final_cond::{CondError, Final, holds, read_cond};

/// Whether a final state meets the condition that a text represents, or the first error of the text.
pub fn meets(text: &str, state: &Final) -> Result<bool, CondError>
    ensures met { IfOk result (λ met. (condition : CondSeen) × (cond_read text.now ≡ Ok condition)
        × (IsTrue met ↔ Meets (value_in_state state.now) condition)) }
    ensures refused { IfErr result (λ error. cond_read text.now ≡ Err error) }
{
    let condition = read_cond(text)?;
    Ok(holds(&condition, state))
}
