ghost use Rattle.std.specs.Prelude.{◌≡◌, [], ◌∷◌, IfErr, IfOk, Ok};
ghost use Rattle.log_sum.specs.Representing.{IsBetweenLogs, kept_text, logs_text};

use log_sum::{SumError, Summer, sum_or_fault};
use std::alloc::Global;

/// A summer that was fed two complete logs. What its `write_sum` writes is their sum.
pub fn sum_of_two(alloc: Global, first: &[u8], second: &[u8]) -> Result<Summer, SumError>
    ensures { IfOk result (λ summer. IsBetweenLogs summer × (logs_text (first.now ∷ second.now ∷ []) ≡ Ok (kept_text summer))) }
{
    // The law that what is kept of complete logs is their sum.
    sum_or_fault();
    let Ok(mut summer) = Summer::new(alloc) else {
        return Err(SumError::NoMemory);
    };
    summer.feed(first)?;
    summer.end_file()?;
    summer.feed(second)?;
    summer.end_file()?;
    Ok(summer)
}
