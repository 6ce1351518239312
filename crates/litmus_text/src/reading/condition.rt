ghost use Rattle.std.specs.Prelude.{◌≡◌};
ghost use Rattle.final_cond.specs.Conditions.{cond_view};
ghost use Rattle.litmus_text.specs.{ReadingAnswers.{GivesTest, GivesInMemory}, Condition.{condition_read}, ConditionScan.{cond_scanned}};
ghost use Rattle.litmus_text.specs.Views.{text_left, setting_seen, cond_read_seen};

use crate::errors::{ReadError, TestKind, TextError, error_at_line};
use crate::reading::joined::Joined;
use crate::reading::lines::Lines;
use crate::reading::terms::{Mentioned, Setting, read_terms};
use crate::reading::text::Text;
use arch_trait::{Arch, Places};
use arrayvec::ArrayVec;
use final_cond::{Cond, read_opening};
use std::alloc::Global;
use text_parts::without_blanks;

/// Reads the whole text of a condition.
#[tactic(auto, unfolding(crate::specs::ConditionScan::cond_scanned))]
fn read_cond_here<A: Arch>(here: &Setting, names: Places) -> Result<(Cond, Places), TextError>
    ensures { GivesTest cond_read_seen result (cond_scanned A.writing (setting_seen here.now) names) }
{
    let (quantifier, inside) = match read_opening(here.text.bytes.as_slice()) {
        Ok(opening) => opening,
        Err(_) => return Err(error_at_line(TestKind::BadCondition, here.begins)),
    };
    let mut terms = ArrayVec::new();
    let mut mentioned = Mentioned { names, over: None };
    let remainder = read_terms::<A>(here, inside, &mut mentioned, &mut terms)?;
    if !without_blanks(remainder).is_empty() {
        return Err(error_at_line(TestKind::BadCondition, here.begins));
    }
    match mentioned.over {
        None => Ok((Cond { quantifier, terms }, mentioned.names)),
        Some(line) => Err(error_at_line(TestKind::TooLarge, line)),
    }
}

/// Reads the condition: the rest of the text.
#[tactic(auto, using(crate::proofs::ConditionScanned::scanned_is), unfolding(crate::specs::Condition::condition_read))]
pub(crate) fn read_condition<A: Arch>(
    alloc: Global,
    threads: usize,
    names: Places,
    text: Text<'_>,
) -> Result<(Cond, Places), ReadError>
    ensures { GivesInMemory cond_read_seen result (condition_read A.writing threads names (text_left text.entry)) }
{
    let line = match text.lines() {
        Lines::Ends(end) => return Err(ReadError::Text(error_at_line(TestKind::EndMissing, end))),
        Lines::Line(line) => line,
    };
    let mut joined = Joined::new(alloc);
    joined.push(line.number, line.text)?;
    joined.push_all(line.rest)?;
    let here = Setting {
        threads,
        begins: line.number,
        text: joined,
    };
    Ok(read_cond_here::<A>(&here, names)?)
}
