ghost use Rattle.std.specs.{Prelude.{◌≡◌, map, count_by}, List.{flat_map}};
ghost use Rattle.list_laws.specs.Errors.{unless};
ghost use Rattle.litmus_text.specs.{ReadingAnswers.{GivesTest}, TestTable.{is_label_row, lands_among, landing_error, with_after, all_labels_judged}};
ghost use Rattle.litmus_text.specs.Views.{column_seen};

use crate::errors::{TestKind, TextError, error_at_line};
use crate::reading::table::{Column, Placed};
use micro_ops::Micro;

fn is_label(label: u8, placed: &Placed) -> bool
    ensures { result ≡ is_label_row label placed.now }
{
    match placed.op {
        Micro::Label { label: known } => known == label,
        _ => false,
    }
}

fn count_labels(label: u8, ops: &[Placed]) -> usize
    ensures { result ≡ count_by (is_label_row label) ops.now }
{
    ops.iter().filter(|placed| is_label(label, placed)).count()
}

/// Whether the label of an operation, if it is a branch, comes exactly once in its thread, after it.
fn is_landing(op: &Micro, all: &[Placed], remainder: &[Placed]) -> bool
    ensures { result ≡ lands_among is_label_row op.now all.now remainder.now }
{
    match *op {
        Micro::BranchEq { label } | Micro::BranchNz { label, .. } => {
            count_labels(label, all) == 1 && count_labels(label, remainder) == 1
        }
        _ => true,
    }
}

/// Judges the labels of a thread's branches from one operation on.
fn judge_labels(all: &[Placed], remainder: &[Placed]) -> Result<(), TextError>
    ensures { GivesTest (λ judged. judged) result (unless (flat_map (landing_error all.now) (with_after remainder.now)) tt) }
{
    match remainder {
        [] => Ok(()),
        [placed, further @ ..] => {
            if !is_landing(&placed.op, all, further) {
                return Err(error_at_line(TestKind::BadLabel, placed.at_line));
            }
            judge_labels(all, further)
        }
    }
}

/// Judges the labels of all threads.
#[tactic(auto, unfolding(crate::specs::TestTable::all_labels_judged))]
pub(crate) fn judge_all_labels(columns: &[Column]) -> Result<(), TextError>
    ensures { GivesTest (λ judged. judged) result (all_labels_judged (map column_seen columns.now)) }
{
    match columns {
        [] => Ok(()),
        [column, further @ ..] => {
            judge_labels(&column.ops, &column.ops)?;
            judge_all_labels(further)
        }
    }
}
