//! Laws of sums of logs: a printed sum is a log, and the sum of sums is the sum.
#![tactic(auto)]

ghost use Rattle.log_sum_laws.specs.Laws.{SumsAreLogs, SumOfSums, SumsOfKept};

/// A printed sum is read as a log without an error, and its sum is itself.
///
/// It must keep the limits of a log (`KeepsSumLimits`): a line of the sum may be too long, for instance, if its
/// logs wrote the state in fewer bytes.
#[tactic(auto, using(crate::proofs::Laws::sums_are_logs))]
pub fn sums_are_logs()
    ensures { SumsAreLogs }
{}

/// If logs have no error together, printed sums of parts of them that keep the limits sum up to the same bytes as
/// the logs: of two parts, of one part between other logs, and in any tree over the logs in their order. And
/// the logs of a first part, and the others, have no error by themselves.
#[tactic(auto, using(crate::proofs::Laws::sum_of_sums))]
pub fn sum_of_sums()
    ensures { SumOfSums }
{}

/// The laws of sums of sums hold of what is kept of logs, where blocks with errors are left out; and a log with an error
/// alone has one after any logs, so such a block costs itself alone.
#[tactic(auto, using(crate::proofs::Laws::sums_of_kept))]
pub fn sums_of_kept()
    ensures { SumsOfKept }
{}
