ghost use Rattle.log_sum.specs.{Representing.{SumOrFault}, SumPieces.{SameAnswers}, SumText.{TableIsObserved}, Skipping.{SkippingLaws}, Sieving.{SumOfKept}};

/// A law: the same bytes give the same results and the same sum, in whatever pieces they come.
///
/// Two summers that were fed the same logs and the same bytes of one more return the same, also when
/// that log ends, and have the same sum. If one returns an error of the log, one that was fed more bytes
/// of the log returns it too. Only `NoMemory` may come instead of another result.
#[tactic(auto, using(crate::proofs::PieceLaws::one_answer_in_pieces))]
pub fn same_answers()
    ensures { SameAnswers }
{}

/// A law: a line of the table has the words of the line of the observation in the sum.
pub fn table_is_observed()
    ensures { TableIsObserved }
{}

/// A law: what is printed of whole logs is their sum or their table, and the bytes so far of a log show an error or none.
///
/// So what a summer between two logs prints is the sum, or the table, of the facts that the blocks of its logs state. If
/// the bytes so far of a log show an error, this is the first error of the logs, whatever follows.
#[tactic(auto, using(crate::proofs::RepresentingLaws::sum_or_fault))]
pub fn sum_or_fault()
    ensures { SumOrFault }
{}

/// A law: what is kept of logs, where blocks with errors are left out, has no error; logs without an error are kept whole; and a
/// block with an error costs itself alone.
#[tactic(auto, using(crate::proofs::AloneLaws::skipping_laws))]
pub fn skipping_laws()
    ensures { SkippingLaws }
{}

/// A law: what a summer that leaves out blocks with errors prints between two logs is the sum, or the table, of what is kept of
/// them, and the blocks that it left out are all others.
#[tactic(auto, using(crate::proofs::SievedLaws::sum_of_kept))]
pub fn sum_of_kept()
    ensures { SumOfKept }
{}
