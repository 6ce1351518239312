ghost use Rattle.exec_text.specs.ExecutionReadBack.{ExecutionReadsBack};

/// A law: the text that `write_execution` writes for an execution gives that execution when it is read, if the
/// execution is as `ExecutionFits` says.
#[tactic(auto, using(crate::proofs::ExecutionBack::written_reads_back))]
pub fn written_reads_back()
    ensures { ExecutionReadsBack }
{}
