//! Texts of executions: what mcheck7 says of those that `diyone7 -exec` prints.

ghost use Rattle.tools_agree.specs.YesVerdicts.{ExecutionsSayYes, CoherenceExecutionsSay, ExecutionsExist, CoherenceExecutionsExist, CheckedAreWritten};

use arch_trait::Arch;

/// On every architecture, the texts of a cycle's test and of the execution that it asks for are read as a test and an execution of it,
/// and the verdict says yes in every line: candidate, coherent, condition, and each edge, in the order in which the test quotes them.
pub fn executions_say_yes<A: Arch>()
    ensures { ExecutionsSayYes A.puts A.writing }
{}

/// On every architecture, the same for a cycle's coherence test: the execution is a candidate and meets the condition, and it isn't
/// coherent. The cycle has no resolution, so the verdict has no edges.
pub fn coherence_executions_say<A: Arch>()
    ensures { CoherenceExecutionsSay A.puts A.writing }
{}

/// On every architecture, each cycle that isn't refused has such texts.
pub fn executions_exist<A: Arch>()
    ensures { ExecutionsExist A.puts A.writing }
{}

/// On every architecture, so has each that isn't refused as one of a coherence test.
pub fn coherence_executions_exist<A: Arch>()
    ensures { CoherenceExecutionsExist A.puts A.writing }
{}

/// If the two files that the arguments of mcheck7 name have such texts, it writes the lines of this verdict, unless a device fails or
/// there is no memory.
pub fn checked_are_written()
    ensures { CheckedAreWritten }
{}
