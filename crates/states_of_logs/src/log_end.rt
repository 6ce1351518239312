ghost use Rattle.std.specs.Prelude.{◌≡◌};
ghost use Rattle.states_of_logs.specs.JudgingSteps.{log_end};

use crate::states_end::{StatesEnd, StatesKind};
use msum7_files::LogsFault;

/// How a call ends if the logs weren't all read.
pub(crate) fn log_end(fault: LogsFault) -> StatesEnd
    ensures { result ≡ log_end fault }
{
    match fault {
        LogsFault::Wrong { file, line, kind } => StatesEnd::Wrong {
            file,
            line,
            kind: StatesKind::Log(kind),
        },
        LogsFault::TooMuch { file, line } => StatesEnd::TooMuch { file, line },
        LogsFault::NoFile { word } => StatesEnd::NoFile { word },
        LogsFault::InputFault => StatesEnd::InputFault,
        LogsFault::ShelfFault => StatesEnd::ShelfFault,
        LogsFault::NoMemory => StatesEnd::NoMemory,
    }
}
