ghost use Rattle.std.specs.Prelude.{◌≡◌, ◌≤◌};
ghost use Rattle.exec_text.specs.ExecutionText.{access_named, number_below, read_named, source_named};

use final_cond::number_of;
use litmus_text::MAX_ACCESSES;
use program_meaning::WriteAt;
use text_parts::cut;

/// The number below a bound that digits write without leading zeros.
fn number_below(bound: u32, digits: &[u8]) -> Option<u8>
    requires { bound ≤ 256 }
    ensures { result ≡ number_below bound digits.now }
{
    match number_of(digits) {
        Some(number) if number < bound => Some(number as u8),
        _ => None,
    }
}

/// The access that `T.N` names: number N, below `MAX_ACCESSES`, of thread T, below `threads`.
#[tactic(auto, unfolding(crate::specs::ExecutionText::access_named))]
pub(crate) fn access_named(threads: u8, word: &[u8]) -> Option<WriteAt>
    ensures { result ≡ access_named threads word.now }
{
    let (thread, access) = cut(b'.', word)?;
    let thread = number_below(u32::from(threads), thread)?;
    let access = number_below(MAX_ACCESSES as u32, access)?;
    Some(WriteAt { thread, access })
}

/// What a read reads: `init`, the initial value, or an access.
#[tactic(auto, unfolding(crate::specs::ExecutionText::source_named))]
fn source_named(threads: u8, word: &[u8]) -> Option<Option<WriteAt>>
    ensures { result ≡ source_named threads word.now }
{
    if word == b"init".as_slice() {
        return Some(None);
    }
    access_named(threads, word).map(Some)
}

/// The value of a read and what it reads, which `VALUE@init` or `VALUE@T.N` names.
#[tactic(auto, unfolding(crate::specs::ExecutionText::read_named))]
pub(crate) fn read_named(threads: u8, word: &[u8]) -> Option<(u32, Option<WriteAt>)>
    ensures { result ≡ read_named threads word.now }
{
    let (value, source) = cut(b'@', word)?;
    let value = number_of(value)?;
    let source = source_named(threads, source)?;
    Some((value, source))
}
