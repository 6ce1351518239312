ghost use Rattle.std.specs.{Prelude.{◌≡◌}, Str.{bytes_eq}};
ghost use Rattle.exec_text.specs.ExecutionText.{place_head, thread_head};

use arrayvec::ArrayString;
use final_cond::PlaceName;
use itoa::Buffer;

/// Space for the head of a line: the name of a location has at most 16 bytes.
const HEAD_ROOM: usize = 20;

/// Whether a word is the first of a thread's line: `P`, the thread's number and a colon.
#[tactic(auto, using(std::proofs::Common::append_assoc))]
pub(crate) fn is_thread_head(thread: u8, word: &[u8]) -> bool
    ensures { result ≡ bytes_eq word.now (thread_head thread) }
{
    let mut head: ArrayString<HEAD_ROOM> = ArrayString::new();
    head.push_str("P");
    head.push_str(Buffer::new().format(thread));
    head.push_str(":");
    word == head.as_str().as_bytes()
}

/// Whether a word is the first of a location's line: the location's name and a colon.
pub(crate) fn is_place_head(place: &PlaceName, word: &[u8]) -> bool
    ensures { result ≡ bytes_eq word.now (place_head place.now.bytes) }
{
    let mut head: ArrayString<HEAD_ROOM> = ArrayString::new();
    head.push_str(place.as_str());
    head.push_str(":");
    word == head.as_str().as_bytes()
}
