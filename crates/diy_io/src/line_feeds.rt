ghost use Rattle.std.specs.Prelude.{◌≡◌, ◌≤◌, length};
ghost use Rattle.diy_io.specs.Sink.{line_feed_count};

/// How many bytes are counted at a time: a multiple of the sixteen that one instruction compares, which a byte can count.
const CHUNK: usize = 240;

/// How many line feeds a text has.
pub(crate) fn count_line_feeds(text: &[u8]) -> u64
    ensures { result ≡ line_feed_count text.now }
{
    let mut count = 0;
    let mut left = text;
    while left.len() > CHUNK {
        let (chunk, rest) = left.split_at(CHUNK);
        count += u64::from(count_in_chunk(chunk));
        left = rest;
    }
    count + u64::from(count_in_chunk(left))
}

/// How many line feeds a chunk has. The count is a byte, so that the loop compiles to instructions on sixteen bytes at once.
#[tactic(auto, using(std::proofs::lemmas::List::Sums::count_by_more_yes, std::proofs::lemmas::List::Sums::count_by_more_no))]
fn count_in_chunk(chunk: &[u8]) -> u8
    requires { length chunk.now ≤ CHUNK }
    ensures { result ≡ line_feed_count chunk.now }
{
    let mut count = 0;
    for byte in chunk {
        if *byte == b'\n' {
            count += 1;
        }
    }
    count
}
