ghost use Rattle.std.specs.Prelude.{◌≡◌, IsOk};
ghost use Rattle.diy_io.specs.{Sink.{Tally, tally_after}, Wrote.{Wrote, tally_seen}};

use crate::errors::Failed;
use crate::line_feeds::count_line_feeds;
use crate::sink::Sink;
use std::marker::Model;

/// A sink that keeps only the numbers of its bytes and of its line feeds. It never fails.
#[derive(Default, Drop)]
pub struct TallySink {
    bytes: u64,
    lines: u64,
}

impl Model for TallySink {
    ghost Value = { Tally };

    ghost view = { λ sink. record { bytes = sink.bytes; line_feeds = sink.lines } };
}

impl TallySink {
    /// A sink that has taken nothing.
    pub fn new() -> TallySink
        ensures { result ≡ record { bytes = 0; line_feeds = 0 } }
    {
        TallySink { bytes: 0, lines: 0 }
    }

    /// How many bytes it has taken, up to the maximum of the type.
    pub fn bytes(&self) -> u64
        ensures { result ≡ self.now.bytes }
    {
        self.bytes
    }

    /// How many line feeds it has taken, up to the maximum of the type.
    pub fn lines(&self) -> u64
        ensures { result ≡ self.now.line_feeds }
    {
        self.lines
    }
}

#[tactic(auto, using(crate::specs::SinkLaws::tally_grew))]
impl Sink for TallySink {
    ghost seen = { tally_seen };

    /// Never fails.
    fn write_all(&mut self, bytes: &[u8]) -> Result<(), Failed>
        ensures after { self.new ≡ tally_after self.old bytes.now }
        ensures answer { IsOk result }
        ensures wrote { Wrote (tally_seen self.old) (tally_seen self.new) bytes.now result }
    {
        self.bytes = self.bytes.saturating_add(bytes.len() as u64);
        self.lines = self.lines.saturating_add(count_line_feeds(bytes));
        Ok(())
    }
}
