ghost use Rattle.std.specs.Prelude.{◌≡◌, []};
ghost use Rattle.diy_io.specs.Wrote.{Wrote};
ghost use Rattle.two_runs.specs.Runs.{text_sink_seen};

use diy_io::{Failed, Sink};
use std::alloc::Global;

/// A text in memory that grows as it is written to: a sink that fails only if there is no memory.
#[derive(Drop)]
pub(crate) struct TextSink {
    pub(crate) bytes: Vec<u8>,
    faults: u64,
}

impl TextSink {
    pub(crate) fn new(alloc: Global) -> TextSink
        ensures { result.bytes.items ≡ [] }
    {
        TextSink {
            bytes: Vec::new(alloc),
            faults: 0,
        }
    }
}

#[tactic(auto, using(diy_io::specs::SinkLaws::written_grew, diy_io::specs::SinkLaws::prefix_nothing))]
impl Sink for TextSink {
    ghost seen = { text_sink_seen };

    /// If there is no memory for all bytes, it takes none of them.
    fn write_all(&mut self, bytes: &[u8]) -> Result<(), Failed>
        ensures { Wrote (text_sink_seen self.old) (text_sink_seen self.new) bytes.now result }
    {
        match self.bytes.extend_from_slice(bytes) {
            Ok(()) => Ok(()),
            Err(_) => {
                self.faults = self.faults.saturating_add(1);
                Err(Failed)
            }
        }
    }
}
