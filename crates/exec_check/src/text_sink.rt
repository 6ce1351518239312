ghost use Rattle.std.specs.Prelude.{◌≡◌, []};
ghost use Rattle.diy_io.specs.Wrote.{Wrote};
ghost use Rattle.exec_check.specs.CheckingSteps.{text_sink_seen};

use diy_io::{Failed, Sink};
use std::alloc::Global;

/// A sink that keeps its bytes in memory. It fails only if there is no memory.
#[derive(Drop)]
pub(crate) struct TextSink {
    text: Vec<u8>,
    faults: u64,
}

impl TextSink {
    /// An empty sink.
    pub(crate) fn new(alloc: Global) -> TextSink
        ensures { result.text.items ≡ [] }
    {
        TextSink {
            text: Vec::new(alloc),
            faults: 0,
        }
    }

    /// The bytes that it has taken.
    pub(crate) fn into_text(self) -> Vec<u8>
        ensures { result ≡ self.text }
    {
        self.text
    }
}

#[tactic(auto, using(diy_io::specs::SinkLaws::written_grew, crate::proofs::TextSinkLaws::nothing_taken))]
impl Sink for TextSink {
    ghost seen = { text_sink_seen };

    fn write_all(&mut self, bytes: &[u8]) -> Result<(), Failed>
        ensures { Wrote (text_sink_seen self.old) (text_sink_seen self.new) bytes.now result }
    {
        match self.text.extend_from_slice(bytes) {
            Ok(()) => Ok(()),
            Err(_) => {
                self.faults = self.faults.saturating_add(1);
                Err(Failed)
            }
        }
    }
}
