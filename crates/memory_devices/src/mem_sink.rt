ghost use Rattle.std.specs.Prelude.{◌≡◌, ◌+◌, ◌≤◌, ◌↔◌, ℕ, [], length, vec_len, vec_capacity, IsOk, IfOk};
ghost use Rattle.diy_io.specs.Wrote.{Wrote};
ghost use Rattle.memory_devices.specs.MemSink.{MemSinkState, mem_sink_after, mem_sink_seen};

use diy_io::{Failed, NoMemory, Sink};
use std::alloc::Global;
use std::marker::Model;

/// A sink that keeps its bytes in memory, up to a fixed capacity.
///
/// It allocates its memory when it is made, and none when it is written to.
#[derive(Drop)]
pub struct MemSink {
    room: usize,
    bytes: Vec<u8>,
    faults: u64,
}

impl Model for MemSink {
    ghost Value = { MemSinkState };

    ghost view = { λ sink. record { room = sink.room; bytes = sink.bytes.items; faults = sink.faults } };

    ghost invariant = { λ sink. (vec_len sink.bytes ≤ sink.room) × (sink.room ≤ vec_capacity sink.bytes) };
}

impl MemSink {
    /// An empty sink with space for `room` bytes in all. It fails only if there is no memory.
    pub fn new(alloc: Global, room: usize) -> Result<MemSink, NoMemory>
        ensures { IfOk result (λ sink. sink ≡ record { room = room; bytes = []; faults = 0 }) }
    {
        Ok(MemSink {
            room,
            bytes: Vec::with_capacity(alloc, room)?,
            faults: 0,
        })
    }

    /// The bytes that it has taken.
    pub fn bytes(&self) -> &[u8]
        ensures { result.now ≡ self.now.bytes }
    {
        self.bytes.as_slice()
    }
}

#[tactic(auto, using(diy_io::proofs::RoomLaws::took_all, diy_io::proofs::RoomLaws::took_prefix, diy_io::specs::SinkLaws::written_grew, diy_io::specs::SinkLaws::written_stopped))]
impl Sink for MemSink {
    ghost seen = { mem_sink_seen };

    /// Fails exactly when the bytes exceed the space that is left, and then takes those that still fit.
    fn write_all(&mut self, bytes: &[u8]) -> Result<(), Failed>
        ensures after { self.new ≡ mem_sink_after self.old bytes.now }
        ensures answer { IsOk result ↔ (length self.old.bytes + length bytes.now ≤ self.old.room) }
        ensures wrote { Wrote (mem_sink_seen self.old) (mem_sink_seen self.new) bytes.now result }
    {
        let free = self.room - self.bytes.len();
        if bytes.len() <= free {
            self.bytes.extend_from_slice(bytes).unwrap();
            return Ok(());
        }
        self.bytes.extend_from_slice(&bytes[..free]).unwrap();
        self.faults = self.faults.saturating_add(1);
        Err(Failed)
    }
}
