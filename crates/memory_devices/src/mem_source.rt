ghost use Rattle.std.specs.Prelude.{◌≡◌, ◌+◌, ◌≤◌, ◌++◌, ◌↔◌, ℕ, Some, drop, take, length, Contains, IfOk, IsErr, OnOk, OnErr};
ghost use Rattle.diy_io.specs.Taken.{GivesBytes};
ghost use Rattle.memory_devices.specs.{MemSource.{MemSourceState, mem_source_after, mem_source_failed, mem_source_seen}, SureSource.{given_count}};

use crate::sure_source::SureSource;
use diy_io::{Failed, Source};
use std::marker::Model;

/// A source of bytes in memory, which fails at chosen calls.
///
/// Calls are numbered from 0, and the number stays at the maximum of its type once it reaches it.
#[derive(Drop)]
pub struct MemSource {
    source: SureSource,
    fail: Vec<u64>,
    calls: u64,
    faults: u64,
}

impl Model for MemSource {
    ghost Value = { MemSourceState };

    ghost view = { λ it. record { source = it.source; fail = it.fail.items; calls = it.calls; faults = it.faults } };
}

impl MemSource {
    /// A source of `bytes`, which gives at most `piece` of them in a call, where `piece` is at least 1.
    /// The calls whose numbers are in `fail` are the ones that fail.
    pub fn new(bytes: Vec<u8>, piece: usize, fail: Vec<u64>) -> MemSource
        requires { 1 ≤ piece }
        ensures { result ≡ record { source = record { left = bytes.items; piece = piece; taken = 0; ends = 0 }; fail = fail.items; calls = 0; faults = 0 } }
    {
        MemSource {
            source: SureSource::new(bytes, piece),
            fail,
            calls: 0,
            faults: 0,
        }
    }
}

impl Source for MemSource {
    ghost seen = { mem_source_seen };

    /// Fails exactly when the call's number is one that is to fail.
    fn read(&mut self, buf: &mut [u8]) -> Result<usize, Failed>
        ensures answer { IsErr result ↔ Contains self.old.fail self.old.calls }
        ensures count { IfOk result (λ n. n ≡ given_count self.old.source (length buf.old)) }
        ensures after { OnOk result (self.new ≡ mem_source_after self.old (length buf.old)) }
        ensures copied { IfOk result (λ n. buf.new ≡ take n self.old.source.left ++ drop n buf.old) }
        ensures unchanged { OnErr result ((self.new ≡ mem_source_failed self.old) × (buf.new ≡ buf.old)) }
        ensures gives { GivesBytes (mem_source_seen self.old) (mem_source_seen self.new) buf.new result }
    {
        let call = self.calls;
        self.calls = self.calls.saturating_add(1);
        if self.fail.contains(&call) {
            self.faults = self.faults.saturating_add(1);
            return Err(Failed);
        }
        self.source.read(buf)
    }
}
