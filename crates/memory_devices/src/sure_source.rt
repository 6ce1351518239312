ghost use Rattle.std.specs.Prelude.{◌≡◌, ◌≤◌, ◌++◌, Ok, drop, take, length, vec_len, IfOk};
ghost use Rattle.diy_io.specs.Taken.{GivesBytes};
ghost use Rattle.memory_devices.specs.SureSource.{SureSourceState, given_count, sure_source_after, sure_source_seen};

use diy_io::{Failed, Source, ends_after};
use std::marker::Model;

/// A source of bytes in memory, which never fails.
#[derive(Drop)]
pub struct SureSource {
    bytes: Vec<u8>,
    at: usize,
    piece: usize,
    taken: u64,
    ends: u64,
}

impl Model for SureSource {
    ghost Value = { SureSourceState };

    ghost view = { λ source. record { left = drop source.at source.bytes.items; piece = source.piece; taken = source.taken; ends = source.ends } };

    ghost invariant = { λ source. (source.at ≤ vec_len source.bytes) × (1 ≤ source.piece) };
}

impl SureSource {
    /// A source of `bytes`, which gives at most `piece` of them in a call, where `piece` is at least 1.
    pub fn new(bytes: Vec<u8>, piece: usize) -> SureSource
        requires { 1 ≤ piece }
        ensures { result ≡ record { left = bytes.items; piece = piece; taken = 0; ends = 0 } }
    {
        SureSource {
            bytes,
            at: 0,
            piece,
            taken: 0,
            ends: 0,
        }
    }

    // Gives as many bytes as the buffer, a piece and the rest allow.
    fn give(&mut self, buf: &mut [u8]) -> usize
        ensures count { result ≡ given_count self.old (length buf.old) }
        ensures after { self.new ≡ sure_source_after self.old (length buf.old) }
        ensures copied { buf.new ≡ take result self.old.left ++ drop result buf.old }
        ensures piece { 1 ≤ self.old.piece }
    {
        let rest = &self.bytes[self.at..];
        let count = buf.len().min(self.piece).min(rest.len());
        buf[..count].copy_from_slice(&rest[..count]);
        self.at += count;
        self.taken = self.taken.saturating_add(count as u64);
        self.ends = ends_after(self.ends, buf.len(), count);
        count
    }
}

#[tactic(auto, using(crate::proofs::SureSourceLemmas::gives_prefix, crate::proofs::SureSourceLemmas::gives_none))]
impl Source for SureSource {
    ghost seen = { sure_source_seen };

    /// Gives as many bytes as the buffer, a piece and the rest allow.
    fn read(&mut self, buf: &mut [u8]) -> Result<usize, Failed>
        ensures answer { result ≡ Ok (given_count self.old (length buf.old)) }
        ensures after { self.new ≡ sure_source_after self.old (length buf.old) }
        ensures copied { IfOk result (λ n. buf.new ≡ take n self.old.left ++ drop n buf.old) }
        ensures gives { GivesBytes (sure_source_seen self.old) (sure_source_seen self.new) buf.new result }
    {
        Ok(self.give(buf))
    }
}
