ghost use Rattle.std.specs.Prelude.{◌≡◌, ◌++◌, length, OnOk};
ghost use Rattle.std.proofs.Math.ListN.{replicate};
ghost use Rattle.litmus_text.specs.{Joined.{no_text, with_text, all_joined, line_at}, Views.{text_left, joined_seen}};

use crate::reading::lines::Lines;
use crate::reading::text::Text;
use std::alloc::{AllocError, Global};

/// Lines that are read as one text.
#[derive(Drop)]
pub(crate) struct Joined {
    pub(crate) bytes: Vec<u8>,
    /// For each byte the number of its line.
    pub(crate) lines: Vec<u64>,
}

/// Appends a number so many times.
fn push_times(numbers: &mut Vec<u64>, number: u64, times: usize) -> Result<(), AllocError>
    ensures { OnOk result (numbers.new.items ≡ numbers.old.items ++ replicate times number) }
{
    for _ in 0..times {
        numbers.push(number)?;
    }
    Ok(())
}

impl Joined {
    pub(crate) fn new(alloc: Global) -> Joined
        ensures { joined_seen result ≡ no_text }
    {
        Joined {
            bytes: Vec::new(alloc),
            lines: Vec::new(alloc),
        }
    }

    /// Appends more of a line.
    pub(crate) fn push(&mut self, number: u64, text: &[u8]) -> Result<(), AllocError>
        ensures { OnOk result (joined_seen self.new ≡ with_text (joined_seen self.old) number text.now) }
    {
        push_times(&mut self.lines, number, text.len())?;
        self.bytes.extend_from_slice(text)?;
        Ok(())
    }

    /// Appends all lines that are left, each after a blank.
    pub(crate) fn push_all(&mut self, text: Text<'_>) -> Result<(), AllocError>
        ensures { OnOk result (joined_seen self.new ≡ all_joined (joined_seen self.old) (text_left text.entry)) }
    {
        let mut left = text;
        while let Lines::Line(line) = left.lines() {
            self.push(line.number, b" ")?;
            self.push(line.number, line.text)?;
            left = line.rest;
        }
        Ok(())
    }

    /// The line of byte number `i`, or 0 if there is no such byte.
    pub(crate) fn line_at(&self, i: usize) -> u64
        ensures { result ≡ line_at (joined_seen self.now) i }
    {
        match self.lines.get(i) {
            Some(line) => *line,
            None => 0,
        }
    }
}
