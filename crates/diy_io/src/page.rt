ghost use Rattle.std.specs.Prelude.{◌≡◌, ◌+◌, ◌<◌, ◌≤◌, ◌++◌, [], length, take, OnOk, OnErr};
ghost use Rattle.diy_io.specs.{Page.{Sends, page_after}, Pieces.{joined_text}, Wrote.{Wrote}};

use crate::errors::Failed;
use crate::sink::Sink;
use std::marker::Model;

/// From how many bytes on `spill` writes a page to the sink: 65,536.
pub const SPILL: usize = 65_536;

/// The most bytes of a line that is put on a page as a whole: 8,192.
pub const LINE_ROOM: usize = 8_192;

/// How many bytes a page can hold: a line has space after fewer than `SPILL` bytes.
pub const PAGE_ROOM: usize = SPILL + LINE_ROOM;

/// A buffer for text, which is printed line by line and written to a sink in few calls.
///
/// Contracts see it as the list of its bytes. Its size is fixed, and it allocates no memory.
#[derive(Drop)]
pub struct Page {
    bytes: [u8; PAGE_ROOM],
    len: usize,
}

impl Model for Page {
    ghost use Rattle.std.specs.Prelude.{ℕ, List, ◌≤◌, take};
    ghost use Rattle.diy_io.specs.declared.page.TheConstants.{PAGE_ROOM};

    ghost Value = { List ℕ };

    ghost view = { λ page. take page.len page.bytes };

    ghost invariant = { λ page. page.len ≤ PAGE_ROOM };
}

impl Page {
    /// An empty page.
    pub fn new() -> Page
        ensures { result ≡ [] }
    {
        Page {
            bytes: [0; PAGE_ROOM],
            len: 0,
        }
    }

    /// The bytes that it holds.
    pub fn as_slice(&self) -> &[u8]
        ensures { result.now ≡ self.now }
    {
        &self.bytes[..self.len]
    }

    /// Drops what it holds.
    pub fn clear(&mut self)
        ensures { self.new ≡ [] }
    {
        self.len = 0;
    }

    /// How many more bytes it has space for.
    fn free(&self) -> usize
        ensures { result + length self.now ≡ PAGE_ROOM }
    {
        PAGE_ROOM - self.len
    }

    /// Adds a text after what it holds, as far as there is space.
    pub fn put(&mut self, text: &[u8])
        ensures { self.new ≡ page_after self.old text.now }
    {
        let count = text.len().min(PAGE_ROOM - self.len);
        copy_to(&mut self.bytes, self.len, &text[..count]);
        self.len += count;
    }

    /// Adds the first `count` bytes of a text of fixed length after what it holds, as far as there is space; `count` is at most `N`.
    /// It copies the whole text if that fits, since a copy of fixed length takes a few instructions, and counts only the first bytes.
    #[inline]
    pub fn put_first<const N: usize>(&mut self, text: &[u8; N], count: usize)
        requires { count ≤ N }
        ensures { self.new ≡ page_after self.old (take count text.now) }
    {
        if N <= PAGE_ROOM - self.len {
            copy_to(&mut self.bytes, self.len, text);
            self.len += count;
        } else {
            self.put(&text[..count]);
        }
    }

    /// Adds a text of fixed length, as `put` does, in fewer instructions.
    #[inline]
    #[tactic(auto, using(std::proofs::lemmas::List::take_all))]
    pub fn put_fixed<const N: usize>(&mut self, text: &[u8; N])
        ensures { self.new ≡ page_after self.old text.now }
    {
        self.put_first(text, N);
    }

    /// Writes what it holds to a sink, in one call, or in none if it is empty. If the sink fails, the page still holds it.
    pub fn flush<O: Sink>(&mut self, out: &mut O) -> Result<(), Failed>
        ensures wrote { Wrote (O.seen out.old) (O.seen out.new) self.old result }
        ensures empty { OnOk result (self.new ≡ []) }
        ensures held { OnErr result (self.new ≡ self.old) }
    {
        if self.len == 0 {
            return Ok(());
        }
        out.write_all(&self.bytes[..self.len])?;
        self.len = 0;
        Ok(())
    }

    /// Writes what it holds to a sink if that is `SPILL` bytes or more, so that there is space for a
    /// line.
    pub fn spill<O: Sink>(&mut self, out: &mut O) -> Result<(), Failed>
        ensures sends { Sends (O.seen out.old) self.old (O.seen out.new) self.new [] result }
        ensures room { OnOk result (length self.new < SPILL) }
    {
        if self.len < SPILL {
            return Ok(());
        }
        self.flush(out)
    }

    /// Sends a text of any length by way of this page. Each call that it makes to the sink has at least
    /// a full page, `PAGE_ROOM` bytes; the rest stays on the page.
    pub fn send<O: Sink>(&mut self, text: &[u8], out: &mut O) -> Result<(), Failed>
        ensures { Sends (O.seen out.old) self.old (O.seen out.new) self.new text.now result }
    {
        let free = self.free();
        if text.len() <= free {
            self.put(text);
            return Ok(());
        }
        self.put(&text[..free]);
        self.flush(out)?;
        self.send_rest(&text[free..], out)
    }

    /// Sends a text by way of this page, which is empty: directly if it exceeds a full page.
    fn send_rest<O: Sink>(&mut self, text: &[u8], out: &mut O) -> Result<(), Failed>
        requires { self.old ≡ [] }
        ensures { Sends (O.seen out.old) self.old (O.seen out.new) self.new text.now result }
    {
        if text.len() > PAGE_ROOM {
            return out.write_all(text);
        }
        self.put(text);
        Ok(())
    }

    /// Sends the pieces of a text one after another, as `send` does.
    pub fn send_pieces<O: Sink>(&mut self, pieces: &[&[u8]], out: &mut O) -> Result<(), Failed>
        ensures { Sends (O.seen out.old) self.old (O.seen out.new) self.new (joined_text pieces.now) result }
    {
        for piece in pieces {
            self.send(piece, out)?;
        }
        Ok(())
    }
}

/// Copies a text into a buffer, from position `at` on.
fn copy_to(buffer: &mut [u8], at: usize, text: &[u8])
    requires { at + length text.now ≤ length buffer.old }
    ensures { take (at + length text.now) buffer.new ≡ take at buffer.old ++ text.now }
{
    buffer[at..at + text.len()].copy_from_slice(text);
}
