ghost use Rattle.std.specs.Prelude.{◌≡◌, ◌<◌, ◌≤◌, ◌+◌, ◌++◌, length};
ghost use Rattle.arch_trait.specs.Writing.{register_text};

use crate::push::{push_ascii, push_number};
use arrayvec::ArrayString;

/// Registers whose names are a letter and a number, such as r1 to r28: `count` of them, numbered from
/// `first` on.
#[derive(Clone, Copy)]
pub struct Numbered {
    pub letter: u8,
    pub first: u8,
    pub count: u8,
}

impl Numbered {
    /// Appends the name of register `r`: the letter, and its number counted from `first`.
    pub fn push<const N: usize>(self, r: u8, out: &mut ArrayString<N>)
        requires ascii { self.letter < 128 }
        requires room { length out.old.bytes + 4 ≤ N }
        ensures text { out.new.bytes ≡ out.old.bytes ++ register_text self.letter self.first r }
        ensures short { length out.new.bytes ≤ length out.old.bytes + 4 }
    {
        push_ascii(self.letter, out);
        push_number(u32::from(self.first) + u32::from(r), out);
    }
}
