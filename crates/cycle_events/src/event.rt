use relax_edges::Dir;

/// An access of a cycle: what it does, and where.
#[derive(Clone, Copy, Default)]
pub struct Event {
    /// Whether it reads or writes.
    pub dir: Dir,
    /// Its thread, from 0.
    pub thread: u8,
    /// Its position in the thread, from 0.
    pub slot: u8,
    /// Its location, from 0.
    pub location: u8,
}
