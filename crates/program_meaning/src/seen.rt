use crate::{Access, WriteAt};
use relax_edges::Mark;

/// An access of a candidate execution, with what the execution says of it.
#[derive(Clone, Copy)]
pub struct SeenAccess {
    pub thread: u8,
    /// Its number among the thread's accesses, from 0.
    pub number: usize,
    pub access: Access,
    pub mark: Mark,
    /// The write that it reads, or none for the initial value. For a write it means nothing.
    pub source: Option<WriteAt>,
    /// Its coherence position: for a write its position in the coherence order of its location, from 1; for a
    /// read that of the write that it reads, or 0 for the initial value.
    pub order: usize,
}
