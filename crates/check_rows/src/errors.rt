use diy_io::NoMemory;
use std::alloc::{AllocError, AllocFailed};

/// Why a table or a row of it can't be tried.
#[derive(Clone, Copy)]
pub enum TableError {
    /// The line with this number, from 1, isn't of any form; 0 if the table isn't UTF-8.
    BadLine(u64),
    /// A keyword of the row is repeated, or its argument or the bytes below it aren't of their form; or a
    /// device failed.
    BadRow,
    /// Memory ran out.
    NoMemory,
}

impl From<NoMemory> for TableError {
    fn from(_error: NoMemory) -> TableError {
        TableError::NoMemory
    }
}

impl From<AllocError> for TableError {
    fn from(_error: AllocError) -> TableError {
        TableError::NoMemory
    }
}

impl<T: Drop> From<AllocFailed<T>> for TableError {
    fn from(_error: AllocFailed<T>) -> TableError {
        TableError::NoMemory
    }
}
