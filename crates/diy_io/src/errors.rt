use std::alloc::{AllocError, AllocFailed};

/// There is no memory for what a call needs.
#[derive(Clone, Copy, Debug)]
pub struct NoMemory;

impl From<AllocError> for NoMemory {
    fn from(_error: AllocError) -> NoMemory {
        NoMemory
    }
}

impl<T: Drop> From<AllocFailed<T>> for NoMemory {
    fn from(_error: AllocFailed<T>) -> NoMemory {
        NoMemory
    }
}

/// A device failed: it did not do all that the call requests.
#[derive(Clone, Copy, Debug, PartialEq, Eq)]
pub struct Failed;
