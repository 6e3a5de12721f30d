// The error of a failed allocation.
use std::alloc::{AllocError, AllocFailed};
use thiserror::Error;

/// An allocation failed. Any call that allocates may return it; no contract says when.
#[derive(Clone, Copy, Debug, PartialEq, Eq, Drop, Error)]
#[error("OutOfMemory")]
pub struct OutOfMemory;

impl From<AllocError> for OutOfMemory {
    fn from(_error: AllocError) -> OutOfMemory {
        OutOfMemory
    }
}

impl<T: Drop> From<AllocFailed<T>> for OutOfMemory {
    fn from(_error: AllocFailed<T>) -> OutOfMemory {
        OutOfMemory
    }
}
