//! The one error of all that allocates.
use std::alloc::{AllocError, AllocFailed};
use thiserror::Error;

/// There was no memory for what a call needed. The call left everything as it was.
#[derive(Clone, Copy, Debug, PartialEq, Eq, Drop, Error)]
#[error("there is no memory")]
pub struct Memory;

impl From<AllocError> for Memory {
    ghost from_gives = { λ _ _. Unit {0} };

    fn from(_error: AllocError) -> Memory {
        Memory
    }
}

impl<T: Drop> From<AllocFailed<T>> for Memory {
    ghost from_gives = { λ _ _. Unit {0} };

    fn from(_error: AllocFailed<T>) -> Memory {
        Memory
    }
}
