//! The one answer of every call that may find no memory.
#![tactic(auto)]

use std::alloc::{AllocError, AllocFailed};
use thiserror::Error;

/// Memory was wanting: an allocation was refused. It carries nothing, and says nothing of why.
#[derive(Clone, Copy, Debug, PartialEq, Eq, Error)]
#[error("memory was wanting")]
pub struct NoMemory;

impl From<AllocError> for NoMemory {
    fn from(_: AllocError) -> Self {
        NoMemory
    }
}

impl<T: Drop> From<AllocFailed<T>> for NoMemory {
    fn from(_: AllocFailed<T>) -> Self {
        NoMemory
    }
}
