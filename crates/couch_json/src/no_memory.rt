use std::alloc::{AllocError, AllocFailed};
use thiserror::Error;

/// Memory ran out: a growth was refused.
///
/// It is the one refusal of a call that answers [`Got`], and the cause behind every error
/// variant called `Memory`.
#[derive(Clone, Copy, Debug, PartialEq, Eq, Error)]
#[error("out of memory")]
pub struct NoMemory;

/// The answer of a call that can be refused for lack of memory alone.
pub type Got<T> = Result<T, NoMemory>;

impl From<AllocError> for NoMemory {
    fn from(_error: AllocError) -> NoMemory {
        NoMemory
    }
}

impl<T: Drop> From<AllocFailed<T>> for NoMemory {
    fn from(_failed: AllocFailed<T>) -> NoMemory {
        NoMemory
    }
}
