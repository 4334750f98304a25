use couch_json::NoMemory;
use std::alloc::{AllocError, AllocFailed};
use std::fmt::{Debug, Write};
use std::io;
use thiserror::Error;

/// Why rows could not be played, or a question has no answer of its own.
#[derive(Clone, Copy, Debug, Error)]
pub enum RowsFault {
    /// Memory ran out.
    #[error("out of memory")]
    Memory,
    /// A file or the folder could not be read, or the report not be printed.
    #[error("file")]
    File,
    /// The line of this number, counted from 1, has no place in a file of rows.
    #[error("line")]
    Line(usize, &'static str),
    /// The question can't be read, or is refused: this word is its answer.
    #[error("refused")]
    Refused(&'static str),
    /// What was asked ended in a fault, whose name stands as the answer.
    #[error("fault")]
    Named,
}

/// Returns what a call gave, or makes the name of its fault the answer.
pub fn named<T, F: Debug + Drop>(given: Result<T, F>, out: &mut String) -> Result<T, RowsFault> {
    match given {
        Ok(value) => Ok(value),
        Err(fault) => Err(name(fault, out)),
    }
}

/// Makes the name of a fault the answer.
pub fn name<F: Debug + Drop>(fault: F, out: &mut String) -> RowsFault {
    out.clear();
    match write!(out, "{fault:?}") {
        Ok(()) => RowsFault::Named,
        Err(_) => RowsFault::Memory,
    }
}

impl From<NoMemory> for RowsFault {
    fn from(_no_memory: NoMemory) -> RowsFault {
        RowsFault::Memory
    }
}

impl From<AllocError> for RowsFault {
    fn from(_error: AllocError) -> RowsFault {
        RowsFault::Memory
    }
}

impl<T: Drop> From<AllocFailed<T>> for RowsFault {
    fn from(_failed: AllocFailed<T>) -> RowsFault {
        RowsFault::Memory
    }
}

impl From<io::Error> for RowsFault {
    fn from(error: io::Error) -> RowsFault {
        if error.kind() == io::ErrorKind::OutOfMemory {
            RowsFault::Memory
        } else {
            RowsFault::File
        }
    }
}
