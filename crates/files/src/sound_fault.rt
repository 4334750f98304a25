use file_check::{CheckFault, Finding};
use sqlstore::OpenFault;
use thiserror::Error as ErrorDerive;

/// Why the tables of a connection were not opened as sound ones.
#[derive(Clone, Copy, Debug, PartialEq, Eq, ErrorDerive)]
pub enum SoundFault {
    /// The check came to no end.
    #[error("not checked")]
    Unchecked(CheckFault),
    /// This row is one that no store has.
    #[error("not sound")]
    Unsound(Finding),
    /// The tables are sound, and were not opened.
    #[error("not opened")]
    Unopened(OpenFault),
}
