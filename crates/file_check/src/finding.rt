//! What a check of a file finds.

ghost use Rattle.std.specs.Prelude.{◌≡◌};
ghost use Rattle.file_check.specs.declared.finding.CheckFault.TheVariants as fault;

use couch_json::NoMemory;
use sqlite::Error;
use std::alloc::{AllocError, AllocFailed};
use thiserror::Error as ErrorDerive;

/// Why a check came to no end.
#[derive(Clone, Copy, Debug, PartialEq, Eq, ErrorDerive)]
pub enum CheckFault {
    /// A statement failed.
    #[error("{0}")]
    Sqlite(Error),
    /// Memory ran out.
    #[error("out of memory")]
    Memory,
}

impl From<Error> for CheckFault {
    ghost from_gives = { λ e made. made ≡ fault.Sqlite e };

    fn from(error: Error) -> CheckFault {
        CheckFault::Sqlite(error)
    }
}

impl From<NoMemory> for CheckFault {
    ghost from_gives = { λ _ made. made ≡ fault.Memory };

    fn from(_no_memory: NoMemory) -> CheckFault {
        CheckFault::Memory
    }
}

impl From<AllocError> for CheckFault {
    ghost from_gives = { λ _ made. made ≡ fault.Memory };

    fn from(_error: AllocError) -> CheckFault {
        CheckFault::Memory
    }
}

impl<T: Drop> From<AllocFailed<T>> for CheckFault {
    ghost from_gives = { λ _ made. made ≡ fault.Memory };

    fn from(_failed: AllocFailed<T>) -> CheckFault {
        CheckFault::Memory
    }
}

/// The tables, and what holds of them all: the schema.
#[derive(Clone, Copy, Debug, PartialEq, Eq)]
pub enum Table {
    /// The schema, of all tables.
    Schema = 1,
    /// `meta`, the version.
    Meta = 2,
    /// `dbs`, the databases.
    Databases = 3,
    /// `docs`, the documents.
    Documents = 4,
    /// `revs`, the known revisions.
    Revisions = 5,
    /// `locals`, the local documents.
    Locals = 6,
    /// `decls`, the indexes.
    Declarations = 7,
    /// `entries`, the entries of indexes.
    Entries = 8,
}

/// What is wrong with a row.
#[derive(Clone, Copy, Debug, PartialEq, Eq)]
pub enum Wrong {
    /// The schema is another, or the version is none.
    Layout = 1,
    /// A cell is of another kind, or a number is out of its range.
    Cell = 2,
    /// A name or an id is not lawful.
    Name = 3,
    /// A text is not canonical, or what it says is not lawful there.
    Text = 4,
    /// What the row belongs to has no row.
    Unowned = 5,
    /// A sequence is none of its database, or that of a database is not its last document's.
    Sequence = 6,
    /// The winner, or its mark, is another.
    Winner = 7,
    /// The revision before is not known, or there is one where none should be.
    Parent = 8,
    /// The index or the entry is not that of what is stored.
    Index = 9,
    /// A row is missing.
    Missing = 10,
    /// The file is of the first version, and is carried over when a store is opened over it.
    First = 11,
}

/// A row that is not laid out.
#[derive(Clone, Copy, Debug, PartialEq, Eq)]
pub struct Finding {
    /// Its table.
    pub table: Table,
    /// Its number in the table; 0 where no row is meant.
    pub key: i64,
    /// What is wrong with it.
    pub wrong: Wrong,
}

/// How many rows a file has that is laid out.
#[derive(Clone, Copy, Debug, PartialEq, Eq)]
pub struct Counts {
    /// The databases.
    pub databases: u64,
    /// The documents of all databases.
    pub documents: u64,
    /// The known revisions of all documents.
    pub revisions: u64,
    /// The local documents of all databases.
    pub locals: u64,
    /// The indexes of all databases.
    pub indexes: u64,
    /// The entries of all indexes.
    pub entries: u64,
}

/// Whether a file is laid out.
#[derive(Clone, Copy, Debug, PartialEq, Eq)]
pub enum Verdict {
    /// It is, and has so many rows.
    Sound(Counts),
    /// It is not: this row is wrong.
    Unsound(Finding),
}
