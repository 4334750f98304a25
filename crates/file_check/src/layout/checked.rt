//! The tables that are checked row by row.

/// A table whose rows are checked one by one.
#[derive(Clone, Copy, Debug, PartialEq, Eq)]
pub enum Checked {
    /// `dbs`, the databases.
    Databases = 1,
    /// `docs`, the documents.
    Documents = 2,
    /// `revs`, the known revisions.
    Revisions = 3,
    /// `locals`, the local documents.
    Locals = 4,
}
