//! The tables that the check of indexes looks at.

/// A table whose rows the check of indexes looks at, one by one.
#[derive(Clone, Copy, Debug, PartialEq, Eq)]
pub(crate) enum Indexed {
    /// `decls`, the indexes.
    Declarations = 1,
    /// `docs`, the documents.
    Documents = 2,
    /// `entries`, the entries of indexes.
    Entries = 3,
}
