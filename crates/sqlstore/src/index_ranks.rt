//! The ranks of the keys of an index.

use index::Declaration;
use ranks::Ranks;

/// An index, and the ranks of the keys of its entries.
#[derive(Drop)]
pub(crate) struct IndexRanks {
    /// Its declaration.
    pub(crate) declaration: Declaration,
    /// The ranks of its keys.
    pub(crate) ranks: Ranks,
}
