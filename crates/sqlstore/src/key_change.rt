//! Which key a document has in an index, before writes and after them.

use crate::entry_key::EntryKey;
use tree::DocId;

/// A document that was written: the key that it has in an index, before and after.
#[derive(Drop)]
pub(crate) struct KeyChange {
    /// Its id.
    pub(crate) id: DocId,
    /// Its key before, if it had one.
    pub(crate) was: Option<EntryKey>,
    /// Its key now, if it has one.
    pub(crate) is: Option<EntryKey>,
}
