//! The entries that are gathered before they are put in.

ghost use Rattle.std.specs.Prelude.{◌≡◌, ◌∷◌, ◌++◌, [], OnOk, IsPermutation};

use couch_json::Got;
use std::alloc::Global;

/// How many bytes of memory the entries of a part take, but for its last document.
const PART_BYTES: usize = 64 * 1024 * 1024;

/// How many bytes an entry takes beside its key and its id.
const ENTRY_BYTES: usize = 112;

/// An entry that is to be put in. They go by the index, the key and the id, as the key of their table does.
#[derive(PartialEq, Eq, PartialOrd, Ord, Drop)]
pub(crate) struct NewEntry {
    /// The number of the index.
    pub(crate) declaration: i64,
    /// The key that the document has in it.
    pub(crate) key: Vec<u8>,
    /// The id of the document.
    pub(crate) id: Vec<u8>,
}

/// The entries that are gathered, and how much memory they take.
#[derive(Drop)]
pub(crate) struct Gathered {
    pub(crate) entries: Vec<NewEntry>,
    bytes: usize,
}

impl Gathered {
    ghost use Rattle.std.specs.Prelude.{IsSorted};
    ghost use Rattle.index.specs.inner.Gathering.{entry_of, entry_order};

    /// Begins with no entries.
    pub(crate) fn new(alloc: Global) -> Gathered
        ensures { result.entries.items ≡ [] }
    {
        Gathered {
            entries: Vec::new(alloc),
            bytes: 0,
        }
    }

    /// Adds an entry behind the others.
    pub(crate) fn push(&mut self, entry: NewEntry) -> Got<()>
        ensures { OnOk result (self.new.entries.items ≡ self.old.entries.items ++ entry ∷ []) }
    {
        let bytes = entry.key.len().saturating_add(entry.id.len());
        self.bytes = self.bytes.saturating_add(bytes).saturating_add(ENTRY_BYTES);
        self.entries.push(entry)?;
        Ok(())
    }

    /// Tells whether there are enough for a part.
    pub(crate) fn is_full(&self) -> bool {
        self.bytes >= PART_BYTES
    }

    /// Puts the entries in their order.
    pub(crate) fn sort(&mut self)
        ensures same { IsPermutation self.old.entries.items self.new.entries.items }
        ensures ordered { IsSorted (λ a b. entry_order (entry_of a) (entry_of b)) self.new.entries.items }
    {
        self.entries.sort_unstable();
    }

    /// Forgets the entries.
    pub(crate) fn clear(&mut self)
        ensures { self.new.entries.items ≡ [] }
    {
        self.entries.clear();
        self.bytes = 0;
    }
}
