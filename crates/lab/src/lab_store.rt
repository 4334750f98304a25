ghost use Rattle.std.specs.Prelude.{◌≡◌, IfOk};
ghost use Rattle.std.specs.FinMap.{empty};

use sqlstore::MemoryStore;
use std::alloc::Global;
use store::{PlainStore, Store, StoreFault};

/// A store in memory, with which a node of a script begins.
pub trait LabStore: Store + Drop {
    /// Makes a store without databases.
    fn make(alloc: Global) -> Result<Self, StoreFault>
        ensures { IfOk result (λ store. Self.Store.contents store ≡ empty) };

    /// Closes the store, and opens it again.
    fn reopen(self) -> Result<Self, StoreFault>
        ensures { IfOk result (λ store. Self.Store.contents store ≡ Self.Store.contents self) };

    /// Memory returns what was written.
    ghost honest: { (s : Self) → Self.Store.is_honest s };
}

impl LabStore for PlainStore {
    fn make(alloc: Global) -> Result<PlainStore, StoreFault> {
        Ok(PlainStore::new(alloc))
    }

    fn reopen(self) -> Result<PlainStore, StoreFault> {
        Ok(self)
    }

    ghost honest = { λ _. tt };
}

impl LabStore for MemoryStore {
    fn make(alloc: Global) -> Result<MemoryStore, StoreFault> {
        MemoryStore::new(alloc)
    }

    fn reopen(self) -> Result<MemoryStore, StoreFault> {
        MemoryStore::reopen(self)
    }

    ghost honest = { λ s. s.honest };
}
