ghost use Rattle.std.specs.Prelude.{◌≡◌, IfOk};
ghost use Rattle.std.specs.FinMap.{empty};
ghost use Rattle.std.proofs.Math.Logic.{∥∥₁_elim, ∥∥₁_prop};
ghost use Rattle.sqlite.specs.Steps.{over_memory};
ghost use Rattle.sqlstore.specs.Model as model;

use crate::open_fault::OpenFault;
use crate::sql_store::SqlStore;
use policy::Security;
use sqlite::{Connection, MemStore};
use std::alloc::Global;
use store::{
    DbName, IdRange, KeyRange, LocalDocument, PageById, PageByKey, PageBySeq, SeqRange, Store,
    StoreFault, Write,
};
use tree::{DocId, Entry, History, MarkedRev, Outline, Rev};

/// How many keys a segment of ranks begins with: few, since tests have few documents.
const SEGMENT_LENGTH: usize = 4;

/// A store over tables in memory, which began without databases. Memory returns what was written, so
/// what it answers is so without a premise.
pub struct MemoryStore {
    store: SqlStore<MemStore>,
    ghost honest: { model.is_honest over_memory store },
}

// Written out, so that callers do not prove again how each part is dropped.
impl Drop for MemoryStore {
    fn drop(self) {
        let MemoryStore { store: _ } = self;
    }
}

impl MemoryStore {
    /// Makes a store without databases.
    pub fn new(alloc: Global) -> Result<MemoryStore, StoreFault>
        ensures { IfOk result (λ s. model.contents_of over_memory s.store ≡ empty) }
    {
        let conn = Connection::open_in_memory(alloc)?;
        match SqlStore::open(alloc, conn) {
            Ok(mut store) => {
                store.set_segment_length(SEGMENT_LENGTH);
                Ok(MemoryStore { store })
            }
            Err((OpenFault::Memory, _)) => Err(StoreFault::Memory),
            Err((OpenFault::Failed | OpenFault::NotOurs, _)) => Err(StoreFault::Failed),
        }
    }

    /// Closes the store, and opens again what its tables hold: the same contents.
    pub fn reopen(self) -> Result<MemoryStore, StoreFault>
        ensures { IfOk result (λ s. model.contents_of over_memory s.store ≡ model.contents_of over_memory self.store) }
    {
        let MemoryStore { store } = self;
        match store.reopen() {
            Ok(mut store) => {
                store.set_segment_length(SEGMENT_LENGTH);
                Ok(MemoryStore { store })
            }
            Err((OpenFault::Memory, _)) => Err(StoreFault::Memory),
            Err((OpenFault::Failed | OpenFault::NotOurs, _)) => Err(StoreFault::Failed),
        }
    }

    /// Returns how many rows the queries of reading calls have taken since the store was opened.
    pub fn fetched(&self) -> u64 {
        self.store.fetched()
    }
}

#[tactic(auto, using(sqlite::proofs::Callers::memory_is_clean))]
impl Store for MemoryStore {
    ghost contents = { λ s. model.contents_of over_memory s.store };

    ghost is_honest = { λ s. model.is_honest over_memory s.store };

    ghost is_clean = { λ s. model.is_clean over_memory s.store };

    ghost fault_count = { λ s. model.fault_count over_memory s.store };

    ghost lacks_room = { λ s name ws. model.lacks_room over_memory s.store name ws };

    ghost lacks_number = { λ s. model.lacks_number over_memory s.store };

    fn create(&mut self, name: &DbName) -> Result<(), StoreFault> {
        self.store.create(name)
    }

    fn remove(&mut self, name: &DbName) -> Result<(), StoreFault> {
        self.store.remove(name)
    }

    fn names(&mut self) -> Result<Vec<DbName>, StoreFault> {
        self.store.names()
    }

    fn security(&mut self, name: &DbName) -> Result<Security, StoreFault> {
        self.store.security(name)
    }

    fn set_security(&mut self, name: &DbName, security: &Security) -> Result<(), StoreFault> {
        self.store.set_security(name, security)
    }

    fn history(&mut self, name: &DbName, id: &DocId) -> Result<History, StoreFault> {
        self.store.history(name, id)
    }

    fn outline(&mut self, name: &DbName, id: &DocId) -> Result<Outline, StoreFault> {
        self.store.outline(name, id)
    }

    fn winner(&mut self, name: &DbName, id: &DocId) -> Result<Option<MarkedRev>, StoreFault> {
        self.store.winner(name, id)
    }

    fn revision(
        &mut self,
        name: &DbName,
        id: &DocId,
        rev: &Rev,
    ) -> Result<Option<Entry>, StoreFault> {
        self.store.revision(name, id, rev)
    }

    fn page_by_id(&mut self, name: &DbName, range: &IdRange) -> Result<PageById, StoreFault> {
        self.store.page_by_id(name, range)
    }

    fn page_by_seq(&mut self, name: &DbName, range: &SeqRange) -> Result<PageBySeq, StoreFault> {
        self.store.page_by_seq(name, range)
    }

    fn page_by_key(
        &mut self,
        name: &DbName,
        design: &DocId,
        index: &str,
        range: &KeyRange,
    ) -> Result<Option<PageByKey>, StoreFault> {
        self.store.page_by_key(name, design, index, range)
    }

    fn commit(&mut self, name: &DbName, writes: &[Write]) -> Result<(), StoreFault> {
        self.store.commit(name, writes)
    }

    fn local(&mut self, name: &DbName, id: &DocId) -> Result<Option<LocalDocument>, StoreFault> {
        self.store.local(name, id)
    }

    fn set_local(
        &mut self,
        name: &DbName,
        id: &DocId,
        document: &LocalDocument,
    ) -> Result<(), StoreFault> {
        self.store.set_local(name, id, document)
    }

    fn faults(&self) -> u64 {
        self.store.faults()
    }

    ghost lawful = { λ s honest. ∥∥₁_elim (s.store.standing.held honest.0 honest.1) ∥∥₁_prop (λ h. h.store.laid.lawful) };

    ghost ends = { λ s honest. ∥∥₁_elim (s.store.standing.held honest.0 honest.1) ∥∥₁_prop (λ h. h.ends) };
}
