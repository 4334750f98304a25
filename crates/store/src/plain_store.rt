ghost use Rattle.std.specs.Prelude.{◌≡◌, ⊤};
ghost use Rattle.std.specs.FinMap as map;
ghost use Rattle.store.specs.Lawful.{AllEndAtLast, AreLawful};
ghost use Rattle.store.specs.Plain.{contents_of};

use crate::database_name::DbName;
use crate::databases::{add, append, database_of, names_of, place_of, remove, secure, write_local};
use crate::fault::StoreFault;
use crate::index_page::{KeyRange, PageByKey};
use crate::listing::{IdRange, PageById, PageBySeq, SeqRange};
use crate::local_document::LocalDocument;
use crate::locals::local_of;
use crate::plain::Databases;
use crate::plain_id_pages::page_by_id;
use crate::plain_index_pages::page_by_key;
use crate::plain_sequence_pages::page_by_seq;
use crate::replay::{history_of, replay_outline, replay_revision, replay_winner};
use crate::store::Store;
use crate::write::Write;
use policy::Security;
use std::alloc::Global;
use tree::{DocId, Entry, History, MarkedRev, Outline, Rev};

/// A store in memory that keeps the list of writes itself.
///
/// It meets [`Store`] as plainly as can be: histories are replayed from the writes. It never fails,
/// so `Failed`, `Damaged` and `Full` never come, and `faults` is 0.
pub struct PlainStore {
    databases: Databases,
    ghost lawful: { ∥ AreLawful (contents_of databases.items) ∥₁ },
    ghost ends: { ∥ AllEndAtLast (contents_of databases.items) ∥₁ },
}

// Written out, so that callers do not prove again how each part is dropped.
impl Drop for PlainStore {
    fn drop(self) {
        let PlainStore { databases: _ } = self;
    }
}

impl PlainStore {
    /// Makes a store without databases. Takes no memory.
    pub fn new(alloc: Global) -> PlainStore
        ensures { contents_of result.databases.items ≡ map.empty }
    {
        PlainStore {
            databases: Vec::new(alloc),
        }
    }
}

impl Store for PlainStore {
    ghost contents = { λ s. contents_of s.databases.items };

    ghost is_honest = { λ _. ⊤ };

    ghost is_clean = { λ _. ⊤ };

    ghost fault_count = { λ _. 0 };

    ghost lacks_room = { λ _ _ _. ⊥ };

    ghost lacks_number = { λ _. ⊥ };

    fn create(&mut self, name: &DbName) -> Result<(), StoreFault> {
        if place_of(&self.databases, name).is_some() {
            return Err(StoreFault::Exists);
        }
        let alloc = *self.databases.allocator();
        add(alloc, &mut self.databases, name)?;
        Ok(())
    }

    fn remove(&mut self, name: &DbName) -> Result<(), StoreFault> {
        if place_of(&self.databases, name).is_none() {
            return Err(StoreFault::NoDatabase);
        }
        remove(&mut self.databases, name);
        Ok(())
    }

    fn names(&mut self) -> Result<Vec<DbName>, StoreFault> {
        let alloc = *self.databases.allocator();
        Ok(names_of(alloc, &self.databases)?)
    }

    fn security(&mut self, name: &DbName) -> Result<Security, StoreFault> {
        let alloc = *self.databases.allocator();
        match database_of(&self.databases, name) {
            Some(database) => Ok(database.security.copy(alloc)?),
            None => Err(StoreFault::NoDatabase),
        }
    }

    fn set_security(&mut self, name: &DbName, security: &Security) -> Result<(), StoreFault> {
        let alloc = *self.databases.allocator();
        let Some(at) = place_of(&self.databases, name) else {
            return Err(StoreFault::NoDatabase);
        };
        secure(&mut self.databases, at, name, security.copy(alloc)?);
        Ok(())
    }

    fn history(&mut self, name: &DbName, id: &DocId) -> Result<History, StoreFault> {
        let alloc = *self.databases.allocator();
        match database_of(&self.databases, name) {
            Some(database) => Ok(history_of(alloc, &database.writes, id)?),
            None => Err(StoreFault::NoDatabase),
        }
    }

    fn outline(&mut self, name: &DbName, id: &DocId) -> Result<Outline, StoreFault> {
        let alloc = *self.databases.allocator();
        match database_of(&self.databases, name) {
            Some(database) => Ok(replay_outline(alloc, &database.writes, id)?),
            None => Err(StoreFault::NoDatabase),
        }
    }

    fn winner(&mut self, name: &DbName, id: &DocId) -> Result<Option<MarkedRev>, StoreFault> {
        let alloc = *self.databases.allocator();
        match database_of(&self.databases, name) {
            Some(database) => Ok(replay_winner(alloc, &database.writes, id)?),
            None => Err(StoreFault::NoDatabase),
        }
    }

    fn revision(
        &mut self,
        name: &DbName,
        id: &DocId,
        rev: &Rev,
    ) -> Result<Option<Entry>, StoreFault> {
        let alloc = *self.databases.allocator();
        match database_of(&self.databases, name) {
            Some(database) => Ok(replay_revision(alloc, &database.writes, id, rev)?),
            None => Err(StoreFault::NoDatabase),
        }
    }

    fn page_by_id(&mut self, name: &DbName, range: &IdRange) -> Result<PageById, StoreFault> {
        let alloc = *self.databases.allocator();
        match database_of(&self.databases, name) {
            Some(database) => Ok(page_by_id(alloc, &database.writes, range)?),
            None => Err(StoreFault::NoDatabase),
        }
    }

    fn page_by_seq(&mut self, name: &DbName, range: &SeqRange) -> Result<PageBySeq, StoreFault> {
        let alloc = *self.databases.allocator();
        match database_of(&self.databases, name) {
            Some(database) => Ok(page_by_seq(alloc, &database.writes, range)?),
            None => Err(StoreFault::NoDatabase),
        }
    }

    fn page_by_key(
        &mut self,
        name: &DbName,
        design: &DocId,
        index: &str,
        range: &KeyRange,
    ) -> Result<Option<PageByKey>, StoreFault> {
        let alloc = *self.databases.allocator();
        match database_of(&self.databases, name) {
            Some(database) => Ok(page_by_key(alloc, &database.writes, design, index, range)?),
            None => Err(StoreFault::NoDatabase),
        }
    }

    fn commit(&mut self, name: &DbName, writes: &[Write]) -> Result<(), StoreFault> {
        let alloc = *self.databases.allocator();
        let Some(at) = place_of(&self.databases, name) else {
            return Err(StoreFault::NoDatabase);
        };
        append(alloc, &mut self.databases, at, name, writes)?;
        Ok(())
    }

    fn local(&mut self, name: &DbName, id: &DocId) -> Result<Option<LocalDocument>, StoreFault> {
        let alloc = *self.databases.allocator();
        match database_of(&self.databases, name) {
            Some(database) => Ok(local_of(alloc, &database.locals, id)?),
            None => Err(StoreFault::NoDatabase),
        }
    }

    fn set_local(
        &mut self,
        name: &DbName,
        id: &DocId,
        document: &LocalDocument,
    ) -> Result<(), StoreFault> {
        let alloc = *self.databases.allocator();
        let Some(at) = place_of(&self.databases, name) else {
            return Err(StoreFault::NoDatabase);
        };
        write_local(alloc, &mut self.databases, at, name, id, document)?;
        Ok(())
    }

    fn faults(&self) -> u64 {
        0
    }

    ghost lawful = { λ s _. s.lawful };

    ghost ends = { λ s _. s.ends };
}
