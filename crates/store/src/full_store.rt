ghost use Rattle.std.specs.Prelude.{◌≡◌, ◌≢◌, ◌⊎◌, ◌↔◌, Err, IfErr, OnOk, Some, None, is_some, option_map, true};
ghost use Rattle.std.specs.FinMap as map;
ghost use Rattle.store.specs.Calls.{ChangesWhole};
ghost use Rattle.store.specs.Causes.{IsCaused, SaysFull};
ghost use Rattle.store.specs.Contents.{AreAcceptable, IfThere, IsThereWith};
ghost use Rattle.store.specs.Database.{with_all};
ghost use Rattle.store.specs.Writing.{additions, writings_in};

use crate::database_name::DbName;
use crate::fault::StoreFault;
use crate::index_page::{KeyRange, PageByKey};
use crate::listing::{IdRange, PageById, PageBySeq, SeqRange};
use crate::local_document::LocalDocument;
use crate::store::Store;
use crate::write::Write;
use policy::Security;
use tree::{DocId, Entry, History, MarkedRev, Outline, Rev};

/// A store in which one database is full: it tries what the contract of a store says of `Full`.
///
/// Each commit to the full database is refused, and changes nothing: by `Full`, or by what the store
/// below says where it has no such database. Each other call is made on the store below.
pub struct FullStore<S: Store + Drop> {
    store: S,
    full: DbName,
}

// Written out, so that callers do not prove again how each part is dropped.
impl<S: Store + Drop> Drop for FullStore<S> {
    fn drop(self) {
        let FullStore { store: _, full: _ } = self;
    }
}

impl<S: Store + Drop> FullStore<S> {
    /// Makes the store in which the database of this name is full.
    pub fn new(store: S, full: DbName) -> FullStore<S>
        ensures store { result.store ≡ store }
        ensures full { result.full ≡ full }
    {
        FullStore { store, full }
    }
}

fn is_same(full: &DbName, name: &DbName) -> bool
    ensures { result ≡ true ↔ (full.now ≡ name.now) }
{
    *full == *name
}

impl<S: Store + Drop> Store for FullStore<S> {
    ghost contents = { λ s. S.contents s.store };

    ghost is_honest = { λ s. S.is_honest s.store };

    ghost is_clean = { λ s. S.is_clean s.store };

    ghost fault_count = { λ s. S.fault_count s.store };

    ghost lacks_room = { λ s name ws. S.lacks_room s.store name ws ⊎ (s.full ≡ name) };

    ghost lacks_number = { λ s. S.lacks_number s.store };

    fn create(&mut self, name: &DbName) -> Result<(), StoreFault> {
        self.store.create(name)
    }

    fn remove(&mut self, name: &DbName) -> Result<(), StoreFault> {
        self.store.remove(name)
    }

    fn names(&mut self) -> Result<Vec<DbName>, StoreFault> {
        self.store.names()
    }

    fn security(&mut self, name: &DbName) -> Result<Security, StoreFault> {
        self.store.security(name)
    }

    fn set_security(&mut self, name: &DbName, security: &Security) -> Result<(), StoreFault> {
        self.store.set_security(name, security)
    }

    fn history(&mut self, name: &DbName, id: &DocId) -> Result<History, StoreFault> {
        self.store.history(name, id)
    }

    fn outline(&mut self, name: &DbName, id: &DocId) -> Result<Outline, StoreFault> {
        self.store.outline(name, id)
    }

    fn winner(&mut self, name: &DbName, id: &DocId) -> Result<Option<MarkedRev>, StoreFault> {
        self.store.winner(name, id)
    }

    fn revision(
        &mut self,
        name: &DbName,
        id: &DocId,
        rev: &Rev,
    ) -> Result<Option<Entry>, StoreFault> {
        self.store.revision(name, id, rev)
    }

    fn page_by_id(&mut self, name: &DbName, range: &IdRange) -> Result<PageById, StoreFault> {
        self.store.page_by_id(name, range)
    }

    fn page_by_seq(&mut self, name: &DbName, range: &SeqRange) -> Result<PageBySeq, StoreFault> {
        self.store.page_by_seq(name, range)
    }

    fn page_by_key(
        &mut self,
        name: &DbName,
        design: &DocId,
        index: &str,
        range: &KeyRange,
    ) -> Result<Option<PageByKey>, StoreFault> {
        self.store.page_by_key(name, design, index, range)
    }

    fn commit(&mut self, name: &DbName, writes: &[Write]) -> Result<(), StoreFault>
        requires { S.is_honest self.old.store → IfThere (map.get (S.contents self.old.store) name.now)
            (λ db. AreAcceptable db (writings_in db (additions writes.now))) }
        ensures ok { S.is_honest self.new.store
            → OnOk result (option_map (λ db. map.insert (S.contents self.old.store) name.now (with_all db (writings_in db (additions writes.now))))
            (map.get (S.contents self.old.store) name.now) ≡ Some (S.contents self.new.store)) }
        ensures missing { S.is_honest self.new.store → result ≡ Err StoreFault.NoDatabase → map.get (S.contents self.old.store) name.now ≡ None }
        ensures others { result ≢ Err StoreFault.Exists }
        ensures caused { IfErr result (λ fault. IsCaused (S.fault_count self.old.store) (S.fault_count self.new.store) (S.is_honest self.new.store)
            (S.is_honest self.new.store
            → IsThereWith (map.get (S.contents self.old.store) name.now)
            (λ db. ⟦<FullStore<S> as Store>⟧.lacks_room self.old name.now (writings_in db (additions writes.now)))) fault) }
        ensures changes { ChangesWhole ⟦<FullStore<S> as Store>⟧ self.old self.new result }
        ensures refused { self.old.full ≡ name.now → OnOk result ⊥ }
        ensures full { self.old.full ≡ name.now → S.is_honest self.new.store → is_some (map.get (S.contents self.old.store) name.now) ≡ true
            → IfErr result (SaysFull (S.fault_count self.old.store) (S.fault_count self.new.store)) }
        ensures same { self.new.full ≡ self.old.full }
    {
        if is_same(&self.full, name) {
            let _security = self.store.security(name)?;
            return Err(StoreFault::Full);
        }
        self.store.commit(name, writes)
    }

    fn local(&mut self, name: &DbName, id: &DocId) -> Result<Option<LocalDocument>, StoreFault> {
        self.store.local(name, id)
    }

    fn set_local(
        &mut self,
        name: &DbName,
        id: &DocId,
        document: &LocalDocument,
    ) -> Result<(), StoreFault> {
        self.store.set_local(name, id, document)
    }

    fn faults(&self) -> u64 {
        self.store.faults()
    }

    ghost lawful = { λ s h. S.lawful s.store h };

    ghost ends = { λ s h. S.ends s.store h };
}
