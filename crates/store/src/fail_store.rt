ghost use Rattle.std.specs.Prelude.{◌≡◌, ◌≢◌, ◌+◌, ◌-◌, ◌^◌, IfErr, IfOk, IfSome, OnErr, OnOk, Err, Some, None, is_some, min, option_map, true};
ghost use Rattle.std.specs.FinMap as map;
ghost use Rattle.store.specs.Calls.{Answers, ChangesWhole, OnlyReads};
ghost use Rattle.store.specs.Causes.{IsCaused};
ghost use Rattle.store.specs.Contents.{AreAcceptable, IfThere, IsThereWith, local_at, new_database, with_local, with_security};
ghost use Rattle.store.specs.Database.{history_at, with_all};
ghost use Rattle.store.specs.Failing.{TakesTurn, failing_call, failures_of, one_call_later};
ghost use Rattle.store.specs.KeyPages.{page_of_keys};
ghost use Rattle.store.specs.KeyPageStructs.{HasKeyCounts, key_page_in};
ghost use Rattle.store.specs.Lawful.{IsLocalDocument};
ghost use Rattle.store.specs.Pages.{page_of_ids, page_by_sequence};
ghost use Rattle.store.specs.PageStructs.{IsBounded, IsCounted, id_page_of, sequence_page_of};
ghost use Rattle.store.specs.Writing.{additions, writings_in};
ghost use Rattle.tree.specs.Outline.{marked_winner, outline_of};

use crate::database_name::DbName;
use crate::fault::StoreFault;
use crate::index_page::{KeyRange, PageByKey};
use crate::listing::{IdRange, PageById, PageBySeq, SeqRange};
use crate::local_document::LocalDocument;
use crate::store::Store;
use crate::write::Write;
use policy::Security;
use tree::{DocId, Entry, History, MarkedRev, Outline, Rev};

/// Which call of a store fails.
#[derive(Clone, Copy, Debug, PartialEq, Eq)]
pub enum FailingCall {
    /// The one after so many others.
    After(u64),
    /// None any more, since it has been made.
    Past,
    /// None.
    Never,
}

/// A store of which one call fails: it tries what the contract of a store says of faults.
///
/// The call that fails is counted as a fault, answers `Failed` and changes nothing. Each other one is
/// made on the store below. The calls are those that answer a `Result`; none takes memory of its own.
pub struct FailStore<S: Store + Drop> {
    store: S,
    failing: FailingCall,
}

// Written out, so that callers do not prove again how each part is dropped.
impl<S: Store + Drop> Drop for FailStore<S> {
    fn drop(self) {
        let FailStore {
            store: _,
            failing: _,
        } = self;
    }
}

impl<S: Store + Drop> FailStore<S> {
    /// Makes the store whose k-th call fails, counted from 1; for 0 none fails.
    pub fn new(store: S, k: u64) -> FailStore<S>
        ensures store { result.store ≡ store }
        ensures failing { result.failing ≡ failing_call k }
    {
        let failing = match k {
            0 => FailingCall::Never,
            _ => FailingCall::After(k - 1),
        };
        FailStore { store, failing }
    }
}

/// Counts a call off, or answers that it is the one that fails.
fn take_turn(failing: &mut FailingCall) -> Result<(), StoreFault>
    ensures later { failing.new ≡ one_call_later failing.old }
    ensures passed { OnOk result (failing.old ≢ FailingCall.After 0) }
    ensures same { OnOk result (failures_of failing.new ≡ failures_of failing.old) }
    ensures failed { IfErr result (λ fault. fault ≡ StoreFault.Failed) }
    ensures counted { OnErr result ((failures_of failing.old ≡ 0) × (failures_of failing.new ≡ 1)) }
{
    match *failing {
        FailingCall::After(0) => {
            *failing = FailingCall::Past;
            Err(StoreFault::Failed)
        }
        FailingCall::After(others) => {
            *failing = FailingCall::After(others - 1);
            Ok(())
        }
        FailingCall::Past | FailingCall::Never => Ok(()),
    }
}

impl<S: Store + Drop> Store for FailStore<S> {
    ghost contents = { λ s. S.contents s.store };

    ghost is_honest = { λ s. S.is_honest s.store };

    ghost is_clean = { λ s. S.is_clean s.store };

    ghost fault_count = { λ s. min (S.fault_count s.store + failures_of s.failing) (2 ^ 64 - 1) };

    ghost lacks_room = { λ s. S.lacks_room s.store };

    ghost lacks_number = { λ s. S.lacks_number s.store };

    fn create(&mut self, name: &DbName) -> Result<(), StoreFault>
        ensures ok { S.is_honest self.new.store → OnOk result (S.contents self.new.store ≡ map.insert (S.contents self.old.store) name.now new_database) }
        ensures absent { S.is_honest self.new.store → OnOk result (map.get (S.contents self.old.store) name.now ≡ None) }
        ensures exists { S.is_honest self.new.store → result ≡ Err StoreFault.Exists → is_some (map.get (S.contents self.old.store) name.now) ≡ true }
        ensures others { result ≢ Err StoreFault.NoDatabase }
        ensures caused { IfErr result
            (λ fault. IsCaused (⟦<FailStore<S> as Store>⟧.fault_count self.old) (⟦<FailStore<S> as Store>⟧.fault_count self.new) (S.is_honest self.new.store)
            (S.is_honest self.new.store → S.lacks_number self.old.store) fault) }
        ensures changes { ChangesWhole ⟦<FailStore<S> as Store>⟧ self.old self.new result }
        ensures turn { TakesTurn S.Store self.old self.new result }
    {
        take_turn(&mut self.failing)?;
        self.store.create(name)
    }

    fn remove(&mut self, name: &DbName) -> Result<(), StoreFault>
        ensures ok { S.is_honest self.new.store → OnOk result (S.contents self.new.store ≡ map.remove (S.contents self.old.store) name.now) }
        ensures there { S.is_honest self.new.store → OnOk result (is_some (map.get (S.contents self.old.store) name.now) ≡ true) }
        ensures missing { S.is_honest self.new.store → result ≡ Err StoreFault.NoDatabase → map.get (S.contents self.old.store) name.now ≡ None }
        ensures others { result ≢ Err StoreFault.Exists }
        ensures caused { IfErr result
            (λ fault. IsCaused (⟦<FailStore<S> as Store>⟧.fault_count self.old) (⟦<FailStore<S> as Store>⟧.fault_count self.new)
            (S.is_honest self.new.store) ⊥ fault) }
        ensures changes { ChangesWhole ⟦<FailStore<S> as Store>⟧ self.old self.new result }
        ensures turn { TakesTurn S.Store self.old self.new result }
    {
        take_turn(&mut self.failing)?;
        self.store.remove(name)
    }

    fn names(&mut self) -> Result<Vec<DbName>, StoreFault>
        ensures answer { Answers ⟦<FailStore<S> as Store>⟧ self.old self.new (λ names. names.items) (Some (map.keys (S.contents self.old.store))) result }
        ensures others { result ≢ Err StoreFault.NoDatabase }
        ensures reads { OnlyReads ⟦<FailStore<S> as Store>⟧ self.old self.new }
        ensures turn { TakesTurn S.Store self.old self.new result }
    {
        take_turn(&mut self.failing)?;
        self.store.names()
    }

    fn security(&mut self, name: &DbName) -> Result<Security, StoreFault>
        ensures answer { Answers ⟦<FailStore<S> as Store>⟧ self.old self.new (λ security. security)
            (option_map (λ db. db.security) (map.get (S.contents self.old.store) name.now)) result }
        ensures reads { OnlyReads ⟦<FailStore<S> as Store>⟧ self.old self.new }
        ensures turn { TakesTurn S.Store self.old self.new result }
    {
        take_turn(&mut self.failing)?;
        self.store.security(name)
    }

    fn set_security(&mut self, name: &DbName, security: &Security) -> Result<(), StoreFault>
        ensures ok { S.is_honest self.new.store
            → OnOk result (option_map (λ db. map.insert (S.contents self.old.store) name.now (with_security db security.now))
            (map.get (S.contents self.old.store) name.now) ≡ Some (S.contents self.new.store)) }
        ensures missing { S.is_honest self.new.store → result ≡ Err StoreFault.NoDatabase → map.get (S.contents self.old.store) name.now ≡ None }
        ensures others { result ≢ Err StoreFault.Exists }
        ensures caused { IfErr result
            (λ fault. IsCaused (⟦<FailStore<S> as Store>⟧.fault_count self.old) (⟦<FailStore<S> as Store>⟧.fault_count self.new)
            (S.is_honest self.new.store) ⊥ fault) }
        ensures changes { ChangesWhole ⟦<FailStore<S> as Store>⟧ self.old self.new result }
        ensures turn { TakesTurn S.Store self.old self.new result }
    {
        take_turn(&mut self.failing)?;
        self.store.set_security(name, security)
    }

    fn history(&mut self, name: &DbName, id: &DocId) -> Result<History, StoreFault>
        ensures answer { Answers ⟦<FailStore<S> as Store>⟧ self.old self.new (λ history. history)
            (option_map (λ db. history_at db id.now) (map.get (S.contents self.old.store) name.now)) result }
        ensures reads { OnlyReads ⟦<FailStore<S> as Store>⟧ self.old self.new }
        ensures turn { TakesTurn S.Store self.old self.new result }
    {
        take_turn(&mut self.failing)?;
        self.store.history(name, id)
    }

    fn outline(&mut self, name: &DbName, id: &DocId) -> Result<Outline, StoreFault>
        ensures answer { Answers ⟦<FailStore<S> as Store>⟧ self.old self.new (λ outline. outline)
            (option_map (λ db. outline_of (history_at db id.now)) (map.get (S.contents self.old.store) name.now)) result }
        ensures reads { OnlyReads ⟦<FailStore<S> as Store>⟧ self.old self.new }
        ensures turn { TakesTurn S.Store self.old self.new result }
    {
        take_turn(&mut self.failing)?;
        self.store.outline(name, id)
    }

    fn winner(&mut self, name: &DbName, id: &DocId) -> Result<Option<MarkedRev>, StoreFault>
        ensures answer { Answers ⟦<FailStore<S> as Store>⟧ self.old self.new (λ found. found)
            (option_map (λ db. marked_winner (history_at db id.now)) (map.get (S.contents self.old.store) name.now)) result }
        ensures reads { OnlyReads ⟦<FailStore<S> as Store>⟧ self.old self.new }
        ensures turn { TakesTurn S.Store self.old self.new result }
    {
        take_turn(&mut self.failing)?;
        self.store.winner(name, id)
    }

    fn revision(
        &mut self,
        name: &DbName,
        id: &DocId,
        rev: &Rev,
    ) -> Result<Option<Entry>, StoreFault>
        ensures answer { Answers ⟦<FailStore<S> as Store>⟧ self.old self.new (λ found. found)
            (option_map (λ db. map.get (history_at db id.now) rev.now) (map.get (S.contents self.old.store) name.now)) result }
        ensures reads { OnlyReads ⟦<FailStore<S> as Store>⟧ self.old self.new }
        ensures turn { TakesTurn S.Store self.old self.new result }
    {
        take_turn(&mut self.failing)?;
        self.store.revision(name, id, rev)
    }

    fn page_by_id(&mut self, name: &DbName, range: &IdRange) -> Result<PageById, StoreFault>
        ensures answer { Answers ⟦<FailStore<S> as Store>⟧ self.old self.new id_page_of
            (option_map (λ db. page_of_ids range.now db) (map.get (S.contents self.old.store) name.now)) result }
        ensures counted { IfOk result (IsCounted range.now) }
        ensures reads { OnlyReads ⟦<FailStore<S> as Store>⟧ self.old self.new }
        ensures turn { TakesTurn S.Store self.old self.new result }
    {
        take_turn(&mut self.failing)?;
        self.store.page_by_id(name, range)
    }

    fn page_by_seq(&mut self, name: &DbName, range: &SeqRange) -> Result<PageBySeq, StoreFault>
        ensures answer { Answers ⟦<FailStore<S> as Store>⟧ self.old self.new sequence_page_of
            (option_map (λ db. page_by_sequence range.now db) (map.get (S.contents self.old.store) name.now)) result }
        ensures bounded { IfOk result (IsBounded range.now) }
        ensures reads { OnlyReads ⟦<FailStore<S> as Store>⟧ self.old self.new }
        ensures turn { TakesTurn S.Store self.old self.new result }
    {
        take_turn(&mut self.failing)?;
        self.store.page_by_seq(name, range)
    }

    fn page_by_key(
        &mut self,
        name: &DbName,
        design: &DocId,
        index: &str,
        range: &KeyRange,
    ) -> Result<Option<PageByKey>, StoreFault>
        ensures answer { Answers ⟦<FailStore<S> as Store>⟧ self.old self.new key_page_in
            (option_map (λ db. page_of_keys range.now design.now index.now db) (map.get (S.contents self.old.store) name.now)) result }
        ensures counted { IfOk result (λ page. IfSome page (HasKeyCounts range.now)) }
        ensures reads { OnlyReads ⟦<FailStore<S> as Store>⟧ self.old self.new }
        ensures turn { TakesTurn S.Store self.old self.new result }
    {
        take_turn(&mut self.failing)?;
        self.store.page_by_key(name, design, index, range)
    }

    fn commit(&mut self, name: &DbName, writes: &[Write]) -> Result<(), StoreFault>
        requires { S.is_honest self.old.store → IfThere (map.get (S.contents self.old.store) name.now)
            (λ db. AreAcceptable db (writings_in db (additions writes.now))) }
        ensures ok { S.is_honest self.new.store
            → OnOk result (option_map (λ db. map.insert (S.contents self.old.store) name.now (with_all db (writings_in db (additions writes.now))))
            (map.get (S.contents self.old.store) name.now) ≡ Some (S.contents self.new.store)) }
        ensures missing { S.is_honest self.new.store → result ≡ Err StoreFault.NoDatabase → map.get (S.contents self.old.store) name.now ≡ None }
        ensures others { result ≢ Err StoreFault.Exists }
        ensures caused { IfErr result
            (λ fault. IsCaused (⟦<FailStore<S> as Store>⟧.fault_count self.old) (⟦<FailStore<S> as Store>⟧.fault_count self.new) (S.is_honest self.new.store)
            (S.is_honest self.new.store
            → IsThereWith (map.get (S.contents self.old.store) name.now)
            (λ db. S.lacks_room self.old.store name.now (writings_in db (additions writes.now)))) fault) }
        ensures changes { ChangesWhole ⟦<FailStore<S> as Store>⟧ self.old self.new result }
        ensures turn { TakesTurn S.Store self.old self.new result }
    {
        take_turn(&mut self.failing)?;
        self.store.commit(name, writes)
    }

    fn local(&mut self, name: &DbName, id: &DocId) -> Result<Option<LocalDocument>, StoreFault>
        ensures answer { Answers ⟦<FailStore<S> as Store>⟧ self.old self.new (λ found. found)
            (option_map (λ db. local_at db id.now) (map.get (S.contents self.old.store) name.now)) result }
        ensures reads { OnlyReads ⟦<FailStore<S> as Store>⟧ self.old self.new }
        ensures turn { TakesTurn S.Store self.old self.new result }
    {
        take_turn(&mut self.failing)?;
        self.store.local(name, id)
    }

    fn set_local(
        &mut self,
        name: &DbName,
        id: &DocId,
        document: &LocalDocument,
    ) -> Result<(), StoreFault>
        requires { S.is_honest self.old.store → IfThere (map.get (S.contents self.old.store) name.now) (λ _. IsLocalDocument id.now document.now) }
        ensures ok { S.is_honest self.new.store
            → OnOk result (option_map (λ db. map.insert (S.contents self.old.store) name.now (with_local db id.now document.now))
            (map.get (S.contents self.old.store) name.now) ≡ Some (S.contents self.new.store)) }
        ensures missing { S.is_honest self.new.store → result ≡ Err StoreFault.NoDatabase → map.get (S.contents self.old.store) name.now ≡ None }
        ensures others { result ≢ Err StoreFault.Exists }
        ensures caused { IfErr result
            (λ fault. IsCaused (⟦<FailStore<S> as Store>⟧.fault_count self.old) (⟦<FailStore<S> as Store>⟧.fault_count self.new)
            (S.is_honest self.new.store) ⊥ fault) }
        ensures changes { ChangesWhole ⟦<FailStore<S> as Store>⟧ self.old self.new result }
        ensures turn { TakesTurn S.Store self.old self.new result }
    {
        take_turn(&mut self.failing)?;
        self.store.set_local(name, id, document)
    }

    fn faults(&self) -> u64 {
        match self.failing {
            FailingCall::Past => self.store.faults().saturating_add(1),
            _ => self.store.faults(),
        }
    }

    ghost lawful = { λ s h. S.lawful s.store h };

    ghost ends = { λ s h. S.ends s.store h };
}
