//! The calls of the trait `Store`.

use crate::database_names::read_names;
use crate::first_rows::{first_local, read_security};
use crate::sql_store::SqlStore;
use crate::sql_store::committing::has_room;
use policy::Security;
use sqlite::Alter;
use store::{
    DbName, IdRange, KeyRange, LocalDocument, PageById, PageByKey, PageBySeq, SeqRange, Store,
    StoreFault, Write,
};
use tree::{DocId, Entry, History, MarkedRev, Outline, Rev};

impl<S: Alter + Drop> Store for SqlStore<S> {
    ghost use Rattle.std.proofs.Math.Logic.{∥∥₁_elim, ∥∥₁_prop};
    ghost use Rattle.sqlstore.specs.Model as model;

    ghost contents = { model.contents_of S.Store };

    ghost is_honest = { model.is_honest S.Store };

    ghost is_clean = { model.is_clean S.Store };

    ghost fault_count = { model.fault_count S.Store };

    ghost lacks_room = { model.lacks_room S.Store };

    ghost lacks_number = { model.lacks_number S.Store };

    #[tactic(auto, using(crate::proofs::Changing::changed_whole, crate::proofs::Changing::unchanged))]
    fn create(&mut self, name: &DbName) -> Result<(), StoreFault> {
        if self.has(name)? {
            return Err(StoreFault::Exists);
        }
        self.add(name)
    }

    #[tactic(auto, using(crate::proofs::Changing::changed_whole, crate::proofs::Changing::unchanged))]
    fn remove(&mut self, name: &DbName) -> Result<(), StoreFault> {
        let found = self.find(name)?;
        self.clear(name, &found.number)
    }

    #[tactic(auto, using(crate::proofs::Answering::reads, crate::proofs::Answering::stands_then))]
    fn names(&mut self) -> Result<Vec<DbName>, StoreFault> {
        let rows = self.name_rows()?;
        read_names(self.alloc, &rows)
    }

    #[tactic(auto, using(crate::proofs::Answering::reads, crate::proofs::Answering::stands_then))]
    fn security(&mut self, name: &DbName) -> Result<Security, StoreFault> {
        let known = self.know(name)?;
        let security = read_security(self.alloc, &known.found.security);
        self.known = Some(known);
        security
    }

    #[tactic(auto, using(crate::proofs::Changing::changed_whole, crate::proofs::Changing::unchanged))]
    fn set_security(&mut self, name: &DbName, security: &Security) -> Result<(), StoreFault> {
        let found = self.find(name)?;
        self.secure(name, &found.number, security)
    }

    #[tactic(auto, using(crate::proofs::Answering::reads, crate::proofs::Answering::stands_then))]
    fn history(&mut self, name: &DbName, id: &DocId) -> Result<History, StoreFault> {
        let found = self.find(name)?;
        self.find_history(&found.number, id)
    }

    #[tactic(auto, using(crate::proofs::Answering::reads, crate::proofs::Answering::stands_then))]
    fn outline(&mut self, name: &DbName, id: &DocId) -> Result<Outline, StoreFault> {
        let found = self.find(name)?;
        self.find_outline(&found.number, id)
    }

    #[tactic(auto, using(crate::proofs::Answering::reads, crate::proofs::Answering::stands_then))]
    fn winner(&mut self, name: &DbName, id: &DocId) -> Result<Option<MarkedRev>, StoreFault> {
        let found = self.find(name)?;
        self.give_winner(&found.number, id)
    }

    #[tactic(auto, using(crate::proofs::Answering::reads, crate::proofs::Answering::stands_then))]
    fn revision(
        &mut self,
        name: &DbName,
        id: &DocId,
        rev: &Rev,
    ) -> Result<Option<Entry>, StoreFault> {
        let found = self.find(name)?;
        self.give_revision(&found.number, id, rev)
    }

    #[tactic(auto, using(crate::proofs::Answering::reads, crate::proofs::Answering::stands_then))]
    fn page_by_id(&mut self, name: &DbName, range: &IdRange) -> Result<PageById, StoreFault> {
        let found = self.find(name)?;
        self.give_page_by_id(&found.number, range)
    }

    #[tactic(auto, using(crate::proofs::Answering::reads, crate::proofs::Answering::stands_then))]
    fn page_by_seq(&mut self, name: &DbName, range: &SeqRange) -> Result<PageBySeq, StoreFault> {
        let found = self.find_bounded(name)?;
        let page = self.find_page_by_sequence(&found.number, found.sequence, range)?;
        if !range.all_leaves {
            return Ok(page);
        }
        self.show_page_leaves(&found.number, page, range)
    }

    #[tactic(auto, using(crate::proofs::Answering::reads, crate::proofs::Answering::stands_then))]
    fn page_by_key(
        &mut self,
        name: &DbName,
        design: &DocId,
        index: &str,
        range: &KeyRange,
    ) -> Result<Option<PageByKey>, StoreFault> {
        let found = self.find(name)?;
        match self.find_declaration(&found.number, design, index)? {
            Some(declaration) => Ok(Some(self.find_page_by_key(
                &found.number,
                declaration,
                range,
            )?)),
            None => Ok(None),
        }
    }

    #[tactic(auto, using(crate::proofs::Changing::changed_whole, crate::proofs::Changing::unchanged))]
    fn commit(&mut self, name: &DbName, writes: &[Write]) -> Result<(), StoreFault> {
        let found = self.find(name)?;
        if !has_room(found.sequence, writes.len()) {
            return Err(StoreFault::Full);
        }
        self.append_counted(name, &found.number, found.sequence, writes)
    }

    #[tactic(auto, using(crate::proofs::Answering::reads, crate::proofs::Answering::stands_then))]
    fn local(&mut self, name: &DbName, id: &DocId) -> Result<Option<LocalDocument>, StoreFault> {
        let found = self.find(name)?;
        let rows = self.local_rows(&found.number, id.as_str().as_bytes())?;
        first_local(self.alloc, &rows)
    }

    #[tactic(auto, using(crate::proofs::Changing::changed_whole, crate::proofs::Changing::unchanged))]
    fn set_local(
        &mut self,
        name: &DbName,
        id: &DocId,
        document: &LocalDocument,
    ) -> Result<(), StoreFault> {
        let found = self.find(name)?;
        self.put_local(name, &found.number, id, document)
    }

    fn faults(&self) -> u64 {
        self.faults
    }

    ghost lawful = { λ s honest. ∥∥₁_elim (s.standing.held honest.0 honest.1) ∥∥₁_prop (λ h. h.store.laid.lawful) };

    ghost ends = { λ s honest. ∥∥₁_elim (s.standing.held honest.0 honest.1) ∥∥₁_prop (λ h. h.ends) };
}
