//! What a store changes, each in one transaction.

use crate::earlier::forget_named;
use crate::fault::{judge, judge_write};
use crate::sql_store::SqlStore;
use couch_json::canon;
use policy::Security;
use sqlite::Alter;
use std::snapshot::Snapshot;
use store::{DbName, LocalDocument, StoreFault};
use transactions::{add_database, change_security, remove_database, write_local};
use tree::DocId;

impl<S: Alter> SqlStore<S> {
    ghost use Rattle.std.specs.Prelude.{◌≡◌, ◌≢◌, Err, IfErr, None, Some, OnErr, OnOk, is_some, option_map, true};
    ghost use Rattle.std.specs.FinMap as map;
    ghost use Rattle.store.specs.Contents.{new_database, with_local, with_security};
    ghost use Rattle.store.specs.Lawful.{IsLocalDocument};
    ghost use Rattle.sqlstore.specs.inner.Causes.{IsJudged};
    ghost use Rattle.sqlstore.specs.inner.Commits.{IsUncommitted};
    ghost use Rattle.sqlstore.specs.inner.Reading.{HasNumber};
    ghost use Rattle.sqlstore.specs.Model.{Answers, Moves, Stands, contents_of, is_honest, trees_of};

    /// Tells whether there is a database of this name.
    pub(crate) fn has(&mut self, name: &DbName) -> Result<bool, StoreFault>
        ensures answer { Answers S.Store self.old self.new (λ there. there) (Some (is_some (map.get (contents_of S.Store self.old) name.now))) result }
        ensures others { result ≢ Err StoreFault.NoDatabase }
        ensures stands { Stands S.Store self.old self.new }
    {
        match self.find(name) {
            Ok(_) => {}
            Err(StoreFault::NoDatabase) => return Ok(false),
            Err(fault) => return Err(fault),
        }
        Ok(true)
    }

    /// Puts in a new database.
    pub(crate) fn add(&mut self, name: &DbName) -> Result<(), StoreFault>
        requires { is_honest S.Store self.old → map.get (contents_of S.Store self.old) name.now ≡ None }
        ensures ok { is_honest S.Store self.new → OnOk result (contents_of S.Store self.new ≡ map.insert (contents_of S.Store self.old) name.now new_database) }
        ensures judged { IfErr result (IsJudged self.old.faults self.new.faults) }
        ensures kept { OnErr result (self.new.last.value ≡ self.old.last.value) }
        ensures moves { Moves S.Store self.old self.new }
    {
        let security = Security::closed(self.alloc)?;
        let text = canon(self.alloc, security.value())?;
        self.known = None;
        forget_named(&mut self.earlier, name);
        match add_database(&mut self.conn, name.as_str().as_bytes(), text.as_str()) {
            Ok(()) => {
                self.last = Snapshot::of(&self.conn);
                Ok(())
            }
            Err(error) => Err(judge(&mut self.faults, error)),
        }
    }

    /// Gives the database of this number another security object.
    pub(crate) fn secure(
        &mut self,
        name: &DbName,
        number: &i64,
        security: &Security,
    ) -> Result<(), StoreFault>
        requires { is_honest S.Store self.old → HasNumber (trees_of S.Store self.old) name.now number.now }
        ensures ok { is_honest S.Store self.new
            → OnOk result (option_map (λ db. map.insert (contents_of S.Store self.old) name.now (with_security db security.now))
            (map.get (contents_of S.Store self.old) name.now) ≡ Some (contents_of S.Store self.new)) }
        ensures judged { IfErr result (IsJudged self.old.faults self.new.faults) }
        ensures kept { OnErr result (self.new.last.value ≡ self.old.last.value) }
        ensures moves { Moves S.Store self.old self.new }
    {
        let text = canon(self.alloc, security.value())?;
        self.known = None;
        forget_named(&mut self.earlier, name);
        match change_security(&mut self.conn, number, text.as_str()) {
            Ok(()) => {
                self.last = Snapshot::of(&self.conn);
                Ok(())
            }
            Err(error) => Err(judge(&mut self.faults, error)),
        }
    }

    /// Takes out the database of this number.
    pub(crate) fn clear(&mut self, name: &DbName, number: &i64) -> Result<(), StoreFault>
        requires { is_honest S.Store self.old → HasNumber (trees_of S.Store self.old) name.now number.now }
        ensures ok { is_honest S.Store self.new → OnOk result (contents_of S.Store self.new ≡ map.remove (contents_of S.Store self.old) name.now) }
        ensures told { IfErr result (IsUncommitted self.old.faults self.new.faults (is_honest S.Store self.new)) }
        ensures kept { OnErr result (self.new.last.value ≡ self.old.last.value) }
        ensures moves { Moves S.Store self.old self.new }
    {
        self.known = None;
        forget_named(&mut self.earlier, name);
        match remove_database(self.alloc, &mut self.conn, number) {
            Ok(()) => {
                self.last = Snapshot::of(&self.conn);
                Ok(())
            }
            Err(fault) => Err(judge_write(&mut self.faults, fault)),
        }
    }

    /// Writes a local document of the database of this number.
    pub(crate) fn put_local(
        &mut self,
        name: &DbName,
        number: &i64,
        id: &DocId,
        document: &LocalDocument,
    ) -> Result<(), StoreFault>
        requires there { is_honest S.Store self.old → HasNumber (trees_of S.Store self.old) name.now number.now }
        requires local { is_honest S.Store self.old → IsLocalDocument id.now document.now }
        ensures ok { is_honest S.Store self.new
            → OnOk result (option_map (λ db. map.insert (contents_of S.Store self.old) name.now (with_local db id.now document.now))
            (map.get (contents_of S.Store self.old) name.now) ≡ Some (contents_of S.Store self.new)) }
        ensures judged { IfErr result (IsJudged self.old.faults self.new.faults) }
        ensures kept { OnErr result (self.new.last.value ≡ self.old.last.value) }
        ensures moves { Moves S.Store self.old self.new }
    {
        let text = canon(self.alloc, document.body.json())?;
        match write_local(
            &mut self.conn,
            number,
            id.as_str().as_bytes(),
            document.number,
            text.as_str(),
        ) {
            Ok(()) => {
                self.last = Snapshot::of(&self.conn);
                Ok(())
            }
            Err(error) => Err(judge(&mut self.faults, error)),
        }
    }
}
