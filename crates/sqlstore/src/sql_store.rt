ghost use Rattle.sqlstore.specs.Standing.{IsStanding};

mod by_id;
mod by_key;
mod by_sequence;
mod calls;
mod changing;
mod committing;
mod counting;
mod design_reading;
mod find;
mod key_marking;
mod key_ranking;
mod listing_rows;
mod marking;
mod one_document;
mod page_rows;
mod ranking;
mod rows;

use crate::known_database::KnownDatabase;
use crate::open_fault::OpenFault;
use crate::opening::find_tables;
use sqlite::{Alter, Connection};
use std::alloc::Global;
use std::cmp::max;
use std::snapshot::Snapshot;

/// How many keys a segment of ranks begins with.
const SEGMENT_LENGTH: usize = 256;

/// A store of databases over the tables of a connection.
pub struct SqlStore<S: Alter> {
    alloc: Global,
    conn: Connection<S>,
    /// As `open` left it, for clauses alone.
    origin: Snapshot<Connection<S>>,
    /// As the last change left it, for clauses alone.
    last: Snapshot<Connection<S>>,
    /// The database that was asked for last. Whatever changes its row changes this or drops it.
    known: Option<KnownDatabase>,
    /// Those that were asked for before it, the latest last.
    earlier: Vec<KnownDatabase>,
    faults: u64,
    /// How many rows the queries of reading calls have taken; it stays at the greatest number.
    fetched: u64,
    /// How many keys a segment of ranks begins with; it is split where it has more than twice as many.
    segment: usize,
    ghost standing: { IsStanding S.Store conn origin.value last.value known earlier.items },
}

// It is written out, so that a caller does not prove again how each part is dropped.
impl<S: Alter + Drop> Drop for SqlStore<S> {
    fn drop(self) {
        let SqlStore {
            alloc: _,
            conn: _,
            origin: _,
            last: _,
            known: _,
            earlier: _,
            faults: _,
            fetched: _,
            segment: _,
        } = self;
    }
}

impl<S: Alter> SqlStore<S> {
    ghost use Rattle.sqlstore.specs.Model.{Stands, fault_count, is_honest};

    /// Sets how many keys a segment of ranks begins with, at least one. Tests set few, so that small
    /// databases have many segments.
    pub(crate) fn set_segment_length(&mut self, keys: usize)
        ensures stands { Stands S.Store self.old self.new }
        ensures honest { is_honest S.Store self.old → is_honest S.Store self.new }
    {
        self.segment = max(keys, 1);
    }
}

impl<S: Alter + Drop> SqlStore<S> {
    ghost use Rattle.std.specs.Prelude.{◌≡◌, ◌⊎◌, ◌≢◌, Err, IfErr, IfOk, IsErr, IsTrue, None, OnErr, OnOk, false, true};
    ghost use Rattle.std.specs.FinMap.{empty};
    ghost use Rattle.sqlite.specs.Held.{state};
    ghost use Rattle.sqlite.specs.State.{HasCleanDisk};
    ghost use Rattle.tables.specs.Layout.{IsFirstStore, IsStore};
    ghost use Rattle.tables.specs.Presence.{has_all, has_any, version_in};
    ghost use Rattle.tables.specs.Rows.{contents_in};
    ghost use Rattle.tables.specs.Schema.{meta_tree, no_schema, schema};
    ghost use Rattle.tables.specs.declared.meta.FileVersion.{FileVersion};
    ghost use Rattle.transactions.specs.Indexing.{IsCommittedStore};
    ghost use Rattle.sqlstore.specs.Model.{contents_of, fault_count, is_clean, is_honest};
    ghost use Rattle.sqlstore.specs.Opening.{FailsToRead, IsForeign, version_of};

    /// Opens the store that the tables of a connection hold, and makes the tables where there is none of
    /// them. A file of the first version is carried over to this one: the rows of its indexes are made anew.
    ///
    /// `NotOurs` comes where the tables are not those of this server, or a transaction is open. The
    /// connection comes back where the store is not opened.
    pub fn open(
        alloc: Global,
        mut conn: Connection<S>,
    ) -> Result<SqlStore<S>, (OpenFault, Connection<S>)>
        // Where there was a store, with the rows of its indexes, it is opened as it was; and where there was nothing it has no database.
        ensures found { IfOk result
            (λ s. is_clean S.Store s → IsCommittedStore (state S.Store conn).now → is_honest S.Store s
            × (contents_of S.Store s ≡ contents_in (state S.Store conn).now.trees)) }
        // One of the first version is opened with what it held, and with the rows of its indexes made anew.
        ensures carried { IfOk result
            (λ s. is_clean S.Store s → IsFirstStore (state S.Store conn).now → is_honest S.Store s
            × (contents_of S.Store s ≡ contents_in (state S.Store conn).now.trees)) }
        ensures made { IfOk result (λ s. is_clean S.Store s → conn.schema ≡ no_schema → is_honest S.Store s × (contents_of S.Store s ≡ empty)) }
        ensures no_faults { IfOk result (λ s. fault_count S.Store s ≡ 0) }
        ensures clean { IfOk result (λ s. is_clean S.Store s → HasCleanDisk (state S.Store conn)) }
        ensures served { IfOk result (λ s. is_clean S.Store s → IsTrue (state S.Store conn).is_open) }
        ensures not_ours { IfErr result
            (λ e. e.0 ≡ OpenFault.NotOurs → (conn.in_transaction ≡ true) ⊎ (HasCleanDisk (state S.Store e.1) → ¬ IsStore (state S.Store conn).now)) }
        ensures not_first { IfErr result
            (λ e. e.0 ≡ OpenFault.NotOurs → (conn.in_transaction ≡ true) ⊎ (HasCleanDisk (state S.Store e.1) → ¬ IsFirstStore (state S.Store conn).now)) }

        // `NotOurs` comes only where tables of a store are there that are none: some alone, always; or all, at another version or with
        // rows of the first one that are not laid out. Where there is none of them it never comes.
        ensures foreign { IfErr result (λ e. e.0 ≡ OpenFault.NotOurs → (conn.in_transaction ≡ true) ⊎ IsForeign S.Store conn e.1) }
        ensures fresh { IfErr result (λ e. conn.in_transaction ≡ false → has_any conn.schema ≡ false → e.0 ≢ OpenFault.NotOurs) }
        ensures part { IfErr result (λ e. has_any conn.schema ≡ true → has_all conn.schema ≡ false → e.0 ≡ OpenFault.NotOurs) }

        // At our columns, and unless the file is of the first version, `Memory` and `Failed` come only where the library refused the one
        // statement that reads the version.
        ensures failed { IfErr result (λ e. HasCleanDisk (state S.Store e.1) → conn.schema ≡ schema → version_of (state S.Store conn).now ≢ FileVersion.First
            → e.0 ≢ OpenFault.NotOurs → FailsToRead S.Store (record conn { step_limit = None }) e.1 e.0) }

        // What is opened has none of the tables or all, and if they are those of this layout, one of the two versions.
        ensures all { IfOk result (λ _. has_any conn.schema ≡ true → has_all conn.schema ≡ true) }
        ensures version { IfOk result
            (λ s. is_clean S.Store s → conn.schema ≡ schema → version_in ((state S.Store conn).now.trees meta_tree) ≢ FileVersion.Other) }

        // Where it is refused the rows are as they were, if tables of these names are those of this layout,
        // and a connection that was shut is not opened.
        ensures refused { IfErr result (λ e. (has_all conn.schema ≡ true → conn.schema ≡ schema) → HasCleanDisk (state S.Store e.1)
            → IsTrue (state S.Store e.1).is_open
            → (state S.Store e.1).now ≡ (state S.Store conn).now) }
        ensures shut { IfErr result
            (λ e. HasCleanDisk (state S.Store e.1) → HasCleanDisk (state S.Store conn)
            × (IsTrue (state S.Store e.1).is_open → IsTrue (state S.Store conn).is_open)) }
    {
        if !conn.is_autocommit() {
            return Err((OpenFault::NotOurs, conn));
        }
        conn.set_step_limit(None);
        if let Err(fault) = find_tables(alloc, &mut conn) {
            return Err((fault, conn));
        }
        if !conn.is_autocommit() {
            unreachable!()
        }
        let origin = Snapshot::of(&conn);
        let last = Snapshot::of(&conn);
        Ok(SqlStore {
            alloc,
            conn,
            origin,
            last,
            known: None,
            earlier: Vec::new(alloc),
            faults: 0,
            fetched: 0,
            segment: SEGMENT_LENGTH,
        })
    }

    /// Closes the store, and gives back its connection, which is in no transaction and has the rows that
    /// hold the contents, laid out as a store's; the rows of its indexes are those of what it holds, and
    /// the sequence of each database is that of its last document.
    pub fn close(self) -> Connection<S>
        ensures idle { result.in_transaction ≡ false }
        ensures contents { is_honest S.Store self → IsTrue (state S.Store result).is_open
            → contents_in (state S.Store result).now.trees ≡ contents_of S.Store self }
        ensures laid { is_honest S.Store self → IsTrue (state S.Store result).is_open → ∥ IsCommittedStore (state S.Store result).now ∥₁ }
        ensures clean { HasCleanDisk (state S.Store result) → is_clean S.Store self }
    {
        let SqlStore {
            alloc: _,
            conn,
            origin: _,
            last: _,
            known: _,
            earlier: _,
            faults: _,
            fetched: _,
            segment: _,
        } = self;
        conn
    }

    /// Closes the store, and opens again what its tables hold. The connection comes back where that is refused.
    pub fn reopen(self) -> Result<SqlStore<S>, (OpenFault, Connection<S>)>
        // It has the same contents, and has met no fault.
        ensures same { is_honest S.Store self
            → IfOk result (λ s. is_clean S.Store s → is_honest S.Store s × (contents_of S.Store s ≡ contents_of S.Store self)) }
        ensures no_faults { IfOk result (λ s. fault_count S.Store s ≡ 0) }
        ensures clean { IfOk result (λ s. is_clean S.Store s → is_clean S.Store self) }

        // Where it is refused the tables are those of a store nevertheless, with the same contents.
        ensures ours { is_honest S.Store self
            → IfErr result (λ e. HasCleanDisk (state S.Store e.1) → IsTrue (state S.Store e.1).is_open → e.0 ≢ OpenFault.NotOurs) }
        ensures refused { is_honest S.Store self → IfErr result (λ e. HasCleanDisk (state S.Store e.1) → IsTrue (state S.Store e.1).is_open
            → ∥ IsCommittedStore (state S.Store e.1).now ∥₁ × (contents_in (state S.Store e.1).now.trees ≡ contents_of S.Store self)) }
    {
        let alloc = self.alloc;
        SqlStore::open(alloc, self.close())
    }

    /// Returns how many rows the queries of reading calls have taken since the store was opened; it stays
    /// at 2^64 - 1. Those that a change takes in its transaction are not counted.
    pub fn fetched(&self) -> u64 {
        self.fetched
    }
}
