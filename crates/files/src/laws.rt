//! What follows for a file from a check of it and from the store that is opened behind it.

ghost use Rattle.std.specs.Prelude.{◌≡◌, ◌≢◌, IfErr, IfOk, false};
ghost use Rattle.sqlite.specs.Held.{state};
ghost use Rattle.sqlite.specs.State.{HasCleanDisk};
ghost use Rattle.sqlstore.specs.Model.{contents_of, is_clean, is_honest};
ghost use Rattle.tables.specs.Rows.{contents_in};
ghost use Rattle.transactions.specs.Indexing.{IsCommittedStore};
ghost use Rattle.file_check.specs.Verdicts.{AreAllKept};
ghost use Rattle.file_check.specs.declared.finding.Finding.{Finding};

use crate::sound_fault::SoundFault;
use file_check::{Verdict, check};
use sqlite::{Alter, Connection};
use sqlstore::{OpenFault, SqlStore};
use std::alloc::Global;

/// Opens the store that the tables of a connection hold, where a check of them calls them sound: with no write
/// between, it is honest, and has what the tables hold. That needs a disk that returns what was written, and
/// rows that are kept as SQLite keeps what it is given. The connection comes back where it is not opened.
pub fn open_sound<S: Alter + Drop>(
    alloc: Global,
    mut conn: Connection<S>,
) -> Result<SqlStore<S>, (SoundFault, Connection<S>)>
    ensures opened { IfOk result (λ s. is_clean S.Store s → AreAllKept (state S.Store conn).now.trees
        → is_honest S.Store s × (contents_of S.Store s ≡ contents_in (state S.Store conn).now.trees)) }
    // What a check calls sound is never none of ours, outside of a transaction.
    ensures ours { IfErr result (λ e. HasCleanDisk (state S.Store e.1) → AreAllKept (state S.Store conn).now.trees → conn.in_transaction ≡ false
        → e.0 ≢ SoundFault.Unopened OpenFault.NotOurs) }
    // And what it calls unsound is no store.
    ensures unsound { IfErr result (λ e. (found : Finding) → e.0 ≡ SoundFault.Unsound found → HasCleanDisk (state S.Store e.1)
        → ¬ IsCommittedStore (state S.Store conn).now) }
{
    match check(alloc, &mut conn) {
        Ok(Verdict::Sound(_)) => {}
        Ok(Verdict::Unsound(found)) => return Err((SoundFault::Unsound(found), conn)),
        Err(fault) => return Err((SoundFault::Unchecked(fault), conn)),
    }
    match SqlStore::open(alloc, conn) {
        Ok(store) => Ok(store),
        Err((fault, conn)) => Err((SoundFault::Unopened(fault), conn)),
    }
}
