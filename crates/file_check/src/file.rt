//! A check of all tables of a file.

ghost use Rattle.std.specs.Prelude.{◌≡◌, ◌≢◌, IfOk, IsOkAnd, OnOk};
ghost use Rattle.sqlite.specs.Held.{state};
ghost use Rattle.sqlite.specs.State.{HasCleanDisk};
ghost use Rattle.tables.specs.Schema.{schema};
ghost use Rattle.tables.specs.Steps.{Asks};
ghost use Rattle.file_check.specs.Checks.{FailsOnly, IsSame};
ghost use Rattle.file_check.specs.Counting.{CountsIfSound};
ghost use Rattle.file_check.specs.Schemas.{IsOtherLayout};
ghost use Rattle.file_check.specs.Tables.{IsRestingStore};
ghost use Rattle.file_check.specs.Verdicts.{AreAllKept, NamesUnsound, Refutes, Vouches};

use crate::counting::count_rows;
use crate::finding::{CheckFault, Verdict};
use crate::indexes::check_indexes;
use crate::layout::check_tables;
use sqlite::{Alter, Connection};
use std::alloc::Global;

/// Checks whether the tables of a connection hold a store of this server, whose rows of indexes are those that
/// a rebuild would make. Answers with how many rows it has, or with the first row that no store has.
pub fn check<S: Alter>(alloc: Global, conn: &mut Connection<S>) -> Result<Verdict, CheckFault>
    // What is called sound is a store, and its rows of indexes are exact, if rows are kept as SQLite keeps what it is given.
    ensures sound { HasCleanDisk (state S.Store conn.new) → AreAllKept (state S.Store conn.old).now.trees
        → IfOk result (Vouches (state S.Store conn.old).now) }
    // Its counts are those of its rows.
    ensures counts { HasCleanDisk (state S.Store conn.new) → AreAllKept (state S.Store conn.old).now.trees
        → IfOk result (CountsIfSound (state S.Store conn.old).now.trees) }
    // What is called unsound is none, whatever its columns are.
    ensures unsound { HasCleanDisk (state S.Store conn.new) → IfOk result (Refutes (state S.Store conn.old).now) }
    // The finding names the row, where the schema is this server's, and rows are kept so. Another schema is always told, and nothing is read.
    ensures names { HasCleanDisk (state S.Store conn.new) → conn.old.schema ≡ schema → AreAllKept (state S.Store conn.old).now.trees
        → IfOk result (NamesUnsound (state S.Store conn.old).now.trees) }
    ensures other { conn.old.schema ≢ schema → IsOkAnd result IsOtherLayout × (conn.new ≡ conn.old) }
    // A verdict leaves the connection as it was.
    ensures stays { HasCleanDisk (state S.Store conn.new) → AreAllKept (state S.Store conn.old).now.trees
        → OnOk result (IsSame (state S.Store conn.old) (state S.Store conn.new)) }
    ensures asks { Asks (state S.Store conn.old) (state S.Store conn.new) }
    // At this server's schema tables that are those of no store are told as such: nothing else comes of them, unless memory ran out,
    // or the library refused a query.
    ensures failed { AreAllKept (state S.Store conn.old).now.trees → ¬ IsRestingStore (state S.Store conn.old).now
        → FailsOnly S.Store conn.old conn.new result }
{
    if let Some(finding) = check_tables(alloc, conn)? {
        return Ok(Verdict::Unsound(finding));
    }
    if let Some(finding) = check_indexes(alloc, conn)? {
        return Ok(Verdict::Unsound(finding));
    }
    let counts = count_rows(conn)?;
    Ok(Verdict::Sound(counts))
}
