//! Whether the tables are laid out as this server lays them out.

pub(crate) mod cells;
pub(crate) mod checked;
mod checking;
mod databases;
mod documents;
mod finding_rows;
mod ids;
mod locals;
mod revisions;
mod statements;
mod texts;

ghost use Rattle.std.specs.Prelude.{◌≡◌, ◌≢◌, IfOk, IfSome, IsOkAnd, IsSomeAnd, IsTrue, MatchOption, None, OnOk};
ghost use Rattle.sqlite.specs.Held.{state};
ghost use Rattle.sqlite.specs.State.{HasCleanDisk, IsLive};
ghost use Rattle.tables.specs.Schema.{schema};
ghost use Rattle.file_check.specs.Checks.{IsSame};
ghost use Rattle.file_check.specs.Inspecting.{Goes};
ghost use Rattle.file_check.specs.Tables.{AreKept, AreTablesChecked, HasSoundLocals, IsRestingStore, IsShaped, IsTableFinding};

use crate::comparing::find_difference;
use crate::finding::{CheckFault, Finding, Wrong};
use crate::layout::checking::check_locals;
use sqlite::{Alter, Connection};
use std::alloc::Global;

/// Checks all rows of the tables of databases, documents, revisions and local documents, and the version.
#[tactic(auto, using(crate::proofs::Going::goes_of, crate::proofs::Stores::reads_stay, crate::proofs::Accounts::accounts_none, crate::proofs::Accounts::same_itself))]
pub fn check_tables<S: Alter>(
    alloc: Global,
    conn: &mut Connection<S>,
) -> Result<Option<Finding>, CheckFault>
    // Where nothing is found, the tables are those of a store between two calls, and a finding names a row that no
    // such store has: if they have the columns of this schema, and their rows are kept as SQLite keeps what it is given.
    ensures sound { HasCleanDisk (state S.Store conn.new) → conn.old.schema ≡ schema → AreKept (state S.Store conn.old).now.trees
        → IfOk result (λ found. MatchOption found (IsRestingStore (state S.Store conn.old).now) (IsTableFinding (state S.Store conn.old).now.trees)) }
    // Where something is found they are not, whatever their columns are.
    ensures unsound { HasCleanDisk (state S.Store conn.new) → IfOk result (λ found. IfSome found (λ _. ¬ IsRestingStore (state S.Store conn.old).now)) }
    // Nothing is found only where the schema is this server's, and in an open connection. Another schema is always told, and nothing is read.
    ensures ours { IfOk result (λ found. found ≡ None → conn.old.schema ≡ schema) }
    ensures served { HasCleanDisk (state S.Store conn.new) → IfOk result (λ found. found ≡ None → IsTrue (state S.Store conn.old).is_open) }
    ensures other { conn.old.schema ≢ schema
        → IsOkAnd result (λ found. IsSomeAnd found (λ f. f.wrong ≡ Wrong.Layout)) × (conn.new ≡ conn.old) }
    // What ends well leaves the connection as it was.
    ensures stays { HasCleanDisk (state S.Store conn.new) → OnOk result (IsSame (state S.Store conn.old) (state S.Store conn.new)) }
    ensures live { IsLive (state S.Store conn.old) }
    ensures goes { Goes S.Store IsShaped conn.old conn.new (AreTablesChecked HasSoundLocals) result }
{
    if let Some(table) = find_difference(conn.schema()) {
        return Ok(Some(Finding {
            table,
            key: 0,
            wrong: Wrong::Layout,
        }));
    }
    check_locals(alloc, conn)
}
