//! One statement at a time: a query of a connection, and a query or a change in a transaction.

ghost use Rattle.std.specs.Prelude.{◌≡◌, IfErr, IfOk, IsTrue, OnOk};
ghost use Rattle.sqlite.specs.Given.{IsPlain};
ghost use Rattle.sqlite.specs.Held.{state};
ghost use Rattle.sqlite.specs.Listing.{understood};
ghost use Rattle.sqlite.specs.State.{FailsToQuery, HasCleanDisk, IsUnchanged, Shown};
ghost use Rattle.sqlite.specs.Values.{bound};
ghost use Rattle.tables.specs.Steps.{Asks, AsksInside, OnlyLooks, Proceeds, Ran, StaysInside};

use sqlite::{Alter, Connection, Error, Row, Transaction};
use sqlite_value::value::ValueRef;

/// Runs one statement of a transaction.
pub fn change<S: Alter>(
    tx: &mut Transaction<'_, S>,
    sql: &str,
    params: &[ValueRef<'_>],
) -> Result<(), Error>
    ensures same_reference { tx.new.conn.ghost_name ≡ tx.old.conn.ghost_name }
    ensures ok { HasCleanDisk (state S.Store tx.new.conn.now)
        → OnOk result (Ran sql.now (bound params.now) (state S.Store tx.old.conn.now) (state S.Store tx.new.conn.now)) }
    ensures inside { HasCleanDisk (state S.Store tx.new.conn.now)
        → OnOk result (StaysInside (state S.Store tx.old.conn.now) (state S.Store tx.new.conn.now)) }
    ensures proceeds { Proceeds (state S.Store tx.old.conn.now) (state S.Store tx.new.conn.now) }
{
    tx.execute(sql, params)?;
    Ok(())
}

/// Returns all rows that a query shows.
pub fn query<S: Alter>(
    conn: &mut Connection<S>,
    sql: &str,
    params: &[ValueRef<'_>],
) -> Result<Vec<Row>, Error>
    ensures ok { HasCleanDisk (state S.Store conn.new)
        → IfOk result (λ rows. Shown sql.now (bound params.now) (state S.Store conn.old) (state S.Store conn.new) rows.items) }
    ensures err { HasCleanDisk (state S.Store conn.new)
        → IfErr result (FailsToQuery sql.now (bound params.now) (state S.Store conn.old) (state S.Store conn.new)) }
    ensures stands { IsPlain (understood conn.old.schema sql.now) → HasCleanDisk (state S.Store conn.new)
        → OnOk result (IsUnchanged (state S.Store conn.old) (state S.Store conn.new)) }
    ensures looks { IsPlain (understood conn.old.schema sql.now) → OnlyLooks (state S.Store conn.old) (state S.Store conn.new) }
    ensures asks { Asks (state S.Store conn.old) (state S.Store conn.new) }
    ensures served { HasCleanDisk (state S.Store conn.new) → OnOk result (IsTrue (state S.Store conn.old).is_open) }
{
    conn.query_all(sql, params)
}

/// Returns all rows that a query shows in a transaction.
pub fn query_in<S: Alter>(
    tx: &mut Transaction<'_, S>,
    sql: &str,
    params: &[ValueRef<'_>],
) -> Result<Vec<Row>, Error>
    ensures same_reference { tx.new.conn.ghost_name ≡ tx.old.conn.ghost_name }
    ensures ok { HasCleanDisk (state S.Store tx.new.conn.now)
        → IfOk result (λ rows. Shown sql.now (bound params.now) (state S.Store tx.old.conn.now) (state S.Store tx.new.conn.now) rows.items) }
    ensures stands { IsPlain (understood tx.old.conn.now.schema sql.now) → HasCleanDisk (state S.Store tx.new.conn.now)
        → OnOk result (IsUnchanged (state S.Store tx.old.conn.now) (state S.Store tx.new.conn.now)) }
    ensures proceeds { IsPlain (understood tx.old.conn.now.schema sql.now) → Proceeds (state S.Store tx.old.conn.now) (state S.Store tx.new.conn.now) }
    ensures asks { AsksInside (state S.Store tx.old.conn.now) (state S.Store tx.new.conn.now) }
    ensures served { HasCleanDisk (state S.Store tx.new.conn.now) → OnOk result (IsTrue (state S.Store tx.old.conn.now).is_open) }
{
    tx.query_all(sql, params)
}
