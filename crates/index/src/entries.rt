//! The rows of the entries.

ghost use Rattle.std.specs.Prelude.{◌≡◌, ◌∷◌, [], false, filter, not, true};
ghost use Rattle.index.specs.Layout.{AreEntryRows, HasIndexRows};
ghost use Rattle.index.specs.Rows.{count_of, entry_cells, is_entry_in, is_entry_of, range_of};
ghost use Rattle.tables.specs.Listings.{shown_count};
ghost use Rattle.tables.specs.Calls.{Alters, Reads};
ghost use Rattle.tables.specs.Rows.{with_cells};
ghost use Rattle.tables.specs.Schema.{entries_tree};

use sqlite::{Alter, Connection, Error, Row, Transaction, params};
use tables::statement::{change, query};

/// Puts in an entry of an index, behind those that are there.
pub fn insert_entry<S: Alter>(
    tx: &mut Transaction<'_, S>,
    declaration: &i64,
    key: &[u8],
    id: &[u8],
) -> Result<(), Error>
    ensures same_reference { tx.new.conn.ghost_name ≡ tx.old.conn.ghost_name }
    ensures alters { Alters S.Store entries_tree AreEntryRows
        (λ rows. with_cells rows (entry_cells declaration.now key.now id.now)) tx.old.conn.now tx.new.conn.now result }
{
    change(
        tx,
        "INSERT INTO entries (decl, k, id) VALUES (?1, ?2, ?3)",
        params![declaration, key, id],
    )
}

/// Takes out the entry of an index that has this key and this id.
pub fn delete_entry<S: Alter>(
    tx: &mut Transaction<'_, S>,
    declaration: &i64,
    key: &[u8],
    id: &[u8],
) -> Result<(), Error>
    ensures same_reference { tx.new.conn.ghost_name ≡ tx.old.conn.ghost_name }
    ensures alters { Alters S.Store entries_tree AreEntryRows
        (λ rows. filter (λ r. not (is_entry_of declaration.now key.now id.now r)) rows) tx.old.conn.now tx.new.conn.now result }
{
    change(
        tx,
        "DELETE FROM entries WHERE decl = ?1 AND k = ?2 AND id = ?3",
        params![declaration, key, id],
    )
}

/// Takes out all entries of an index.
pub fn clear_entries<S: Alter>(tx: &mut Transaction<'_, S>, declaration: &i64) -> Result<(), Error>
    ensures same_reference { tx.new.conn.ghost_name ≡ tx.old.conn.ghost_name }
    ensures alters { Alters S.Store entries_tree AreEntryRows
        (λ rows. filter (λ r. not (is_entry_in declaration.now r)) rows) tx.old.conn.now tx.new.conn.now result }
{
    change(
        tx,
        "DELETE FROM entries WHERE decl = ?1",
        params![declaration],
    )
}

/// Returns the entries of an index whose keys are not below the low bound and below the high one, by
/// their keys and then by their ids: the key and the id. It leaves out the first of them, as many as
/// `skip`, and goes on up to `most`, or to the end where that is negative.
pub fn rows_up<S: Alter>(
    conn: &mut Connection<S>,
    declaration: &i64,
    low: &[u8],
    high: &[u8],
    most: &i64,
    skip: &i64,
) -> Result<Vec<Row>, Error>
    ensures { Reads S.Store HasIndexRows conn.old conn.new
        (λ trees rows. rows.items ≡ range_of false declaration.now low.now high.now most.now skip.now (trees entries_tree)) result }
{
    query(
        conn,
        "SELECT k, id FROM entries WHERE decl = ?1 AND k >= ?2 AND k < ?3 ORDER BY k, id LIMIT ?4 OFFSET ?5",
        params![declaration, low, high, most, skip],
    )
}

/// Returns the same entries as `rows_up`, from the last to the first.
pub fn rows_down<S: Alter>(
    conn: &mut Connection<S>,
    declaration: &i64,
    low: &[u8],
    high: &[u8],
    most: &i64,
    skip: &i64,
) -> Result<Vec<Row>, Error>
    ensures { Reads S.Store HasIndexRows conn.old conn.new
        (λ trees rows. rows.items ≡ range_of true declaration.now low.now high.now most.now skip.now (trees entries_tree)) result }
{
    query(
        conn,
        "SELECT k, id FROM entries WHERE decl = ?1 AND k >= ?2 AND k < ?3 ORDER BY k DESC, id DESC LIMIT ?4 OFFSET ?5",
        params![declaration, low, high, most, skip],
    )
}

/// Returns one row, which tells how many entries of an index have keys that are not below the low bound
/// and below the high one.
pub fn count_rows<S: Alter>(
    conn: &mut Connection<S>,
    declaration: &i64,
    low: &[u8],
    high: &[u8],
) -> Result<Vec<Row>, Error>
    ensures { Reads S.Store HasIndexRows conn.old conn.new
        (λ trees rows. rows.items ≡ shown_count (count_of declaration.now low.now high.now (trees entries_tree)) ∷ []) result }
{
    query(
        conn,
        "SELECT COUNT(*) FROM entries WHERE decl = ?1 AND k >= ?2 AND k < ?3",
        params![declaration, low, high],
    )
}
