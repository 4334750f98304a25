//! The rows of the documents.

ghost use Rattle.std.specs.Prelude.{◌≡◌, ◌∷◌, [], IfOk, false, not, filter, map, true};
ghost use Rattle.sqlite.specs.Held.{state};
ghost use Rattle.sqlite.specs.State.{HasCleanDisk};
ghost use Rattle.sqlite_keyed.specs.Lists.{sort_by};
ghost use Rattle.tables.specs.Calls.{Alters, Reads, ShowsDocument};
ghost use Rattle.tables.specs.Layout.{AreDocumentRows, AreKeyed, IsStore};
ghost use Rattle.tables.specs.Listings.{comes_after, first_rows, live_range, marked_count, shown_count};
ghost use Rattle.tables.specs.Rows.{by_sequence, is_row_of_database, is_row_of_document, listed_document, document_cells, rows_with_winner, with_cells};
ghost use Rattle.tables.specs.Schema.{docs_tree};

use crate::statement::{change, query};
use sqlite::{Alter, Connection, Error, Row, Transaction, params};

/// Puts in the row of a document, behind those that are there.
pub fn insert_document<S: Alter>(
    tx: &mut Transaction<'_, S>,
    db: &i64,
    id: &[u8],
    sequence: &i64,
    winner: &str,
    deleted: bool,
) -> Result<(), Error>
    ensures same_reference { tx.new.conn.ghost_name ≡ tx.old.conn.ghost_name }
    ensures alters { Alters S.Store docs_tree AreKeyed
        (λ rows. with_cells rows (document_cells db.now id.now sequence.now winner.now deleted)) tx.old.conn.now tx.new.conn.now result }
{
    change(
        tx,
        "INSERT INTO docs (db, id, seq, winner, del) VALUES (?1, ?2, ?3, ?4, ?5)",
        params![db, id, sequence, winner, deleted],
    )
}

/// Gives the document of this id another sequence, another winner and its mark.
pub fn advance_document<S: Alter>(
    tx: &mut Transaction<'_, S>,
    db: &i64,
    id: &[u8],
    sequence: &i64,
    winner: &str,
    deleted: bool,
) -> Result<(), Error>
    ensures same_reference { tx.new.conn.ghost_name ≡ tx.old.conn.ghost_name }
    ensures alters { Alters S.Store docs_tree AreDocumentRows
        (rows_with_winner db.now id.now sequence.now winner.now deleted) tx.old.conn.now tx.new.conn.now result }
{
    change(
        tx,
        "UPDATE docs SET seq = ?3, winner = ?4, del = ?5 WHERE db = ?1 AND id = ?2",
        params![db, id, sequence, winner, deleted],
    )
}

/// Takes out the rows of all documents of a database.
pub fn clear_documents<S: Alter>(tx: &mut Transaction<'_, S>, db: &i64) -> Result<(), Error>
    ensures same_reference { tx.new.conn.ghost_name ≡ tx.old.conn.ghost_name }
    ensures alters { Alters S.Store docs_tree AreKeyed (λ rows. filter (λ r. not (is_row_of_database db.now r)) rows) tx.old.conn.now tx.new.conn.now result }
{
    change(tx, "DELETE FROM docs WHERE db = ?1", params![db])
}

/// Returns the rows of all documents of a database, by their sequences: the id, the sequence, the
/// winner and whether that is deleted.
pub fn rows_by_sequence<S: Alter>(conn: &mut Connection<S>, db: &i64) -> Result<Vec<Row>, Error>
    ensures { Reads S.Store IsStore conn.old conn.new
        (λ trees rows. rows.items ≡ map listed_document (sort_by by_sequence (filter (is_row_of_database db.now) (trees docs_tree)))) result }
{
    query(
        conn,
        "SELECT id, seq, winner, del FROM docs WHERE db = ?1 ORDER BY seq",
        params![db],
    )
}

/// Returns that row of `rows_by_sequence` which is the one of this id, if there is one.
pub fn document_rows<S: Alter>(
    conn: &mut Connection<S>,
    db: &i64,
    id: &[u8],
) -> Result<Vec<Row>, Error>
    ensures reads { Reads S.Store IsStore conn.old conn.new
        (λ trees rows. rows.items ≡ map listed_document (filter (is_row_of_document db.now id.now) (trees docs_tree))) result }
    ensures shown { HasCleanDisk (state S.Store conn.new) → IfOk result (λ rows. ShowsDocument S.Store db.now id.now conn.old conn.new rows.items) }
{
    query(
        conn,
        "SELECT id, seq, winner, del FROM docs WHERE db = ?1 AND id = ?2",
        params![db, id],
    )
}

/// Returns those rows of `rows_by_sequence` whose winner is not deleted, and whose ids are not below the
/// low bound and below the high one, by the bytes of their ids. It leaves out the first of them, as many
/// as `skip`, and goes on up to `most`, or to the end where that is negative.
pub fn live_rows_up<S: Alter>(
    conn: &mut Connection<S>,
    db: &i64,
    low: &[u8],
    high: &[u8],
    most: &i64,
    skip: &i64,
) -> Result<Vec<Row>, Error>
    ensures { Reads S.Store IsStore conn.old conn.new
        (λ trees rows. rows.items ≡ live_range false db.now low.now high.now most.now skip.now (trees docs_tree)) result }
{
    query(
        conn,
        "SELECT id, seq, winner, del FROM docs WHERE db = ?1 AND del = ?2 AND id >= ?3 AND id < ?4 ORDER BY id LIMIT ?5 OFFSET ?6",
        params![db, false, low, high, most, skip],
    )
}

/// Returns the same rows as `live_rows_up`, from the last to the first.
pub fn live_rows_down<S: Alter>(
    conn: &mut Connection<S>,
    db: &i64,
    low: &[u8],
    high: &[u8],
    most: &i64,
    skip: &i64,
) -> Result<Vec<Row>, Error>
    ensures { Reads S.Store IsStore conn.old conn.new
        (λ trees rows. rows.items ≡ live_range true db.now low.now high.now most.now skip.now (trees docs_tree)) result }
{
    query(
        conn,
        "SELECT id, seq, winner, del FROM docs WHERE db = ?1 AND del = ?2 AND id >= ?3 AND id < ?4 ORDER BY id DESC LIMIT ?5 OFFSET ?6",
        params![db, false, low, high, most, skip],
    )
}

/// Returns one row, which tells how many documents of a database have a winner that is deleted, or is
/// not, and an id that is not below the low bound and below the high one.
pub fn count_documents<S: Alter>(
    conn: &mut Connection<S>,
    db: &i64,
    deleted: bool,
    low: &[u8],
    high: &[u8],
) -> Result<Vec<Row>, Error>
    ensures { Reads S.Store IsStore conn.old conn.new
        (λ trees rows. rows.items ≡ shown_count (marked_count db.now deleted low.now high.now (trees docs_tree)) ∷ []) result }
{
    query(
        conn,
        "SELECT COUNT(*) FROM docs WHERE db = ?1 AND del = ?2 AND id >= ?3 AND id < ?4",
        params![db, deleted, low, high],
    )
}

/// Returns those rows of `rows_by_sequence` whose sequences are above one: the first of them, up to a
/// limit, and all where the limit is negative.
pub fn rows_after<S: Alter>(
    conn: &mut Connection<S>,
    db: &i64,
    sequence: &i64,
    limit: &i64,
) -> Result<Vec<Row>, Error>
    ensures { Reads S.Store IsStore conn.old conn.new
        (λ trees rows. rows.items ≡ first_rows limit.now
        (filter (comes_after sequence.now) (map listed_document (sort_by by_sequence (filter (is_row_of_database db.now) (trees docs_tree)))))) result }
{
    query(
        conn,
        "SELECT id, seq, winner, del FROM docs WHERE db = ?1 AND seq > ?2 ORDER BY seq LIMIT ?3",
        params![db, sequence, limit],
    )
}
