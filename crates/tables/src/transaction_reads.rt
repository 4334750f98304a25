//! Rows that a transaction reads before it changes them.

ghost use Rattle.std.specs.Prelude.{◌≡◌, IfOk, filter, map, IsPermutation};
ghost use Rattle.sqlite.specs.Held.{state};
ghost use Rattle.sqlite.specs.State.{HasCleanDisk};
ghost use Rattle.tables.specs.Calls.{ReadsInside, ShowsDocument};
ghost use Rattle.tables.specs.Layout.{IsStore};
ghost use Rattle.tables.specs.Listings.{has_id_between, named_document};
ghost use Rattle.tables.specs.Rows.{is_row_of_document, is_revision_of, listed_document, shown_outline, shown_revision};
ghost use Rattle.tables.specs.Schema.{docs_tree, revs_tree};

use crate::statement::query_in;
use sqlite::{Alter, Error, Row, Transaction, params};

/// Returns the rows of all known revisions of a document, in some order.
pub fn revision_rows_in<S: Alter>(
    tx: &mut Transaction<'_, S>,
    db: &i64,
    id: &[u8],
) -> Result<Vec<Row>, Error>
    ensures same_reference { tx.new.conn.ghost_name ≡ tx.old.conn.ghost_name }
    ensures reads { ReadsInside S.Store IsStore tx.old.conn.now tx.new.conn.now
        (λ trees rows. IsPermutation (map shown_revision (filter (is_row_of_document db.now id.now) (trees revs_tree))) rows.items) result }
{
    query_in(
        tx,
        "SELECT n, hash, parent, held, del, body FROM revs WHERE db = ?1 AND id = ?2",
        params![db, id],
    )
}

/// Returns the row of the document of this id, if there is one: the id, the sequence, the winner and
/// whether that is deleted.
pub fn document_rows_in<S: Alter>(
    tx: &mut Transaction<'_, S>,
    db: &i64,
    id: &[u8],
) -> Result<Vec<Row>, Error>
    ensures same_reference { tx.new.conn.ghost_name ≡ tx.old.conn.ghost_name }
    ensures reads { ReadsInside S.Store IsStore tx.old.conn.now tx.new.conn.now
        (λ trees rows. rows.items ≡ map listed_document (filter (is_row_of_document db.now id.now) (trees docs_tree))) result }
    ensures shown { HasCleanDisk (state S.Store tx.new.conn.now)
        → IfOk result (λ rows. ShowsDocument S.Store db.now id.now tx.old.conn.now tx.new.conn.now rows.items) }
{
    query_in(
        tx,
        "SELECT id, seq, winner, del FROM docs WHERE db = ?1 AND id = ?2",
        params![db, id],
    )
}

/// Returns the row of one revision of a document, if it is known.
pub fn one_revision_rows_in<S: Alter>(
    tx: &mut Transaction<'_, S>,
    db: &i64,
    id: &[u8],
    number: u32,
    hash: &str,
) -> Result<Vec<Row>, Error>
    ensures same_reference { tx.new.conn.ghost_name ≡ tx.old.conn.ghost_name }
    ensures reads { ReadsInside S.Store IsStore tx.old.conn.now tx.new.conn.now
        (λ trees rows. rows.items ≡ map shown_revision
        (filter (is_revision_of db.now id.now (record { number = number; hash = hash.now })) (trees revs_tree))) result }
{
    query_in(
        tx,
        "SELECT n, hash, parent, held, del, body FROM revs WHERE db = ?1 AND id = ?2 AND n = ?3 AND hash = ?4",
        params![db, id, number, hash],
    )
}

/// Returns the same row without its body.
pub fn one_outline_rows_in<S: Alter>(
    tx: &mut Transaction<'_, S>,
    db: &i64,
    id: &[u8],
    number: u32,
    hash: &str,
) -> Result<Vec<Row>, Error>
    ensures same_reference { tx.new.conn.ghost_name ≡ tx.old.conn.ghost_name }
    ensures reads { ReadsInside S.Store IsStore tx.old.conn.now tx.new.conn.now
        (λ trees rows. rows.items ≡ map shown_outline
        (filter (is_revision_of db.now id.now (record { number = number; hash = hash.now })) (trees revs_tree))) result }
{
    query_in(
        tx,
        "SELECT n, hash, parent, held, del FROM revs WHERE db = ?1 AND id = ?2 AND n = ?3 AND hash = ?4",
        params![db, id, number, hash],
    )
}

/// Returns the rows of the documents of all databases whose ids are not below the low bound and below
/// the high one, by their numbers: the number of the database, and the id.
pub fn rows_between_in<S: Alter>(
    tx: &mut Transaction<'_, S>,
    low: &[u8],
    high: &[u8],
) -> Result<Vec<Row>, Error>
    ensures same_reference { tx.new.conn.ghost_name ≡ tx.old.conn.ghost_name }
    ensures reads { ReadsInside S.Store IsStore tx.old.conn.now tx.new.conn.now
        (λ trees rows. rows.items ≡ map named_document (filter (has_id_between low.now high.now) (trees docs_tree))) result }
{
    query_in(
        tx,
        "SELECT db, id FROM docs WHERE id >= ?1 AND id < ?2 ORDER BY rowid",
        params![low, high],
    )
}
