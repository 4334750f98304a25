//! The entries of indexes that have none, one of each document in each of them.

ghost use Rattle.std.specs.Prelude.{◌≡◌, ◌||◌, IfErr, List, map, ⊤, ℕ, Bool};
ghost use Rattle.sqlite_value.specs.Order as order;
ghost use Rattle.index.specs.Calls.{IsRefused};
ghost use Rattle.index.specs.Filling.{AreBare, Fills};
ghost use Rattle.index.specs.inner.Gathering.{AreToGather, GathersRange, GathersRow, GathersRows, IsToGather, IsToGatherRange, entry_of};
ghost use Rattle.index.specs.Indexed.{Entries};
ghost use Rattle.index.specs.Shown.{declared};
ghost use Rattle.index.specs.Steps.{AreFit};
ghost use Rattle.tree.specs.DocumentId.{is_design_id};

use crate::declaration::Declaration;
use crate::fault::IndexFault;
use crate::gathered::Gathered;
use crate::gathering::gather_keys;
use crate::putting::{put_full, put_gathered};
use crate::seen::{find_bound, find_live, read_listed, rows_between};
use sqlite::{Alter, Row, Transaction};
use std::alloc::Global;
use tables::ListedDocument;

/// Above the ids of all documents: no text has this byte.
const ABOVE_TEXTS: &[u8] = b"\xff";

/// Fills indexes that have no entries, all in one pass over the documents of the database; where there are
/// none, nothing is read.
pub fn fill_indexes<S: Alter>(
    alloc: Global,
    tx: &mut Transaction<'_, S>,
    db: &i64,
    declarations: &[Declaration],
) -> Result<(), IndexFault>
    ensures same_reference { tx.new.conn.ghost_name ≡ tx.old.conn.ghost_name }
    ensures fills { Fills S.Store db.now (map declared declarations.now) tx.old.conn.now tx.new.conn.now result }
    ensures err { (due : Entries)
        → IfErr result (IsRefused (AreFit S.Store (AreBare db.now (map declared declarations.now) due) tx.old.conn.now tx.new.conn.now)) }
{
    if declarations.is_empty() {
        return Ok(());
    }
    fill_all(alloc, tx, db, declarations)
}

/// Fills indexes that have no entries: each document of the database that queries see gets its entry in
/// each of them in which it has a key. Design documents are not read: their ids begin with `_d`, and no
/// others do.
fn fill_all<S: Alter>(
    alloc: Global,
    tx: &mut Transaction<'_, S>,
    db: &i64,
    declarations: &[Declaration],
) -> Result<(), IndexFault>
    ensures same_reference { tx.new.conn.ghost_name ≡ tx.old.conn.ghost_name }
    ensures fills { Fills S.Store db.now (map declared declarations.now) tx.old.conn.now tx.new.conn.now result }
    ensures err { (due : Entries)
        → IfErr result (IsRefused (AreFit S.Store (AreBare db.now (map declared declarations.now) due) tx.old.conn.now tx.new.conn.now)) }
{
    let mut gathered = Gathered::new(alloc);
    gather_range(alloc, tx, db, declarations, b"", b"_d", &mut gathered)?;
    gather_range(
        alloc,
        tx,
        db,
        declarations,
        b"_e",
        ABOVE_TEXTS,
        &mut gathered,
    )?;
    put_gathered(tx, &mut gathered)?;
    Ok(())
}

/// Gathers the entries of the documents whose ids lie between two bounds. They are read in parts, and put
/// in where there are enough.
fn gather_range<S: Alter>(
    alloc: Global,
    tx: &mut Transaction<'_, S>,
    db: &i64,
    declarations: &[Declaration],
    low: &[u8],
    high: &[u8],
    gathered: &mut Gathered,
) -> Result<(), IndexFault>
    ensures same_reference { tx.new.conn.ghost_name ≡ tx.old.conn.ghost_name }
    ensures gathers { GathersRange S.Store db.now (map declared declarations.now) low.now high.now (map entry_of gathered.old.entries.items)
        (map entry_of gathered.new.entries.items) tx.old.conn.now tx.new.conn.now result }
    ensures err { (left : List ℕ → Bool) (due : Entries)
        → IfErr result (IsRefused
        (AreFit S.Store (IsToGatherRange db.now (map declared declarations.now) low.now high.now left
        (map entry_of gathered.old.entries.items) due) tx.old.conn.now tx.new.conn.now)) }
{
    let mut from = Vec::from_slice(alloc, low)?;
    for _part in 0..u64::MAX {
        let bound = find_bound(alloc, tx, db, &from, high)?;
        gather_part(alloc, tx, db, declarations, &from, &bound, gathered)?;
        if bound.as_slice() == high {
            return Ok(());
        }
        from = bound;
    }
    Err(IndexFault::Memory)
}

/// Gathers the entries of the documents whose ids lie between two bounds, which are read at once.
fn gather_part<S: Alter>(
    alloc: Global,
    tx: &mut Transaction<'_, S>,
    db: &i64,
    declarations: &[Declaration],
    low: &[u8],
    high: &[u8],
    gathered: &mut Gathered,
) -> Result<(), IndexFault>
    ensures same_reference { tx.new.conn.ghost_name ≡ tx.old.conn.ghost_name }
    ensures gathers { GathersRange S.Store db.now (map declared declarations.now) low.now high.now (map entry_of gathered.old.entries.items)
        (map entry_of gathered.new.entries.items) tx.old.conn.now tx.new.conn.now result }
    ensures err { (left : List ℕ → Bool) (due : Entries)
        → IfErr result (IsRefused
        (AreFit S.Store (IsToGatherRange db.now (map declared declarations.now) low.now high.now left
        (map entry_of gathered.old.entries.items) due) tx.old.conn.now tx.new.conn.now)) }
{
    let rows = rows_between(tx, db, low, high)?;
    gather_rows(alloc, tx, db, declarations, &rows, gathered)
}

/// Gathers the entries of the documents of these rows, and puts them in where there are enough. Each
/// document is read once.
fn gather_rows<S: Alter>(
    alloc: Global,
    tx: &mut Transaction<'_, S>,
    db: &i64,
    declarations: &[Declaration],
    rows: &[Row],
    gathered: &mut Gathered,
) -> Result<(), IndexFault>
    ensures same_reference { tx.new.conn.ghost_name ≡ tx.old.conn.ghost_name }
    ensures gathers { GathersRows S.Store db.now (map declared declarations.now) rows.now (map entry_of gathered.old.entries.items)
        (map entry_of gathered.new.entries.items) tx.old.conn.now tx.new.conn.now result }
    ensures err { (docs : List order.Row) (due : Entries)
        → IfErr result (IsRefused
        (AreFit S.Store (AreToGather db.now (map declared declarations.now) rows.now docs (map entry_of gathered.old.entries.items) due)
        tx.old.conn.now tx.new.conn.now)) }
{
    for row in rows {
        gather_row(alloc, tx, db, declarations, row, gathered)?;
        put_full(tx, gathered)?;
    }
    Ok(())
}

/// Gathers the entries of the document of a row.
fn gather_row<S: Alter>(
    alloc: Global,
    tx: &mut Transaction<'_, S>,
    db: &i64,
    declarations: &[Declaration],
    row: &Row,
    gathered: &mut Gathered,
) -> Result<(), IndexFault>
    ensures same_reference { tx.new.conn.ghost_name ≡ tx.old.conn.ghost_name }
    ensures gathers { GathersRow S.Store db.now (map declared declarations.now) row.now (map entry_of gathered.old.entries.items)
        (map entry_of gathered.new.entries.items) tx.old.conn.now tx.new.conn.now result }
    ensures err { (d : order.Row) (due : Entries)
        → IfErr result (IsRefused
        (AreFit S.Store (IsToGather db.now (map declared declarations.now) row.now d (map entry_of gathered.old.entries.items) due)
        tx.old.conn.now tx.new.conn.now)) }
{
    let listed = read_listed(alloc, row)?;
    if is_unseen(&listed) {
        return Ok(());
    }
    let seen = find_live(alloc, tx, db, &listed)?;
    let id = listed.id.as_str().as_bytes();
    gather_keys(alloc, declarations, id, &seen, gathered)?;
    Ok(())
}

/// Tells whether queries don't see the document: it is deleted, or a design document.
fn is_unseen(listed: &ListedDocument) -> bool
    ensures { result ≡ (listed.now.deleted || is_design_id listed.now.id) }
{
    listed.deleted || listed.id.is_design()
}
