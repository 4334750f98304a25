//! The rows of an index, listed by key.

ghost use Rattle.std.specs.Prelude.{◌≡◌, ◌≢◌, ◌≤◌, ◌<◌, ◌^◌, ◌++◌, map as each, IfOk, IfErr, None, OnOk, Err, Ok, Some, false, is_some, option_map, true};
ghost use Rattle.std.specs.FinMap as map;
ghost use Rattle.store.specs.Calls.{OnlyReads};
ghost use Rattle.store.specs.Database.{Database};
ghost use Rattle.read.specs.Answers.{AnswersValue, Stops};
ghost use Rattle.read.specs.Listing.{listing_of};
ghost use Rattle.read.specs.inner.RowsSoFar.{AreCountable, whole_list, rows_by_key};
ghost use Rattle.read.specs.Views.{key_row_object, view_listing};

use crate::fault::ReadFault;
use crate::listing::write_listing;
use crate::listing_pages::RowsSoFar;
use couch_json::{ArrayText, Got, Json, JsonText, ObjectText};
use std::alloc::Global;
use store::{DbName, KeyRange, KeyRow, RowCounts, Store};
use tree::DocId;

/// Lists the rows of the index that a design document of a database declares under a name, within a
/// range of keys: an object with `offset`, `rows` and `total_rows`, whatever counts the range asks for.
/// It is written row by row.
///
/// `Missing` comes if and only if the design document declares no index of this name, and
/// `Store(NoDatabase)` if and only if there is no database of this name; else nothing but want of memory
/// and faults of the store refuse. Nothing changes. See the CouchDB manual, api/ddoc/views.
pub fn view<S: Store>(
    alloc: Global,
    store: &mut S,
    db: &DbName,
    design: &DocId,
    index: &str,
    range: KeyRange,
) -> Result<JsonText, ReadFault>
    ensures answer { AnswersValue S.Store store.old store.new
        (option_map (λ d. view_listing range design.now index.now d) (map.get (S.contents store.old) db.now)) result }
    ensures only { IfErr result (λ fault. fault ≢ ReadFault.Missing → fault ≢ ReadFault.Memory → ((cause : _) → fault ≢ ReadFault.Store cause) → ⊥) }
    ensures reads { OnlyReads S.Store store.old store.new }
{
    let (mut range, mut so_far, counts) = begin_view(alloc, store, db, design, index, range)?;
    list_rows(alloc, store, db, design, index, &mut range, &mut so_far)?;
    Ok(write_listing(alloc, so_far.into_rows(), counts)?)
}

/// Begins the listing of a range of an index, of which no row has come yet, and counts the rows.
fn begin_view<S: Store>(
    alloc: Global,
    store: &mut S,
    db: &DbName,
    design: &DocId,
    index: &str,
    range: KeyRange,
) -> Result<(KeyRange, RowsSoFar, RowCounts), ReadFault>
    ensures there { S.is_honest store.new → IfOk result (λ _. is_some (map.get (S.contents store.old) db.now) ≡ true) }
    ensures ok { S.is_honest store.new → IfOk result (λ begun. (d : Database) → map.get (S.contents store.old) db.now ≡ Some d
        → AreCountable (rows_by_key begun.0 design.now index.now d)
        × (Ok (listing_of (whole_list key_row_object (rows_by_key begun.0 design.now index.now d) begun.1) begun.2)
        ≡ view_listing range design.now index.now d)) }
    ensures counts { IfOk result (λ begun. (begun.2.offset ≤ begun.2.total) × (begun.2.total < 2 ^ 63)) }
    ensures refuses { IfErr result
        (λ fault. AnswersValue S.Store store.old store.new
        (option_map (λ d. view_listing range design.now index.now d) (map.get (S.contents store.old) db.now)) (Err fault)) }
    ensures only { IfErr result (λ fault. fault ≢ ReadFault.Missing → fault ≢ ReadFault.Memory → ((cause : _) → fault ≢ ReadFault.Store cause) → ⊥) }
    ensures reads { OnlyReads S.Store store.old store.new }
{
    let so_far = RowsSoFar::new(alloc, range.skip, range.limit)?;
    let nothing = KeyRange {
        limit: Some(0),
        counted: true,
        ..range
    };
    let Some(page) = store.page_by_key(db, design, index, &nothing)? else {
        return Err(ReadFault::Missing);
    };
    let Some(counts) = page.counts else {
        unreachable!()
    };
    let range = KeyRange {
        counted: false,
        ..nothing
    };
    Ok((range, so_far, counts))
}

/// Lists the rows of a range of an index that are still to come.
fn list_rows<S: Store>(
    alloc: Global,
    store: &mut S,
    db: &DbName,
    design: &DocId,
    index: &str,
    range: &mut KeyRange,
    so_far: &mut RowsSoFar,
) -> Result<(), ReadFault>
    ensures ok { S.is_honest store.new
        → OnOk result ((d : Database) → map.get (S.contents store.old) db.now ≡ Some d → AreCountable (rows_by_key range.old design.now index.now d)
        → so_far.new.rows ≡ whole_list key_row_object (rows_by_key range.old design.now index.now d) so_far.old) }
    ensures stops { IfErr result (Stops S.Store store.old store.new (map.get (S.contents store.old) db.now ≡ None)) }
    ensures reads { OnlyReads S.Store store.old store.new }
{
    let mut more = true;
    while more {
        more = list_page(alloc, store, db, design, index, range, so_far)?;
    }
    Ok(())
}

/// Lists the rows of the next page of a range of an index, and tells whether more may come.
fn list_page<S: Store>(
    alloc: Global,
    store: &mut S,
    db: &DbName,
    design: &DocId,
    index: &str,
    range: &mut KeyRange,
    so_far: &mut RowsSoFar,
) -> Result<bool, ReadFault>
    ensures ok { S.is_honest store.new
        → IfOk result (λ _. (d : Database) → map.get (S.contents store.old) db.now ≡ Some d → AreCountable (rows_by_key range.old design.now index.now d)
        → whole_list key_row_object (rows_by_key range.old design.now index.now d) so_far.new ≡ whole_list key_row_object
        (rows_by_key range.old design.now index.now d) so_far.old) }
    ensures end { S.is_honest store.new
        → IfOk result (λ more. more ≡ false → (d : Database) → map.get (S.contents store.old) db.now ≡ Some d
        → AreCountable (rows_by_key range.old design.now index.now d)
        → so_far.new.rows ≡ whole_list key_row_object (rows_by_key range.old design.now index.now d) so_far.new) }
    ensures same { (d : Database) → rows_by_key range.new design.now index.now d ≡ rows_by_key range.old design.now index.now d }
    ensures onward { IfOk result (λ more. more ≡ true → so_far.new.left < so_far.old.left) }
    ensures stops { IfErr result (Stops S.Store store.old store.new (map.get (S.contents store.old) db.now ≡ None)) }
    ensures reads { OnlyReads S.Store store.old store.new }
{
    if so_far.left == 0 {
        return Ok(false);
    }
    let most = so_far.page_size();
    range.skip = so_far.skip;
    range.limit = Some(most);
    let Some(page) = store.page_by_key(db, design, index, range)? else {
        return Ok(false);
    };
    let count = page.rows.len() as u64;
    if count == 0 {
        return Ok(false);
    }
    push_rows(alloc, &page.rows, &mut so_far.rows)?;
    so_far.count_page(count);
    Ok(count >= most)
}

/// Writes the objects of rows, in order.
fn push_rows(alloc: Global, rows: &[KeyRow], values: &mut ArrayText) -> Got<()>
    ensures { OnOk result (values.new ≡ values.old ++ each key_row_object rows.now) }
{
    for row in rows {
        values.push_text(write_row(alloc, row)?)?;
    }
    Ok(())
}

/// Writes the object of a row.
fn write_row(alloc: Global, row: &KeyRow) -> Got<JsonText>
    ensures { IfOk result (λ text. text ≡ key_row_object row.now) }
{
    let id = Json::Text(String::from_str(alloc, row.id().as_str())?);
    let id = JsonText::of(alloc, &id)?;
    let key = JsonText::of(alloc, row.key().json())?;
    let value = JsonText::of(alloc, &Json::Null)?;
    ObjectText::new(alloc)?
        .with(alloc, "id", id)?
        .with(alloc, "key", key)?
        .with(alloc, "value", value)?
        .end()
}
