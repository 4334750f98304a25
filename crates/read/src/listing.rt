//! A database's documents, listed by id.

ghost use Rattle.std.specs.Prelude.{◌≡◌, ◌≢◌, ◌≤◌, ◌<◌, ◌^◌, ◌++◌, [], map as each, IfOk, IfErr, None, OnOk, Ok, Some, false, is_some, option_map, pos, true};
ghost use Rattle.std.specs.FinMap as map;
ghost use Rattle.couch_json.specs.Value.{whole};
ghost use Rattle.couch_json.specs.View.{view};
ghost use Rattle.store.specs.Calls.{OnlyReads};
ghost use Rattle.store.specs.Database.{Database};
ghost use Rattle.read.specs.Answers.{AnswersValue, Stops};
ghost use Rattle.read.specs.Listing.{document_listing, listing_of, revision_object, row_object};
ghost use Rattle.read.specs.inner.RowsSoFar.{AreCountable, whole_list, rows_by_id};

use crate::fault::ReadFault;
use crate::listing_pages::RowsSoFar;
use crate::numbers::whole;
use couch_json::{ArrayText, Got, Json, JsonText, NameMap, ObjectText, put_member};
use std::alloc::Global;
use store::{DbName, IdRange, IdRow, RowCounts, Store};
use tree::Rev;

/// Lists the documents of a database whose winner is not deleted, within a range of ids: an object
/// with `offset`, `rows` and `total_rows`, whatever counts the range asks for. It is written row by row.
///
/// `Store(NoDatabase)` comes if and only if there is no database of this name; else nothing but want
/// of memory and faults of the store refuse. Nothing changes, and no body is read. See the CouchDB
/// manual, api/database/bulk-api.
pub fn all_docs<S: Store>(
    alloc: Global,
    store: &mut S,
    db: &DbName,
    range: IdRange,
) -> Result<JsonText, ReadFault>
    ensures answer { AnswersValue S.Store store.old store.new (option_map (λ d. Ok (document_listing range d)) (map.get (S.contents store.old) db.now)) result }
    ensures only { IfErr result (λ fault. fault ≢ ReadFault.Memory → ((cause : _) → fault ≢ ReadFault.Store cause) → ⊥) }
    ensures reads { OnlyReads S.Store store.old store.new }
{
    let (mut range, mut so_far, counts) = begin_listing(alloc, store, db, range)?;
    list_rows(alloc, store, db, &mut range, &mut so_far)?;
    Ok(write_listing(alloc, so_far.into_rows(), counts)?)
}

/// Begins the listing of a range, of which no row has come yet, and counts the rows.
fn begin_listing<S: Store>(
    alloc: Global,
    store: &mut S,
    db: &DbName,
    range: IdRange,
) -> Result<(IdRange, RowsSoFar, RowCounts), ReadFault>
    ensures there { S.is_honest store.new → IfOk result (λ _. is_some (map.get (S.contents store.old) db.now) ≡ true) }
    ensures ok { S.is_honest store.new → IfOk result (λ begun. (d : Database) → map.get (S.contents store.old) db.now ≡ Some d
        → AreCountable (rows_by_id begun.0 d) × (listing_of (whole_list row_object (rows_by_id begun.0 d) begun.1) begun.2 ≡ document_listing range d)) }
    ensures counts { IfOk result (λ begun. (begun.2.offset ≤ begun.2.total) × (begun.2.total < 2 ^ 63)) }
    ensures stops { IfErr result (Stops S.Store store.old store.new (map.get (S.contents store.old) db.now ≡ None)) }
    ensures reads { OnlyReads S.Store store.old store.new }
{
    let so_far = RowsSoFar::new(alloc, range.skip, range.limit)?;
    let nothing = IdRange {
        limit: Some(0),
        counted: true,
        ..range
    };
    let page = store.page_by_id(db, &nothing)?;
    let Some(counts) = page.counts else {
        unreachable!()
    };
    let range = IdRange {
        counted: false,
        ..nothing
    };
    Ok((range, so_far, counts))
}

/// Lists the rows of a range that are still to come.
fn list_rows<S: Store>(
    alloc: Global,
    store: &mut S,
    db: &DbName,
    range: &mut IdRange,
    so_far: &mut RowsSoFar,
) -> Result<(), ReadFault>
    ensures ok { S.is_honest store.new → OnOk result ((d : Database) → map.get (S.contents store.old) db.now ≡ Some d → AreCountable (rows_by_id range.old d)
        → so_far.new.rows ≡ whole_list row_object (rows_by_id range.old d) so_far.old) }
    ensures stops { IfErr result (Stops S.Store store.old store.new (map.get (S.contents store.old) db.now ≡ None)) }
    ensures reads { OnlyReads S.Store store.old store.new }
{
    let mut more = true;
    while more {
        more = list_page(alloc, store, db, range, so_far)?;
    }
    Ok(())
}

/// Lists the rows of the next page of a range, and tells whether more may come.
fn list_page<S: Store>(
    alloc: Global,
    store: &mut S,
    db: &DbName,
    range: &mut IdRange,
    so_far: &mut RowsSoFar,
) -> Result<bool, ReadFault>
    ensures ok { S.is_honest store.new
        → IfOk result (λ _. (d : Database) → map.get (S.contents store.old) db.now ≡ Some d → AreCountable (rows_by_id range.old d)
        → whole_list row_object (rows_by_id range.old d) so_far.new ≡ whole_list row_object (rows_by_id range.old d) so_far.old) }
    ensures end { S.is_honest store.new
        → IfOk result (λ more. more ≡ false → (d : Database) → map.get (S.contents store.old) db.now ≡ Some d → AreCountable (rows_by_id range.old d)
        → so_far.new.rows ≡ whole_list row_object (rows_by_id range.old d) so_far.new) }
    ensures same { (d : Database) → rows_by_id range.new d ≡ rows_by_id range.old d }
    ensures onward { IfOk result (λ more. more ≡ true → so_far.new.left < so_far.old.left) }
    ensures stops { IfErr result (Stops S.Store store.old store.new (map.get (S.contents store.old) db.now ≡ None)) }
    ensures reads { OnlyReads S.Store store.old store.new }
{
    if so_far.left == 0 {
        return Ok(false);
    }
    let most = so_far.page_size();
    range.skip = so_far.skip;
    range.limit = Some(most);
    let page = store.page_by_id(db, range)?;
    let count = page.rows.len() as u64;
    if count == 0 {
        return Ok(false);
    }
    push_rows(alloc, &page.rows, &mut so_far.rows)?;
    so_far.count_page(count);
    Ok(count >= most)
}

/// Writes the objects of rows, in order.
fn push_rows(alloc: Global, rows: &[IdRow], values: &mut ArrayText) -> Got<()>
    ensures { OnOk result (values.new ≡ values.old ++ each row_object rows.now) }
{
    for row in rows {
        values.push(alloc, &build_row(alloc, row)?)?;
    }
    Ok(())
}

/// Writes the object of a listing.
pub(crate) fn write_listing(alloc: Global, rows: ArrayText, counts: RowCounts) -> Got<JsonText>
    requires before { counts.offset ≤ counts.total }
    requires total { counts.total < 2 ^ 63 }
    ensures { IfOk result (λ value. value ≡ listing_of rows counts) }
{
    let offset = JsonText::of(alloc, &whole(counts.offset))?;
    let total = JsonText::of(alloc, &whole(counts.total))?;
    let rows = rows.end()?;
    ObjectText::new(alloc)?
        .with(alloc, "offset", offset)?
        .with(alloc, "rows", rows)?
        .with(alloc, "total_rows", total)?
        .end()
}

/// Builds the object of a row.
fn build_row(alloc: Global, row: &IdRow) -> Got<Json>
    ensures { IfOk result (λ value. view value ≡ row_object row.now) }
{
    let id = String::from_str(alloc, row.id.as_str())?;
    let key = String::from_str(alloc, row.id.as_str())?;
    let mut members = NameMap::new(alloc);
    put_member(alloc, &mut members, "id", Json::Text(id))?;
    put_member(alloc, &mut members, "key", Json::Text(key))?;
    put_member(
        alloc,
        &mut members,
        "value",
        build_revision(alloc, &row.rev)?,
    )?;
    Ok(Json::Object(members))
}

/// Builds the object that names a revision.
pub(crate) fn build_revision(alloc: Global, rev: &Rev) -> Got<Json>
    ensures { IfOk result (λ value. view value ≡ revision_object rev.now) }
{
    let mut members = NameMap::new(alloc);
    put_member(alloc, &mut members, "rev", Json::Text(rev.text(alloc)?))?;
    Ok(Json::Object(members))
}
