//! What changed in a database after a sequence.

ghost use Rattle.std.specs.Prelude.{◌≡◌, ◌≢◌, ◌<◌, ◌^◌, ◌++◌, [], All, map as each, IfOk, IfErr, None, OnOk};
ghost use Rattle.std.specs.Prelude.{Ok, Some, false, is_some, length, option_map, true};
ghost use Rattle.std.specs.FinMap as map;
ghost use Rattle.couch_json.specs.View.{members_view, view};
ghost use Rattle.store.specs.Calls.{OnlyReads};
ghost use Rattle.store.specs.Database.{Database};
ghost use Rattle.store.specs.PageStructs.{sequence_row_of, sequence_rows};
ghost use Rattle.read.specs.Answers.{AnswersValue, Stops};
ghost use Rattle.read.specs.Changes.{change_members, change_object, changes_in};
ghost use Rattle.read.specs.inner.ChangesSoFar.{whole_changes, left_after, page_size, rows_to_come};
ghost use Rattle.read.specs.Listing.{revision_object};

use crate::change_pages::ChangesSoFar;
use crate::fault::ReadFault;
use crate::listing::build_revision;
use crate::numbers::whole;
use couch_json::{ArrayText, Got, Json, JsonText, NameMap, ObjectText, put_member};
use std::alloc::Global;
use std::cmp::min;
use store::{DbName, PageBySeq, SeqRange, SeqRow, Store};
use tree::Rev;

/// A page has at most so many rows: no more are held at once.
const LARGEST_PAGE: u64 = 1_000;

/// Lists the documents of a database that changed after a sequence, each once at the sequence of its
/// latest write: an object with `last_seq` and `results`. The rows are
/// read in pages of at most 1,000, and written one by one.
///
/// `Store(NoDatabase)` comes if and only if there is no database of this name; else nothing but want
/// of memory and faults of the store refuse. Nothing changes, and no body is read. See the CouchDB
/// manual, api/database/changes.
pub fn changes<S: Store>(
    alloc: Global,
    store: &mut S,
    db: &DbName,
    range: &SeqRange,
) -> Result<JsonText, ReadFault>
    ensures answer { AnswersValue S.Store store.old store.new (option_map (λ d. Ok (changes_in range.now d)) (map.get (S.contents store.old) db.now)) result }
    ensures only { IfErr result (λ fault. fault ≢ ReadFault.Memory → ((cause : _) → fault ≢ ReadFault.Store cause) → ⊥) }
    ensures reads { OnlyReads S.Store store.old store.new }
{
    let mut so_far = begin_changes(alloc, store, db, range)?;
    list_changes(alloc, store, db, range.all_leaves, &mut so_far)?;
    Ok(write_changes(alloc, so_far)?)
}

/// Begins the listing of a range: no row has come yet.
fn begin_changes<S: Store>(
    alloc: Global,
    store: &mut S,
    db: &DbName,
    range: &SeqRange,
) -> Result<ChangesSoFar, ReadFault>
    ensures there { S.is_honest store.new → IfOk result (λ _. is_some (map.get (S.contents store.old) db.now) ≡ true) }
    ensures ok { S.is_honest store.new → IfOk result (λ so_far. (d : Database) → map.get (S.contents store.old) db.now ≡ Some d
        → whole_changes so_far (rows_to_come range.now.all_leaves so_far d) ≡ changes_in range.now d) }
    ensures stops { IfErr result (Stops S.Store store.old store.new (map.get (S.contents store.old) db.now ≡ None)) }
    ensures reads { OnlyReads S.Store store.old store.new }
{
    let nothing = SeqRange {
        since: range.since,
        limit: Some(0),
        all_leaves: range.all_leaves,
        counted: false,
    };
    let page = store.page_by_seq(db, &nothing)?;
    let results = ArrayText::new(alloc)?;
    Ok(ChangesSoFar {
        since: range.since,
        left: range.limit,
        last: page.last_seq,
        results,
    })
}

/// Lists the rows that are still to come.
fn list_changes<S: Store>(
    alloc: Global,
    store: &mut S,
    db: &DbName,
    all_leaves: bool,
    so_far: &mut ChangesSoFar,
) -> Result<(), ReadFault>
    ensures ok { S.is_honest store.new → OnOk result ((d : Database) → map.get (S.contents store.old) db.now ≡ Some d
        → whole_changes so_far.new [] ≡ whole_changes so_far.old (rows_to_come all_leaves so_far.old d)) }
    ensures stops { IfErr result (Stops S.Store store.old store.new (map.get (S.contents store.old) db.now ≡ None)) }
    ensures reads { OnlyReads S.Store store.old store.new }
{
    let mut more = true;
    while more {
        more = list_page(alloc, store, db, all_leaves, so_far)?;
    }
    Ok(())
}

/// Lists the rows of the next page, and tells whether there were any.
fn list_page<S: Store>(
    alloc: Global,
    store: &mut S,
    db: &DbName,
    all_leaves: bool,
    so_far: &mut ChangesSoFar,
) -> Result<bool, ReadFault>
    ensures ok { S.is_honest store.new → IfOk result (λ _. (d : Database) → map.get (S.contents store.old) db.now ≡ Some d
        → whole_changes so_far.new (rows_to_come all_leaves so_far.new d) ≡ whole_changes so_far.old (rows_to_come all_leaves so_far.old d)) }
    ensures end { S.is_honest store.new → IfOk result (λ more. more ≡ false → (d : Database) → map.get (S.contents store.old) db.now ≡ Some d
        → rows_to_come all_leaves so_far.new d ≡ []) }
    ensures onward { IfOk result (λ more. more ≡ true → (so_far.old.since < so_far.new.since) × (so_far.new.since < 2 ^ 63)) }
    ensures stops { IfErr result (Stops S.Store store.old store.new (map.get (S.contents store.old) db.now ≡ None)) }
    ensures reads { OnlyReads S.Store store.old store.new }
{
    let next = SeqRange {
        since: so_far.since,
        limit: Some(page_size(so_far.left)),
        all_leaves,
        counted: false,
    };
    let page = store.page_by_seq(db, &next)?;
    if page.last_seq <= so_far.since {
        return Ok(false);
    }
    take_page(alloc, &page, so_far)?;
    Ok(true)
}

/// Returns how many rows the next page has at most, where at most so many are wanted.
fn page_size(left: Option<u64>) -> u64
    ensures { result ≡ page_size left }
{
    match left {
        Some(left) => min(left, LARGEST_PAGE),
        None => LARGEST_PAGE,
    }
}

/// Takes the rows of a page.
fn take_page(alloc: Global, page: &PageBySeq, so_far: &mut ChangesSoFar) -> Got<()>
    requires last { page.now.last_seq < 2 ^ 63 }
    requires rows { All (λ r. r.sequence < 2 ^ 63) page.now.rows.items }
    ensures results { OnOk result (so_far.new.results ≡ so_far.old.results ++ each change_object (sequence_rows page.now.rows.items)) }
    ensures since { OnOk result (so_far.new.since ≡ page.now.last_seq) }
    ensures last { OnOk result (so_far.new.last ≡ page.now.last_seq) }
    ensures left { OnOk result (so_far.new.left ≡ left_after so_far.old.left (length page.now.rows.items)) }
{
    push_changes(alloc, &page.rows, &mut so_far.results)?;
    so_far.since = page.last_seq;
    so_far.last = page.last_seq;
    so_far.left = left_after(so_far.left, page.rows.len() as u64);
    Ok(())
}

/// Returns how many rows are wanted at most, once so many have come.
fn left_after(left: Option<u64>, count: u64) -> Option<u64>
    ensures { result ≡ left_after left count }
{
    match left {
        Some(left) => Some(left.saturating_sub(count)),
        None => None,
    }
}

/// Writes the objects of rows, in order.
fn push_changes(alloc: Global, rows: &[SeqRow], results: &mut ArrayText) -> Got<()>
    requires { All (λ r. r.sequence < 2 ^ 63) rows.now }
    ensures { OnOk result (results.new ≡ results.old ++ each change_object (sequence_rows rows.now)) }
{
    for row in rows {
        results.push(alloc, &build_change(alloc, row)?)?;
    }
    Ok(())
}

/// Writes the object of the changes, all of which have come.
fn write_changes(alloc: Global, so_far: ChangesSoFar) -> Got<JsonText>
    ensures { IfOk result (λ value. value ≡ whole_changes so_far []) }
{
    let (last, results) = so_far.into_parts();
    let last = JsonText::of(alloc, &whole(last))?;
    let results = results.end()?;
    ObjectText::new(alloc)?
        .with(alloc, "last_seq", last)?
        .with(alloc, "results", results)?
        .end()
}

/// Builds the object of a row.
fn build_change(alloc: Global, row: &SeqRow) -> Got<Json>
    requires { row.now.sequence < 2 ^ 63 }
    ensures { IfOk result (λ value. view value ≡ change_object (sequence_row_of row.now)) }
{
    let mut members = build_members(alloc, row)?;
    if row.deleted {
        put_member(alloc, &mut members, "deleted", Json::Truth(true))?;
    }
    Ok(Json::Object(members))
}

/// Builds what each row says.
fn build_members(alloc: Global, row: &SeqRow) -> Got<NameMap<Json>>
    requires { row.now.sequence < 2 ^ 63 }
    ensures { IfOk result (λ members. members_view members.entries ≡ change_members (sequence_row_of row.now)) }
{
    let id = String::from_str(alloc, row.id.as_str())?;
    let mut members = NameMap::new(alloc);
    put_member(
        alloc,
        &mut members,
        "changes",
        Json::Array(build_revisions(alloc, &row.revs)?),
    )?;
    put_member(alloc, &mut members, "id", Json::Text(id))?;
    put_member(alloc, &mut members, "seq", whole(row.sequence))?;
    Ok(members)
}

/// Builds the objects that name revisions, in order.
fn build_revisions(alloc: Global, revs: &[Rev]) -> Got<Vec<Json>>
    ensures { IfOk result (λ values. each view values.items ≡ each revision_object revs.now) }
{
    let mut values = Vec::with_capacity(alloc, revs.len())?;
    for rev in revs {
        values.push(build_revision(alloc, rev)?)?;
    }
    Ok(values)
}
