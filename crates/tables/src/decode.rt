//! Rows that a query shows, as what they say.

ghost use Rattle.std.specs.Prelude.{◌≡◌, ◌<◌, length, Err, IfOk, Some, option_map};
ghost use Rattle.couch_json.specs.View.{view};
ghost use Rattle.sqlite_value.specs.Order.{bytes, column};
ghost use Rattle.sqlite_value.specs.declared.value.Value.TheVariants.{Text};
ghost use Rattle.tree.specs.Revision.{revision_read, text_of};
ghost use Rattle.tables.specs.Rows.{count_in_cell, json_in_cell, parent_in, whole_in_cell};
ghost use Rattle.tables.specs.Listings.{IsListedDocument, SpellsId, listed_id, listed_mark, listed_sequence, listed_winner};
ghost use Rattle.tables.specs.Shown.{IsCount, IsShownDatabase, IsShownHash, IsShownLocal, IsShownOutline, IsShownRevision, IsSmall};
ghost use Rattle.tables.specs.Shown.{IsWhole, ShowsHeld, ShowsMark, SpellsHash, SpellsHashOf, SpellsJson, SpellsParentOf, SpellsRevision};
ghost use Rattle.tables.specs.Shown.{held_shown, local_shown, mark_shown, parent_shown, revision_shown};

use couch_json::{Json, JsonFault};
use sqlite::{Error, ErrorCode, Row};
use sqlite_value::value::ValueRef;
use std::alloc::Global;
use std::str;
use store::LocalDocument;
use thiserror::Error as ErrorDerive;
use tree::{Body, DocId, IdFault, Rev};

/// Why a row was not read.
#[derive(Clone, Copy, Debug, PartialEq, Eq, ErrorDerive)]
pub enum RowFault {
    /// Memory ran out.
    #[error("out of memory")]
    Memory = 1,
    /// The row is not laid out as this server lays it out.
    #[error("a damaged row")]
    Damaged = 2,
}

/// The row of a document, as a list of them shows it.
#[derive(Drop)]
pub struct ListedDocument {
    /// Its id.
    pub id: DocId,
    /// The sequence of its latest write.
    pub sequence: u64,
    /// Its best revision.
    pub winner: Rev,
    /// Whether that is deleted.
    pub deleted: bool,
}

/// The row of a revision, as a query shows it.
#[derive(Drop)]
pub struct FoundRevision {
    /// The revision.
    pub rev: Rev,
    /// The revision before it, or `None` at a root.
    pub parent: Option<Rev>,
    /// Whether it is deleted, and its body; `None` where it only came inside a path.
    pub held: Option<(bool, Json)>,
}

/// The row of a revision without its body, as a query shows it.
#[derive(Clone, Copy, Debug)]
pub struct FoundNode {
    /// The revision.
    pub rev: Rev,
    /// The revision before it, or `None` at a root.
    pub parent: Option<Rev>,
    /// Whether it is deleted; `None` where it only came inside a path.
    pub mark: Option<bool>,
}

/// The row of a database, as a query shows it.
#[derive(Drop)]
pub struct FoundDatabase {
    /// Its number, which the rows of its documents name.
    pub number: i64,
    /// Its security object.
    pub security: Json,
    /// How many writes it accepted.
    pub sequence: u64,
}

/// Reads the whole number in a cell.
pub fn whole_at(row: &Row, at: usize) -> Result<i64, RowFault>
    ensures ok { IfOk result (λ n. n ≡ whole_in_cell (column row.now at)) }
    ensures damaged { result ≡ Err RowFault.Damaged → at < length row.now → ¬ (IsWhole (column row.now at)) }
{
    match row.get::<i64>(at) {
        Ok(number) => Ok(number),
        Err(Error::SqliteFailure(ErrorCode::OutOfMemory)) => Err(RowFault::Memory),
        Err(_) => Err(RowFault::Damaged),
    }
}

fn count_at(row: &Row, at: usize) -> Result<u64, RowFault>
    ensures ok { IfOk result (λ n. n ≡ count_in_cell (column row.now at)) }
    ensures damaged { result ≡ Err RowFault.Damaged → at < length row.now → ¬ (IsCount (column row.now at)) }
{
    match row.get::<u64>(at) {
        Ok(count) => Ok(count),
        Err(Error::SqliteFailure(ErrorCode::OutOfMemory)) => Err(RowFault::Memory),
        Err(_) => Err(RowFault::Damaged),
    }
}

fn revision_at(row: &Row, at: usize) -> Result<Rev, RowFault>
    ensures ok { IfOk result (λ r. text_of r ≡ bytes (column row.now at)) }
    ensures read { IfOk result (λ r. revision_read (bytes (column row.now at)) ≡ Some r) }
    ensures damaged { result ≡ Err RowFault.Damaged → at < length row.now → ¬ (SpellsRevision (column row.now at)) }
{
    let Ok(ValueRef::Text(text)) = row.get_ref(at) else {
        return Err(RowFault::Damaged);
    };
    match Rev::parse(text) {
        Some(rev) => Ok(rev),
        None => Err(RowFault::Damaged),
    }
}

/// Reads the id of a document in a cell.
pub fn id_at(alloc: Global, row: &Row, at: usize) -> Result<DocId, RowFault>
    ensures ok { IfOk result (λ id. id ≡ bytes (column row.now at)) }
    ensures damaged { result ≡ Err RowFault.Damaged → at < length row.now → ¬ (SpellsId (column row.now at)) }
{
    let Ok(ValueRef::Blob(text)) = row.get_ref(at) else {
        return Err(RowFault::Damaged);
    };
    let Ok(text) = str::from_utf8(text) else {
        return Err(RowFault::Damaged);
    };
    match DocId::new(alloc, text) {
        Ok(id) => Ok(id),
        Err(IdFault::Memory) => Err(RowFault::Memory),
        Err(IdFault::Shape) => Err(RowFault::Damaged),
    }
}

fn number_at(row: &Row, at: usize) -> Result<u32, RowFault>
    ensures ok { IfOk result (λ n. n ≡ count_in_cell (column row.now at)) }
    ensures damaged { result ≡ Err RowFault.Damaged → at < length row.now → ¬ (IsSmall (column row.now at)) }
{
    match row.get::<u32>(at) {
        Ok(number) => Ok(number),
        Err(Error::SqliteFailure(ErrorCode::OutOfMemory)) => Err(RowFault::Memory),
        Err(_) => Err(RowFault::Damaged),
    }
}

/// Reads the JSON value whose text is in a cell.
pub fn json_at(alloc: Global, row: &Row, at: usize) -> Result<Json, RowFault>
    ensures ok { IfOk result (λ json. view json ≡ json_in_cell (column row.now at)) }
    ensures damaged { result ≡ Err RowFault.Damaged → at < length row.now → ¬ (SpellsJson (column row.now at)) }
{
    let Ok(ValueRef::Text(text)) = row.get_ref(at) else {
        return Err(RowFault::Damaged);
    };
    match couch_json::read(alloc, text) {
        Ok(json) => Ok(json),
        Err(JsonFault::Memory) => Err(RowFault::Memory),
        Err(_) => Err(RowFault::Damaged),
    }
}

fn hash_at(row: &Row, at: usize) -> Result<&str, RowFault>
    ensures ok { IfOk result (λ hash. column row.now at ≡ Text hash.now) }
    ensures damaged { result ≡ Err RowFault.Damaged → at < length row.now → ¬ (SpellsHash (column row.now at)) }
{
    let Ok(ValueRef::Text(text)) = row.get_ref(at) else {
        return Err(RowFault::Damaged);
    };
    match str::from_utf8(text) {
        Ok(hash) => Ok(hash),
        Err(_) => Err(RowFault::Damaged),
    }
}

fn named_at(row: &Row, number: u32, at: usize) -> Result<Rev, RowFault>
    ensures number { IfOk result (λ r. r.number ≡ number) }
    ensures hash { IfOk result (λ r. column row.now at ≡ Text r.hash) }
    ensures damaged { result ≡ Err RowFault.Damaged → at < length row.now → ¬ (SpellsHashOf number (column row.now at)) }
{
    match Rev::new(number, hash_at(row, at)?) {
        Some(rev) => Ok(rev),
        None => Err(RowFault::Damaged),
    }
}

fn parent_at(row: &Row, number: u32, at: usize) -> Result<Option<Rev>, RowFault>
    ensures ok { IfOk result (λ parent. parent ≡ parent_in number (column row.now at)) }
    ensures damaged { result ≡ Err RowFault.Damaged → at < length row.now → ¬ (SpellsParentOf number (column row.now at)) }
{
    match row.get_ref(at) {
        Ok(ValueRef::Null) => Ok(None),
        _ => Ok(Some(named_at(row, number.saturating_sub(1), at)?)),
    }
}

fn held_in(alloc: Global, row: &Row) -> Result<Option<(bool, Json)>, RowFault>
    ensures ok { IfOk result (λ held. option_map (λ h. (h.0, view h.1)) held ≡ held_shown row.now) }
    ensures damaged { result ≡ Err RowFault.Damaged → length row.now ≡ 6 → ¬ (ShowsHeld row.now) }
{
    if count_at(row, 3)? == 0 {
        return Ok(None);
    }
    let deleted = count_at(row, 4)? > 0;
    let body = json_at(alloc, row, 5)?;
    Ok(Some((deleted, body)))
}

/// Reads what a row of `revision_rows` shows.
pub fn read_revision(alloc: Global, row: &Row) -> Result<FoundRevision, RowFault>
    ensures revision { IfOk result (λ d. d.rev ≡ revision_shown row.now) }
    ensures parent { IfOk result (λ d. d.parent ≡ parent_shown row.now) }
    ensures held { IfOk result (λ d. option_map (λ h. (h.0, view h.1)) d.held ≡ held_shown row.now) }
    ensures damaged { result ≡ Err RowFault.Damaged → ¬ (IsShownRevision row.now) }
{
    let number = number_at(row, 0)?;
    let rev = named_at(row, number, 1)?;
    let parent = parent_at(row, number, 2)?;
    let held = held_in(alloc, row)?;
    Ok(FoundRevision { rev, parent, held })
}

fn mark_in(row: &Row) -> Result<Option<bool>, RowFault>
    ensures ok { IfOk result (λ mark. mark ≡ mark_shown row.now) }
    ensures damaged { result ≡ Err RowFault.Damaged → length row.now ≡ 5 → ¬ (ShowsMark row.now) }
{
    if count_at(row, 3)? == 0 {
        return Ok(None);
    }
    Ok(Some(count_at(row, 4)? > 0))
}

/// Reads what a row of `outline_rows` shows.
pub fn read_node(row: &Row) -> Result<FoundNode, RowFault>
    ensures revision { IfOk result (λ d. d.rev ≡ revision_shown row.now) }
    ensures parent { IfOk result (λ d. d.parent ≡ parent_shown row.now) }
    ensures mark { IfOk result (λ d. d.mark ≡ mark_shown row.now) }
    ensures damaged { result ≡ Err RowFault.Damaged → ¬ (IsShownOutline row.now) }
{
    let number = number_at(row, 0)?;
    let rev = named_at(row, number, 1)?;
    let parent = parent_at(row, number, 2)?;
    let mark = mark_in(row)?;
    Ok(FoundNode { rev, parent, mark })
}

/// Reads the revision that a row of `hash_rows` shows.
pub fn read_hash(row: &Row) -> Result<Rev, RowFault>
    ensures revision { IfOk result (λ r. r ≡ revision_shown row.now) }
    ensures damaged { result ≡ Err RowFault.Damaged → ¬ (IsShownHash row.now) }
{
    let number = number_at(row, 0)?;
    named_at(row, number, 1)
}

/// Reads the local document that a row of `local_rows` shows.
pub fn read_local(alloc: Global, row: &Row) -> Result<LocalDocument, RowFault>
    ensures ok { IfOk result (λ document. document ≡ local_shown row.now) }
    ensures damaged { result ≡ Err RowFault.Damaged → ¬ (IsShownLocal row.now) }
{
    let number = number_at(row, 0)?;
    let body = Body::new(json_at(alloc, row, 1)?);
    Ok(LocalDocument { number, body })
}

/// Reads what a row of `rows_by_sequence` shows.
pub fn read_listed_document(alloc: Global, row: &Row) -> Result<ListedDocument, RowFault>
    ensures id { IfOk result (λ d. d.id ≡ listed_id row.now) }
    ensures sequence { IfOk result (λ d. d.sequence ≡ listed_sequence row.now) }
    ensures winner { IfOk result (λ d. listed_winner row.now ≡ Some d.winner) }
    ensures deleted { IfOk result (λ d. d.deleted ≡ listed_mark row.now) }
    ensures damaged { result ≡ Err RowFault.Damaged → ¬ (IsListedDocument row.now) }
{
    let sequence = count_at(row, 1)?;
    let winner = revision_at(row, 2)?;
    let deleted = count_at(row, 3)? > 0;
    let id = id_at(alloc, row, 0)?;
    Ok(ListedDocument {
        id,
        sequence,
        winner,
        deleted,
    })
}

/// Reads what a row of `database_rows` shows.
pub fn read_database(alloc: Global, row: &Row) -> Result<FoundDatabase, RowFault>
    ensures number { IfOk result (λ d. d.number ≡ whole_in_cell (column row.now 0)) }
    ensures security { IfOk result (λ d. view d.security ≡ json_in_cell (column row.now 1)) }
    ensures sequence { IfOk result (λ d. d.sequence ≡ count_in_cell (column row.now 2)) }
    ensures damaged { result ≡ Err RowFault.Damaged → ¬ (IsShownDatabase row.now) }
{
    let number = whole_at(row, 0)?;
    let security = json_at(alloc, row, 1)?;
    let sequence = count_at(row, 2)?;
    Ok(FoundDatabase {
        number,
        security,
        sequence,
    })
}
