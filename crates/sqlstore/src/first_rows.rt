//! What the rows that a query shows say.

ghost use Rattle.std.specs.Prelude.{◌≡◌, IfErr, IfOk, IfSome, IsTrue, Some, option_map, slice_get};
ghost use Rattle.std.specs.List.{AllByRecursion};
ghost use Rattle.couch_json.specs.View.{view};
ghost use Rattle.policy.specs.Security.{is_security};
ghost use Rattle.tables.specs.Shown.{IsShownDatabase, IsShownHash, IsShownLocal, local_shown};
ghost use Rattle.transactions.specs.Reading.{IsLost, IsRead};
ghost use Rattle.sqlstore.specs.inner.Reading.{EndsPath, found_shown};

use couch_json::Json;
use policy::{Security, SecurityFault};
use sqlite::Row;
use std::alloc::Global;
use store::{LocalDocument, StoreFault};
use tables::{FoundDatabase, RowFault, read_database, read_hash, read_local};
use tree::Rev;

/// Reads the database of the first row, if there is one.
pub(crate) fn first_database(alloc: Global, rows: &[Row]) -> Result<FoundDatabase, StoreFault>
    ensures { IsRead (λ d. (d.number, view d.security, d.sequence)) (option_map found_shown (slice_get rows.now 0))
        (AllByRecursion IsShownDatabase rows.now) result }
{
    let Some(row) = rows.first() else {
        return Err(StoreFault::NoDatabase);
    };
    match read_database(alloc, row) {
        Ok(found) => Ok(found),
        Err(RowFault::Memory) => Err(StoreFault::Memory),
        Err(RowFault::Damaged) => Err(StoreFault::Damaged),
    }
}

/// Reads the local document of the first row, if there is one.
pub(crate) fn first_local(alloc: Global, rows: &[Row]) -> Result<Option<LocalDocument>, StoreFault>
    ensures { IsRead (λ found. found) (Some (option_map local_shown (slice_get rows.now 0))) (AllByRecursion IsShownLocal rows.now) result }
{
    let Some(row) = rows.first() else {
        return Ok(None);
    };
    match read_local(alloc, row) {
        Ok(document) => Ok(Some(document)),
        Err(RowFault::Memory) => Err(StoreFault::Memory),
        Err(RowFault::Damaged) => Err(StoreFault::Damaged),
    }
}

/// Reads the security object that a value is.
pub(crate) fn read_security(alloc: Global, value: &Json) -> Result<Security, StoreFault>
    ensures { IsRead (λ security. security) (Some (view value.now)) (IsTrue (is_security (view value.now))) result }
{
    match Security::read(alloc, value) {
        Ok(security) => Ok(security),
        Err(SecurityFault::Memory) => Err(StoreFault::Memory),
        Err(SecurityFault::Shape) => Err(StoreFault::Damaged),
    }
}

/// Reads the last row where its revision's number is the number of the rows: then they are the path of
/// this revision.
pub(crate) fn last_of_path(rows: &[Row]) -> Result<Option<Rev>, StoreFault>
    ensures ok { IfOk result (λ last. IfSome last (λ rev. EndsPath rev rows.now)) }
    ensures err { IfErr result (IsLost (AllByRecursion IsShownHash rows.now)) }
{
    let Some(row) = rows.last() else {
        return Ok(None);
    };
    match read_hash(row) {
        Ok(rev) if rev.number() as usize == rows.len() => Ok(Some(rev)),
        Ok(_) => Ok(None),
        Err(RowFault::Memory) => Err(StoreFault::Memory),
        Err(RowFault::Damaged) => Err(StoreFault::Damaged),
    }
}
