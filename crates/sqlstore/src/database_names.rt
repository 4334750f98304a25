//! The names that rows show.

ghost use Rattle.std.specs.Prelude.{◌≡◌, IfErr, IfOk, IsTrue, Some, map};
ghost use Rattle.std.specs.List.{AllByRecursion};
ghost use Rattle.store.specs.DatabaseName.{is_database_name};
ghost use Rattle.transactions.specs.Reading.{IsLost, IsRead};
ghost use Rattle.sqlstore.specs.inner.Reading.{IsShownName, name_shown};

use sqlite::Row;
use sqlite_value::value::ValueRef;
use std::alloc::Global;
use std::str;
use store::{DbName, NameFault, StoreFault};

/// Reads the names of the rows.
pub(crate) fn read_names(alloc: Global, rows: &[Row]) -> Result<Vec<DbName>, StoreFault>
    ensures { IsRead (λ names. names.items) (Some (map name_shown rows.now)) (AllByRecursion IsShownName rows.now) result }
{
    let mut names = Vec::with_capacity(alloc, rows.len())?;
    for row in rows {
        names.push(read_name(alloc, row)?)?;
    }
    Ok(names)
}

/// Reads the name that bytes spell.
fn name_of(alloc: Global, bytes: &[u8]) -> Result<DbName, StoreFault>
    ensures ok { IfOk result (λ name. name ≡ bytes.now) }
    ensures err { IfErr result (IsLost (IsTrue (is_database_name bytes.now))) }
{
    let Ok(text) = str::from_utf8(bytes) else {
        return Err(StoreFault::Damaged);
    };
    match DbName::new(alloc, text) {
        Ok(name) => Ok(name),
        Err(NameFault::Memory) => Err(StoreFault::Memory),
        Err(NameFault::Shape) => Err(StoreFault::Damaged),
    }
}

/// Reads the name of a row.
fn read_name(alloc: Global, row: &Row) -> Result<DbName, StoreFault>
    ensures ok { IfOk result (λ name. name ≡ name_shown row.now) }
    ensures err { IfErr result (IsLost (IsShownName row.now)) }
{
    let Ok(ValueRef::Blob(bytes)) = row.get_ref(0) else {
        return Err(StoreFault::Damaged);
    };
    name_of(alloc, bytes)
}
