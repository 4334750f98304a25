//! The rows of an index that its entries show, and how many there are.

ghost use Rattle.std.specs.Prelude.{◌≡◌, ◌<◌, ◌^◌, ◌-◌, ◌∷◌, [], ℕ, IfErr, IfOk, map};
ghost use Rattle.std.specs.List.{AllByRecursion};
ghost use Rattle.couch_json.specs.Lawful.{IsLawful};
ghost use Rattle.index.specs.Calls.{IsRefused};
ghost use Rattle.index.specs.Places.{IsShownEntry, spot_of, spot_shown};
ghost use Rattle.tables.specs.Listings.{shown_count};
ghost use Rattle.couch_json.specs.Key.{key};
ghost use Rattle.sqlite_value.specs.Order.{bytes, column};

use crate::fault::IndexFault;
use couch_json::{KeyFault, key_of};
use sqlite::Row;
use sqlite_value::value::ValueRef;
use std::alloc::Global;
use store::{IndexKey, KeyRow};
use tables::{RowFault, id_at, whole_at};
use tree::DocId;

/// Reads the rows of an index that its entries show. A row's memory is given back once it is read.
pub fn read_entries(alloc: Global, rows: Vec<Row>) -> Result<Vec<KeyRow>, IndexFault>
    ensures spots { IfOk result (λ read. map spot_of read.items ≡ map spot_shown rows.items) }
    ensures lawful { IfOk result (λ read. AllByRecursion (λ p. IsLawful p.key) read.items) }
    ensures err { IfErr result (IsRefused (AllByRecursion IsShownEntry rows.items)) }
{
    let mut read = Vec::with_capacity(alloc, rows.len())?;
    for row in rows {
        read.push(read_entry(alloc, &row)?)?;
    }
    Ok(read)
}

/// Reads the row of an index that an entry shows.
fn read_entry(alloc: Global, row: &Row) -> Result<KeyRow, IndexFault>
    ensures spot { IfOk result (λ read. spot_of read ≡ spot_shown row.now) }
    ensures lawful { IfOk result (λ read. IsLawful read.key) }
    ensures err { IfErr result (IsRefused (IsShownEntry row.now)) }
{
    let key = read_key(alloc, row)?;
    let id = read_id(alloc, row)?;
    Ok(KeyRow::new(key, id))
}

/// Reads the key of an entry.
fn read_key(alloc: Global, row: &Row) -> Result<IndexKey, IndexFault>
    ensures ok { IfOk result (λ k. key k ≡ bytes (column row.now 0)) }
    ensures lawful { IfOk result (λ k. IsLawful k) }
    ensures err { IfErr result (IsRefused (IsShownEntry row.now)) }
{
    let Ok(ValueRef::Blob(bytes)) = row.get_ref(0) else {
        return Err(IndexFault::Damaged);
    };
    match key_of(alloc, bytes) {
        Ok(value) => Ok(IndexKey::new(value)),
        Err(KeyFault::Memory) => Err(IndexFault::Memory),
        Err(KeyFault::NotKey) => Err(IndexFault::Damaged),
    }
}

/// Reads the id of an entry.
fn read_id(alloc: Global, row: &Row) -> Result<DocId, IndexFault>
    ensures ok { IfOk result (λ id. id ≡ bytes (column row.now 1)) }
    ensures err { IfErr result (IsRefused (IsShownEntry row.now)) }
{
    match id_at(alloc, row, 1) {
        Ok(id) => Ok(id),
        Err(RowFault::Memory) => Err(IndexFault::Memory),
        Err(RowFault::Damaged) => Err(IndexFault::Damaged),
    }
}

/// Reads how many entries there are. As many as SQLite can't count are too many for memory, too.
pub fn read_count(rows: &[Row]) -> Result<u64, IndexFault>
    ensures count { IfOk result (λ n. (m : ℕ) → rows.now ≡ shown_count m ∷ [] → n ≡ m) }
    ensures bounded { IfOk result (λ n. n < 2 ^ 63 - 1) }
    ensures err { IfErr result (IsRefused ((m : ℕ) × (rows.now ≡ shown_count m ∷ []))) }
{
    let Some(row) = rows.first() else {
        return Err(IndexFault::Damaged);
    };
    match whole_at(row, 0) {
        Ok(i64::MAX) => Err(IndexFault::Memory),
        Ok(count) if count >= 0 => Ok(count as u64),
        Ok(_) => Err(IndexFault::Damaged),
        Err(RowFault::Memory) => Err(IndexFault::Memory),
        Err(RowFault::Damaged) => Err(IndexFault::Damaged),
    }
}
