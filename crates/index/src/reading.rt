//! Rows that a query shows, as the declarations that they say.

ghost use Rattle.std.specs.Prelude.{◌≡◌, Some, IfErr, IfOk, true};
ghost use Rattle.couch_json.specs.Parts.{items_in, items_or_none, text_in};
ghost use Rattle.couch_json.specs.View.{items_view, view};
ghost use Rattle.policy.specs.DesignDocuments.{are_paths, is_path};
ghost use Rattle.sqlite_value.specs.Order.{column};
ghost use Rattle.store.specs.Indexes.{paths_in};
ghost use Rattle.tables.specs.Rows.{json_in_cell, whole_in_cell};
ghost use Rattle.index.specs.Calls.{IsRefused};
ghost use Rattle.index.specs.Rows.{fields_in_cell};
ghost use Rattle.index.specs.Shown.{IsPathList, IsShownDeclaration};

use crate::declaration::Declaration;
use crate::fault::IndexFault;
use couch_json::{FieldPath, Json, PathFault};
use sqlite::Row;
use std::alloc::Global;
use tables::{RowFault, json_at, whole_at};

/// Reads the declaration that a row shows.
pub(crate) fn read_declaration(alloc: Global, row: &Row) -> Result<Declaration, IndexFault>
    ensures number { IfOk result (λ d. d.number ≡ whole_in_cell (column row.now 0)) }
    ensures fields { IfOk result (λ d. d.fields.items ≡ fields_in_cell (column row.now 2)) }
    ensures err { IfErr result (IsRefused (IsShownDeclaration row.now)) }
{
    let number = read_number(row)?;
    let fields = read_fields(alloc, row)?;
    Ok(Declaration { number, fields })
}

/// Reads the number of the declaration.
fn read_number(row: &Row) -> Result<i64, IndexFault>
    ensures ok { IfOk result (λ n. n ≡ whole_in_cell (column row.now 0)) }
    ensures err { IfErr result (IsRefused (IsShownDeclaration row.now)) }
{
    match whole_at(row, 0) {
        Ok(number) => Ok(number),
        Err(RowFault::Memory) => Err(IndexFault::Memory),
        Err(RowFault::Damaged) => Err(IndexFault::Damaged),
    }
}

/// Reads the fields of the declaration.
fn read_fields(alloc: Global, row: &Row) -> Result<Vec<FieldPath>, IndexFault>
    ensures ok { IfOk result (λ paths. paths.items ≡ fields_in_cell (column row.now 2)) }
    ensures err { IfErr result (IsRefused (IsShownDeclaration row.now)) }
{
    match json_at(alloc, row, 2) {
        Ok(list) => read_list(alloc, &list),
        Err(RowFault::Memory) => Err(IndexFault::Memory),
        Err(RowFault::Damaged) => Err(IndexFault::Damaged),
    }
}

/// Reads the paths of a list.
fn read_list(alloc: Global, list: &Json) -> Result<Vec<FieldPath>, IndexFault>
    ensures ok { IfOk result (λ paths. paths.items ≡ paths_in (items_or_none (items_in (view list.now)))) }
    ensures err { IfErr result (IsRefused (IsPathList (view list.now))) }
{
    match list {
        Json::Array(items) => read_paths(alloc, items),
        _ => Err(IndexFault::Damaged),
    }
}

pub(crate) fn read_paths(alloc: Global, items: &[Json]) -> Result<Vec<FieldPath>, IndexFault>
    ensures ok { IfOk result (λ paths. paths.items ≡ paths_in (items_view items.now)) }
    ensures err { IfErr result (IsRefused (are_paths (items_view items.now) ≡ true)) }
{
    let mut paths = Vec::with_capacity(alloc, items.len())?;
    for item in items {
        paths.push(read_path(alloc, item)?)?;
    }
    Ok(paths)
}

fn read_path(alloc: Global, item: &Json) -> Result<FieldPath, IndexFault>
    ensures ok { IfOk result (λ path. Some path ≡ text_in (view item.now)) }
    ensures err { IfErr result (IsRefused (is_path (view item.now) ≡ true)) }
{
    let Some(text) = item.text() else {
        return Err(IndexFault::Damaged);
    };
    match FieldPath::parse(alloc, text) {
        Ok(path) => Ok(path),
        Err(PathFault::Memory) => Err(IndexFault::Memory),
        Err(PathFault::Shape) => Err(IndexFault::Damaged),
    }
}
