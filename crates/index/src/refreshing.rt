//! The entries of a document, after another of it is seen.

ghost use Rattle.std.specs.Prelude.{◌≡◌, IfErr, IfOk, None, filter, map, option_map, ⊤};
ghost use Rattle.std.specs.List.{AllByRecursion};
ghost use Rattle.couch_json.specs.View.{view};
ghost use Rattle.sqlite.specs.Held.{state};
ghost use Rattle.sqlite.specs.State.{HasCleanDisk};
ghost use Rattle.tables.specs.Calls.{AsksInside, KeepsSchema, LooksInside, Proceeds, KeepsConnection};
ghost use Rattle.tables.specs.Schema.{decls_tree, schema};
ghost use Rattle.index.specs.Calls.{FollowsAll, StaysOpen, IsRefused, IsSound, Refreshes, ReplacesKey};
ghost use Rattle.index.specs.Layout.{HasIndexRows};
ghost use Rattle.index.specs.Meaning.{key_if_seen};
ghost use Rattle.index.specs.Rows.{is_at_home};
ghost use Rattle.index.specs.Shown.{IsShownDeclaration, declared, declared_at, declared_shown};

use crate::declaration::Declaration;
use crate::declarations::rows_of_database;
use crate::entries::{delete_entry, insert_entry};
use crate::fault::IndexFault;
use crate::keys::{are_same, find_key};
use crate::reading::read_declaration;
use couch_json::Json;
use sqlite::{Alter, Error, Row, Transaction};
use std::alloc::Global;

/// Lets the indexes of a database follow a document of which another is seen, or none: in each index
/// its old entry goes, and its new one comes in.
pub fn refresh<S: Alter>(
    alloc: Global,
    tx: &mut Transaction<'_, S>,
    db: &i64,
    id: &[u8],
    before: Option<&Json>,
    after: Option<&Json>,
) -> Result<(), IndexFault>
    ensures same_reference { tx.new.conn.ghost_name ≡ tx.old.conn.ghost_name }
    ensures refreshes { Refreshes S.Store db.now id.now (option_map (λ v. view v.now) before.entry)
        (option_map (λ v. view v.now) after.entry) tx.old.conn.now tx.new.conn.now result }
    ensures err { IfErr result (IsRefused (IsSound S.Store tx.old.conn.now tx.new.conn.now)) }
    ensures goes_on { tx.old.conn.now.schema ≡ schema → StaysOpen S.Store tx.old.conn.now tx.new.conn.now result }
    ensures looks { LooksInside S.Store tx.old.conn.now tx.new.conn.now }
    ensures asks { AsksInside S.Store tx.old.conn.now tx.new.conn.now }
{
    let declarations = list_declarations(alloc, tx, db)?;
    refresh_indexes(alloc, tx, db, &declarations, id, before, after)
}

/// Lists the indexes of a database, by their numbers.
pub fn list_declarations<S: Alter>(
    alloc: Global,
    tx: &mut Transaction<'_, S>,
    db: &i64,
) -> Result<Vec<Declaration>, IndexFault>
    ensures same_reference { tx.new.conn.ghost_name ≡ tx.old.conn.ghost_name }
    ensures ok { HasCleanDisk (state S.Store tx.new.conn.now) → HasIndexRows (state S.Store tx.old.conn.now).now
        → IfOk result (λ ds. map declared ds.items ≡ map declared_at (filter (is_at_home db.now) ((state S.Store tx.old.conn.now).now.trees decls_tree))) }
    ensures err { IfErr result (IsRefused (IsSound S.Store tx.old.conn.now tx.new.conn.now)) }
    ensures stands { KeepsConnection S.Store tx.old.conn.now tx.new.conn.now result }
    ensures looks { LooksInside S.Store tx.old.conn.now tx.new.conn.now }
    ensures asks { AsksInside S.Store tx.old.conn.now tx.new.conn.now }
{
    let rows = rows_of_database(tx, db)?;
    read_declarations(alloc, &rows)
}

/// Reads the declarations that rows show.
fn read_declarations(alloc: Global, rows: &[Row]) -> Result<Vec<Declaration>, IndexFault>
    ensures ok { IfOk result (λ ds. map declared ds.items ≡ map declared_shown rows.now) }
    ensures err { IfErr result (IsRefused (AllByRecursion IsShownDeclaration rows.now)) }
{
    let mut declarations = Vec::with_capacity(alloc, rows.len())?;
    for row in rows {
        declarations.push(read_declaration(alloc, row)?)?;
    }
    Ok(declarations)
}

/// Lets each of these indexes of a database follow a document of which another is seen, or none.
pub fn refresh_indexes<S: Alter>(
    alloc: Global,
    tx: &mut Transaction<'_, S>,
    db: &i64,
    declarations: &[Declaration],
    id: &[u8],
    before: Option<&Json>,
    after: Option<&Json>,
) -> Result<(), IndexFault>
    ensures same_reference { tx.new.conn.ghost_name ≡ tx.old.conn.ghost_name }
    ensures follows { FollowsAll S.Store db.now (map declared declarations.now) id.now (option_map (λ v. view v.now) before.entry)
        (option_map (λ v. view v.now) after.entry) tx.old.conn.now tx.new.conn.now result }
    ensures err { IfErr result (IsRefused ⊤) }
    ensures goes_on { StaysOpen S.Store tx.old.conn.now tx.new.conn.now result }
    ensures proceeds { Proceeds S.Store tx.old.conn.now tx.new.conn.now }
{
    for declaration in declarations {
        refresh_index(alloc, tx, declaration, id, before, after)?;
    }
    Ok(())
}

/// Lets one index follow a document of which another is seen, or none.
pub(crate) fn refresh_index<S: Alter>(
    alloc: Global,
    tx: &mut Transaction<'_, S>,
    declaration: &Declaration,
    id: &[u8],
    before: Option<&Json>,
    after: Option<&Json>,
) -> Result<(), IndexFault>
    ensures same_reference { tx.new.conn.ghost_name ≡ tx.old.conn.ghost_name }
    ensures replaces { ReplacesKey S.Store (declared declaration.now).number id.now
        (key_if_seen (declared declaration.now).fields (option_map (λ v. view v.now) before.entry))
        (key_if_seen (declared declaration.now).fields (option_map (λ v. view v.now) after.entry)) tx.old.conn.now tx.new.conn.now result }
    ensures err { IfErr result (IsRefused ⊤) }
    ensures keeps { KeepsSchema S.Store tx.old.conn.now tx.new.conn.now result }
    ensures goes_on { StaysOpen S.Store tx.old.conn.now tx.new.conn.now result }
    ensures proceeds { Proceeds S.Store tx.old.conn.now tx.new.conn.now }
{
    let old = find_key(alloc, &declaration.fields, before)?;
    let new = find_key(alloc, &declaration.fields, after)?;
    replace_entry(tx, &declaration.number, id, &old, &new)?;
    Ok(())
}

/// Puts the new key of a document in the place of its old one, where they are not the same.
fn replace_entry<S: Alter>(
    tx: &mut Transaction<'_, S>,
    declaration: &i64,
    id: &[u8],
    old: &Option<Vec<u8>>,
    new: &Option<Vec<u8>>,
) -> Result<(), Error>
    ensures same_reference { tx.new.conn.ghost_name ≡ tx.old.conn.ghost_name }
    ensures replaces { ReplacesKey S.Store declaration.now id.now (option_map (λ bytes. bytes.items) old.now)
        (option_map (λ bytes. bytes.items) new.now) tx.old.conn.now tx.new.conn.now result }
    ensures keeps { KeepsSchema S.Store tx.old.conn.now tx.new.conn.now result }
    ensures goes_on { StaysOpen S.Store tx.old.conn.now tx.new.conn.now result }
    ensures proceeds { Proceeds S.Store tx.old.conn.now tx.new.conn.now }
{
    if are_same(old, new) {
        return Ok(());
    }
    remove_key(tx, declaration, id, old)?;
    add_key(tx, declaration, id, new)
}

/// Takes out the entry of the old key of a document, if it has one.
fn remove_key<S: Alter>(
    tx: &mut Transaction<'_, S>,
    declaration: &i64,
    id: &[u8],
    key: &Option<Vec<u8>>,
) -> Result<(), Error>
    ensures same_reference { tx.new.conn.ghost_name ≡ tx.old.conn.ghost_name }
    ensures replaces { ReplacesKey S.Store declaration.now id.now (option_map (λ bytes. bytes.items) key.now) None tx.old.conn.now tx.new.conn.now result }
    ensures keeps { KeepsSchema S.Store tx.old.conn.now tx.new.conn.now result }
    ensures goes_on { StaysOpen S.Store tx.old.conn.now tx.new.conn.now result }
    ensures proceeds { Proceeds S.Store tx.old.conn.now tx.new.conn.now }
{
    match key {
        Some(key) => delete_entry(tx, declaration, key, id),
        None => Ok(()),
    }
}

/// Puts in the entry of the new key of a document, if it has one.
fn add_key<S: Alter>(
    tx: &mut Transaction<'_, S>,
    declaration: &i64,
    id: &[u8],
    key: &Option<Vec<u8>>,
) -> Result<(), Error>
    ensures same_reference { tx.new.conn.ghost_name ≡ tx.old.conn.ghost_name }
    ensures replaces { ReplacesKey S.Store declaration.now id.now None (option_map (λ bytes. bytes.items) key.now) tx.old.conn.now tx.new.conn.now result }
    ensures keeps { KeepsSchema S.Store tx.old.conn.now tx.new.conn.now result }
    ensures goes_on { StaysOpen S.Store tx.old.conn.now tx.new.conn.now result }
    ensures proceeds { Proceeds S.Store tx.old.conn.now tx.new.conn.now }
{
    match key {
        Some(key) => insert_entry(tx, declaration, key, id),
        None => Ok(()),
    }
}
