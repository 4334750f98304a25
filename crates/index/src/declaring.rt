//! One index more, and one fewer.

ghost use Rattle.std.specs.Prelude.{◌≡◌, ◌∷◌, ℕ, IfErr, IfOk, IsUtf8, List, Option, Some, filter, map, option_map, string_bytes, true};
ghost use Rattle.std.specs.List.{AllByRecursion};
ghost use Rattle.couch_json.specs.FieldPath.{is_field_path};
ghost use Rattle.couch_json.specs.Value.{array, text};
ghost use Rattle.couch_json.specs.View.{items_view, view};
ghost use Rattle.tables.specs.Calls.{AsksInside, LooksInside, ReadsInside, KeepsConnection};
ghost use Rattle.sqlite_value.specs.Order as order;
ghost use Rattle.index.specs.Calls.{IsRefused};
ghost use Rattle.index.specs.Declaring.{AddsFresh, ArePartly, ClearsIndex, Declares, DeclaresMissing, FindsDeclared, FindsStored};
ghost use Rattle.index.specs.Declaring.{HasDeclared, IsMissing, IsRebuildable, TakesOut, TellsDeclared, Undeclares};
ghost use Rattle.index.specs.Layout.{HasIndexRows};
ghost use Rattle.index.specs.Meaning.{Declarations, Documents};
ghost use Rattle.index.specs.Steps.{AreFit};
ghost use Rattle.index.specs.Shown.{declared};
ghost use Rattle.index.specs.Rows.{fields_text, is_declaration_of, path_items, shown_declaration};
ghost use Rattle.tables.specs.Schema.{decls_tree};

use crate::declaration::Declaration;
use crate::declarations::{delete_declaration, insert_declaration};
use crate::entries::clear_entries;
use crate::fault::IndexFault;
use crate::finding::first_declaration;
use couch_json::{FieldPath, Got, Json, canon};
use sqlite::{Alter, Error, Row, Transaction, params};
use std::alloc::Global;
use tables::statement::query_in;

/// Takes out the index of this number, and its entries.
pub(crate) fn undeclare<S: Alter>(tx: &mut Transaction<'_, S>, number: &i64) -> Result<(), Error>
    ensures same_reference { tx.new.conn.ghost_name ≡ tx.old.conn.ghost_name }
    ensures undeclares { Undeclares S.Store number.now tx.old.conn.now tx.new.conn.now result }
{
    clear_entries(tx, number)?;
    delete_declaration(tx, number)
}

/// Declares an index under the next number. It has no entries.
fn declare<S: Alter>(
    alloc: Global,
    tx: &mut Transaction<'_, S>,
    db: &i64,
    design: &[u8],
    name: &[u8],
    fields: &[FieldPath],
) -> Result<Declaration, IndexFault>
    ensures same_reference { tx.new.conn.ghost_name ≡ tx.old.conn.ghost_name }
    ensures paths { AllByRecursion (λ path. (is_field_path path ≡ true) × IsUtf8 path) fields.now }
    ensures declares { Declares S.Store db.now design.now name.now fields.now tx.old.conn.now tx.new.conn.now result }
    ensures tells { TellsDeclared S.Store db.now design.now name.now fields.now tx.old.conn.now tx.new.conn.now result }
    ensures err { IfErr result (IsRefused (AreFit S.Store (IsMissing db.now design.now name.now) tx.old.conn.now tx.new.conn.now)) }
{
    walk_fields(fields);
    let text = spell_fields(alloc, fields)?;
    insert_declaration(tx, db, design, name, text.as_str())?;
    find_declared(alloc, tx, db, design, name)
}

/// Returns the row of the index of this name that a design document declares, if there is one, in a
/// transaction.
fn rows_of_index_in<S: Alter>(
    tx: &mut Transaction<'_, S>,
    db: &i64,
    design: &[u8],
    name: &[u8],
) -> Result<Vec<Row>, Error>
    ensures same_reference { tx.new.conn.ghost_name ≡ tx.old.conn.ghost_name }
    ensures reads { ReadsInside S.Store HasIndexRows tx.old.conn.now tx.new.conn.now
        (λ trees rows. rows.items ≡ map shown_declaration (filter (is_declaration_of db.now design.now name.now) (trees decls_tree))) result }
{
    query_in(
        tx,
        "SELECT num, name, fields FROM decls WHERE db = ?1 AND ddoc = ?2 AND name = ?3",
        params![db, design, name],
    )
}

/// Takes out an index where it has other fields than these, or where there are none.
pub(crate) fn clear_index<S: Alter>(
    alloc: Global,
    tx: &mut Transaction<'_, S>,
    db: &i64,
    design: &[u8],
    name: &[u8],
    fields: &Option<Vec<FieldPath>>,
) -> Result<(), IndexFault>
    ensures same_reference { tx.new.conn.ghost_name ≡ tx.old.conn.ghost_name }
    ensures clears { ClearsIndex S.Store db.now design.now name.now (option_map (λ paths. paths.items) fields.now) tx.old.conn.now tx.new.conn.now result }
    ensures err { (declares : Declarations) (sees : Documents)
        → IfErr result (IsRefused (AreFit S.Store (IsRebuildable declares sees db.now) tx.old.conn.now tx.new.conn.now)) }
{
    let found = find_stored(alloc, tx, db, design, name)?;
    if is_declared_so(&found, fields) {
        return Ok(());
    }
    take_out(tx, db, design, name, &found)?;
    Ok(())
}

/// Declares an index where it is missing and is to have fields. It is one more of the fresh ones, which
/// have no entries.
pub(crate) fn declare_missing<S: Alter>(
    alloc: Global,
    tx: &mut Transaction<'_, S>,
    db: &i64,
    design: &[u8],
    name: &[u8],
    fields: &Option<Vec<FieldPath>>,
    fresh: &mut Vec<Declaration>,
) -> Result<(), IndexFault>
    ensures same_reference { tx.new.conn.ghost_name ≡ tx.old.conn.ghost_name }
    ensures declares { DeclaresMissing S.Store db.now design.now name.now (option_map (λ paths. paths.items) fields.now)
        (map declared fresh.old.items) (map declared fresh.new.items) tx.old.conn.now tx.new.conn.now result }
    ensures err { (declares : Declarations) (sees : Documents) (f : List ℕ → Option (List (List ℕ))) (left : List (List ℕ))
        → IfErr result (IsRefused
        (AreFit S.Store (ArePartly declares sees db.now design.now f (name.now ∷ left) (map declared fresh.old.items)) tx.old.conn.now tx.new.conn.now)) }
{
    match fields {
        Some(fields) => declare_wanted(alloc, tx, db, design, name, fields, fresh),
        None => Ok(()),
    }
}

/// Declares an index with these fields, where it is missing.
fn declare_wanted<S: Alter>(
    alloc: Global,
    tx: &mut Transaction<'_, S>,
    db: &i64,
    design: &[u8],
    name: &[u8],
    fields: &[FieldPath],
    fresh: &mut Vec<Declaration>,
) -> Result<(), IndexFault>
    ensures same_reference { tx.new.conn.ghost_name ≡ tx.old.conn.ghost_name }
    ensures declares { DeclaresMissing S.Store db.now design.now name.now (Some fields.now) (map declared fresh.old.items)
        (map declared fresh.new.items) tx.old.conn.now tx.new.conn.now result }
    ensures err { (declares : Declarations) (sees : Documents) (f : List ℕ → Option (List (List ℕ))) (left : List (List ℕ))
        → IfErr result (IsRefused
        (AreFit S.Store (ArePartly declares sees db.now design.now f (name.now ∷ left) (map declared fresh.old.items)) tx.old.conn.now tx.new.conn.now)) }
{
    let found = find_stored(alloc, tx, db, design, name)?;
    match found {
        Some(_stored) => Ok(()),
        None => add_fresh(alloc, tx, db, design, name, fields, fresh),
    }
}

/// Declares an index with these fields, which is missing.
fn add_fresh<S: Alter>(
    alloc: Global,
    tx: &mut Transaction<'_, S>,
    db: &i64,
    design: &[u8],
    name: &[u8],
    fields: &[FieldPath],
    fresh: &mut Vec<Declaration>,
) -> Result<(), IndexFault>
    ensures same_reference { tx.new.conn.ghost_name ≡ tx.old.conn.ghost_name }
    ensures adds { AddsFresh S.Store db.now design.now name.now fields.now (map declared fresh.old.items)
        (map declared fresh.new.items) tx.old.conn.now tx.new.conn.now result }
    ensures err { IfErr result (IsRefused (AreFit S.Store (IsMissing db.now design.now name.now) tx.old.conn.now tx.new.conn.now)) }
{
    let declaration = declare(alloc, tx, db, design, name, fields)?;
    fresh.push(declaration)?;
    Ok(())
}

/// Tells whether the index that was found has these fields, or is missing where there are none.
fn is_declared_so(found: &Option<Declaration>, fields: &Option<Vec<FieldPath>>) -> bool
    ensures { result ≡ true → option_map (λ d. (declared d).fields) found.now ≡ option_map (λ paths. paths.items) fields.now }
{
    match (found, fields) {
        (Some(declaration), Some(fields)) => are_same_paths(&declaration.fields, fields),
        (None, None) => true,
        _ => false,
    }
}

/// Tells whether these are the same paths.
fn are_same_paths(a: &[FieldPath], b: &[FieldPath]) -> bool
    ensures { result ≡ true → a.now ≡ b.now }
{
    if a.len() != b.len() {
        return false;
    }
    for (i, path) in a.iter().enumerate() {
        if path.as_str() != b[i].as_str() {
            return false;
        }
    }
    true
}

/// Takes out the index that was found, if there is one.
fn take_out<S: Alter>(
    tx: &mut Transaction<'_, S>,
    db: &i64,
    design: &[u8],
    name: &[u8],
    found: &Option<Declaration>,
) -> Result<(), Error>
    ensures same_reference { tx.new.conn.ghost_name ≡ tx.old.conn.ghost_name }
    ensures takes { TakesOut S.Store db.now design.now name.now (option_map declared found.now) tx.old.conn.now tx.new.conn.now result }
{
    match found {
        Some(declaration) => undeclare(tx, &declaration.number),
        None => Ok(()),
    }
}

/// Finds the declaration of an index, if it is declared, in a transaction.
fn find_stored<S: Alter>(
    alloc: Global,
    tx: &mut Transaction<'_, S>,
    db: &i64,
    design: &[u8],
    name: &[u8],
) -> Result<Option<Declaration>, IndexFault>
    ensures same_reference { tx.new.conn.ghost_name ≡ tx.old.conn.ghost_name }
    ensures finds { FindsStored S.Store db.now design.now name.now tx.old.conn.now tx.new.conn.now result }
    ensures err { IfErr result (IsRefused (AreFit S.Store HasIndexRows tx.old.conn.now tx.new.conn.now)) }
    ensures stands { KeepsConnection S.Store tx.old.conn.now tx.new.conn.now result }
    ensures looks { LooksInside S.Store tx.old.conn.now tx.new.conn.now }
    ensures asks { AsksInside S.Store tx.old.conn.now tx.new.conn.now }
{
    let rows = rows_of_index_in(tx, db, design, name)?;
    first_declaration(alloc, &rows)
}

/// Finds the declaration of an index that is declared.
fn find_declared<S: Alter>(
    alloc: Global,
    tx: &mut Transaction<'_, S>,
    db: &i64,
    design: &[u8],
    name: &[u8],
) -> Result<Declaration, IndexFault>
    ensures same_reference { tx.new.conn.ghost_name ≡ tx.old.conn.ghost_name }
    ensures finds { FindsDeclared S.Store db.now design.now name.now tx.old.conn.now tx.new.conn.now result }
    ensures err { (d : order.Row) → IfErr result (IsRefused (AreFit S.Store (HasDeclared db.now design.now name.now d) tx.old.conn.now tx.new.conn.now)) }
    ensures stands { KeepsConnection S.Store tx.old.conn.now tx.new.conn.now result }
    ensures looks { LooksInside S.Store tx.old.conn.now tx.new.conn.now }
    ensures asks { AsksInside S.Store tx.old.conn.now tx.new.conn.now }
{
    let rows = rows_of_index_in(tx, db, design, name)?;
    match first_declaration(alloc, &rows)? {
        Some(declaration) => Ok(declaration),
        None => Err(IndexFault::Damaged),
    }
}

/// Spells the fields of an index as the canonical text of their list.
fn spell_fields(alloc: Global, fields: &[FieldPath]) -> Got<String>
    ensures { IfOk result (λ text. string_bytes text ≡ fields_text fields.now) }
{
    let list = list_fields(alloc, fields)?;
    canon(alloc, &list)
}

/// Makes the list of the fields.
fn list_fields(alloc: Global, fields: &[FieldPath]) -> Got<Json>
    ensures { IfOk result (λ list. view list ≡ array (path_items fields.now)) }
{
    let mut items = Vec::with_capacity(alloc, fields.len())?;
    for field in fields {
        let path = String::from_str(alloc, field.as_str())?;
        items.push(make_text(path))?;
    }
    Ok(make_list(items))
}

/// Makes the value of a text.
fn make_text(bytes: String) -> Json
    ensures { view result ≡ text (string_bytes bytes) }
{
    Json::Text(bytes)
}

/// Makes the value of a list.
fn make_list(items: Vec<Json>) -> Json
    ensures { view result ≡ array (items_view items.items) }
{
    Json::Array(items)
}

/// Looks at each field, and does nothing else: each is a path.
fn walk_fields(fields: &[FieldPath])
    ensures { AllByRecursion (λ path. (is_field_path path ≡ true) × IsUtf8 path) fields.now }
{
    for field in fields {
        let text = field.as_str();
        prove!(text.len() <= text.len());
    }
}
