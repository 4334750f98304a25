//! The indexes of a design document, after another body of it is the winner's.

ghost use Rattle.std.specs.Prelude.{◌≡◌, ◌∷◌, ℕ, IfErr, IfOk, IfSome, List, Option, Some, filter, map, option_map, true, ⊤};
ghost use Rattle.std.specs.List.{AllByRecursion};
ghost use Rattle.couch_json.specs.View.{members_view, view};
ghost use Rattle.policy.specs.DesignDocuments.{is_index};
ghost use Rattle.store.specs.Indexes.{declared_index, fields_in};
ghost use Rattle.tables.specs.Calls.{IsServed, ReadsInside};
ghost use Rattle.tables.specs.Schema.{decls_tree};
ghost use Rattle.index.specs.Calls.{IsRefused};
ghost use Rattle.index.specs.Declaring.{ArePartly, ClearsIndex, DeclaresMissing, IsRebuildable};
ghost use Rattle.index.specs.Meaning.{Declarations, Documents, declared_if};
ghost use Rattle.index.specs.Rebuilding.{ClearsDesign, ClearsNames, DeclaresDesign, DeclaresNames, IsToDeclare, Rebuilds};
ghost use Rattle.index.specs.Rebuilding.{declared_names, has_good_indexes, is_of_design, names_of, shown_name};
ghost use Rattle.index.specs.Layout.{HasIndexRows};
ghost use Rattle.index.specs.Rows.{shown_declaration};
ghost use Rattle.index.specs.Shown.{IsShownDeclaration, declared};
ghost use Rattle.index.specs.Steps.{AreFit, WasFit};

use crate::declaration::Declaration;
use crate::declaring::{clear_index, declare_missing};
use crate::fault::IndexFault;
use crate::filling::fill_indexes;
use crate::reading::read_paths;
use couch_json::{FieldPath, Got, Json, NameMap};
use policy::check_indexes;
use sqlite::{Alter, Error, Row, Transaction, params};
use sqlite_value::value::ValueRef;
use std::alloc::Global;
use std::str;
use tables::statement::query_in;

/// Lets the indexes of a design document be those that its body declares, or none where it has no body:
/// what is not declared any more is taken out, and what is declared anew is filled.
pub fn rebuild<S: Alter>(
    alloc: Global,
    tx: &mut Transaction<'_, S>,
    db: &i64,
    design: &[u8],
    body: Option<&Json>,
) -> Result<(), IndexFault>
    ensures same_reference { tx.new.conn.ghost_name ≡ tx.old.conn.ghost_name }
    ensures rebuilds { Rebuilds S.Store db.now design.now (option_map (λ v. view v.now) body.entry) tx.old.conn.now tx.new.conn.now result }
    ensures err { (declares : Declarations) (sees : Documents)
        → IfErr result (IsRefused (WasFit S.Store (IsRebuildable declares sees db.now) tx.old.conn.now tx.new.conn.now)) }
{
    clear_design(alloc, tx, db, design, body)?;
    let mut fresh = Vec::new(alloc);
    declare_design(alloc, tx, db, design, body, &mut fresh)?;
    fill_indexes(alloc, tx, db, &fresh)
}

/// Takes out the indexes of a design document that its body declares with other fields, or doesn't declare.
pub fn clear_design<S: Alter>(
    alloc: Global,
    tx: &mut Transaction<'_, S>,
    db: &i64,
    design: &[u8],
    body: Option<&Json>,
) -> Result<(), IndexFault>
    ensures same_reference { tx.new.conn.ghost_name ≡ tx.old.conn.ghost_name }
    ensures clears { ClearsDesign S.Store db.now design.now (option_map (λ v. view v.now) body.entry) tx.old.conn.now tx.new.conn.now result }
    ensures served { IsServed S.Store tx.old.conn.now tx.new.conn.now result }
    ensures err { (declares : Declarations) (sees : Documents)
        → IfErr result (IsRefused (WasFit S.Store (IsRebuildable declares sees db.now) tx.old.conn.now tx.new.conn.now)) }
{
    let rows = rows_of_design(tx, db, design)?;
    let stored = list_stored(alloc, rows)?;
    let good = check_declared(alloc, body)?;
    clear_names(alloc, tx, db, design, body, good, &stored)
}

/// Declares the indexes of a design document that are missing as its body declares them. They are among the
/// fresh ones then, which have no entries.
pub fn declare_design<S: Alter>(
    alloc: Global,
    tx: &mut Transaction<'_, S>,
    db: &i64,
    design: &[u8],
    body: Option<&Json>,
    fresh: &mut Vec<Declaration>,
) -> Result<(), IndexFault>
    ensures same_reference { tx.new.conn.ghost_name ≡ tx.old.conn.ghost_name }
    ensures declares { DeclaresDesign S.Store db.now design.now (option_map (λ v. view v.now) body.entry) (map declared fresh.old.items)
        (map declared fresh.new.items) tx.old.conn.now tx.new.conn.now result }
    ensures err { (declares : Declarations) (sees : Documents)
        → IfErr result (IsRefused
        (AreFit S.Store (IsToDeclare declares sees db.now design.now (declared_if (option_map (λ v. view v.now) body.entry))
        (map declared fresh.old.items)) tx.old.conn.now tx.new.conn.now)) }
{
    let names = list_declared(alloc, body)?;
    let good = check_declared(alloc, body)?;
    declare_names(alloc, tx, db, design, body, good, &names, fresh)
}

/// Returns the rows of the indexes that a design document declares, by their numbers: the number, the name
/// and the fields.
fn rows_of_design<S: Alter>(
    tx: &mut Transaction<'_, S>,
    db: &i64,
    design: &[u8],
) -> Result<Vec<Row>, Error>
    ensures same_reference { tx.new.conn.ghost_name ≡ tx.old.conn.ghost_name }
    ensures reads { ReadsInside S.Store HasIndexRows tx.old.conn.now tx.new.conn.now
        (λ trees rows. rows.items ≡ map shown_declaration (filter (is_of_design db.now design.now) (trees decls_tree))) result }
{
    query_in(
        tx,
        "SELECT num, name, fields FROM decls WHERE db = ?1 AND ddoc = ?2 ORDER BY num",
        params![db, design],
    )
}

/// Checks once for all names whether the indexes of a body are of their form.
fn check_declared(alloc: Global, body: Option<&Json>) -> Got<bool>
    ensures { IfOk result (λ good. good ≡ has_good_indexes (option_map (λ v. view v.now) body.entry)) }
{
    match body {
        Some(body) => check_indexes(alloc, body.member("indexes")),
        None => Ok(true),
    }
}

/// Lists the names of the indexes of these rows. A row's memory is given back once its name is read.
fn list_stored(alloc: Global, rows: Vec<Row>) -> Result<Vec<Vec<u8>>, IndexFault>
    ensures ok { IfOk result (λ names. map (λ name. name.items) names.items ≡ map shown_name rows.items) }
    ensures err { IfErr result (IsRefused (AllByRecursion IsShownDeclaration rows.items)) }
{
    let mut names = Vec::with_capacity(alloc, rows.len())?;
    for row in rows {
        names.push(read_name(alloc, &row)?)?;
    }
    Ok(names)
}

/// Reads the name of the index of a row.
fn read_name(alloc: Global, row: &Row) -> Result<Vec<u8>, IndexFault>
    ensures ok { IfOk result (λ name. name.items ≡ shown_name row.now) }
    ensures err { IfErr result (IsRefused (IsShownDeclaration row.now)) }
{
    match row.get_ref(1) {
        Ok(ValueRef::Blob(bytes)) => Ok(copy_bytes(alloc, bytes)?),
        _ => Err(IndexFault::Damaged),
    }
}

fn copy_bytes(alloc: Global, bytes: &[u8]) -> Got<Vec<u8>>
    ensures { IfOk result (λ copy. copy.items ≡ bytes.now) }
{
    let mut copy = Vec::new(alloc);
    copy.extend_from_slice(bytes)?;
    Ok(copy)
}

/// Lists the names under which a body may declare indexes.
fn list_declared(alloc: Global, body: Option<&Json>) -> Got<Vec<Vec<u8>>>
    ensures { IfOk result (λ names. map (λ name. name.items) names.items ≡ declared_names (option_map (λ v. view v.now) body.entry)) }
{
    let Some(body) = body else {
        return Ok(Vec::new(alloc));
    };
    let Some(indexes) = body.member("indexes") else {
        return Ok(Vec::new(alloc));
    };
    match indexes {
        Json::Object(members) => list_names(alloc, members),
        _ => Ok(Vec::new(alloc)),
    }
}

/// Lists the names of members.
fn list_names(alloc: Global, members: &NameMap<Json>) -> Got<Vec<Vec<u8>>>
    ensures { IfOk result (λ names. map (λ name. name.items) names.items ≡ names_of (members_view members.now.entries)) }
{
    let mut names = Vec::new(alloc);
    for (name, _index) in members.as_slice() {
        names.push(copy_bytes(alloc, name.as_bytes())?)?;
    }
    Ok(names)
}

/// Takes out the indexes of these names of a design document that have other fields than its body declares.
fn clear_names<S: Alter>(
    alloc: Global,
    tx: &mut Transaction<'_, S>,
    db: &i64,
    design: &[u8],
    body: Option<&Json>,
    good: bool,
    names: &[Vec<u8>],
) -> Result<(), IndexFault>
    requires { good ≡ has_good_indexes (option_map (λ v. view v.now) body) }
    ensures same_reference { tx.new.conn.ghost_name ≡ tx.old.conn.ghost_name }
    ensures clears { ClearsNames S.Store db.now design.now (option_map (λ v. view v.now) body.entry)
        (map (λ name. name.items) names.now) tx.old.conn.now tx.new.conn.now result }
    ensures err { (declares : Declarations) (sees : Documents)
        → IfErr result (IsRefused (AreFit S.Store (IsRebuildable declares sees db.now) tx.old.conn.now tx.new.conn.now)) }
{
    for name in names {
        clear_name(alloc, tx, db, design, body, good, name)?;
    }
    Ok(())
}

/// Takes out the index of this name of a design document, where it has other fields than its body declares.
fn clear_name<S: Alter>(
    alloc: Global,
    tx: &mut Transaction<'_, S>,
    db: &i64,
    design: &[u8],
    body: Option<&Json>,
    good: bool,
    name: &[u8],
) -> Result<(), IndexFault>
    requires { good ≡ has_good_indexes (option_map (λ v. view v.now) body) }
    ensures same_reference { tx.new.conn.ghost_name ≡ tx.old.conn.ghost_name }
    ensures clears { ClearsIndex S.Store db.now design.now name.now
        (declared_if (option_map (λ v. view v.now) body.entry) name.now) tx.old.conn.now tx.new.conn.now result }
    ensures err { (declares : Declarations) (sees : Documents)
        → IfErr result (IsRefused (AreFit S.Store (IsRebuildable declares sees db.now) tx.old.conn.now tx.new.conn.now)) }
{
    let fields = read_declared(alloc, body, good, name)?;
    clear_index(alloc, tx, db, design, name, &fields)
}

/// Declares the indexes of these names of a design document that are missing as its body declares them.
/// They are among the fresh ones then, which have no entries.
fn declare_names<S: Alter>(
    alloc: Global,
    tx: &mut Transaction<'_, S>,
    db: &i64,
    design: &[u8],
    body: Option<&Json>,
    good: bool,
    names: &[Vec<u8>],
    fresh: &mut Vec<Declaration>,
) -> Result<(), IndexFault>
    requires { good ≡ has_good_indexes (option_map (λ v. view v.now) body) }
    ensures same_reference { tx.new.conn.ghost_name ≡ tx.old.conn.ghost_name }
    ensures declares { DeclaresNames S.Store db.now design.now (option_map (λ v. view v.now) body.entry) (map (λ name. name.items) names.now)
        (map declared fresh.old.items) (map declared fresh.new.items) tx.old.conn.now tx.new.conn.now result }
    ensures err { (declares : Declarations) (sees : Documents)
        → IfErr result (IsRefused
        (AreFit S.Store (ArePartly declares sees db.now design.now (declared_if (option_map (λ v. view v.now) body.entry))
        (map (λ name. name.items) names.now) (map declared fresh.old.items)) tx.old.conn.now tx.new.conn.now)) }
{
    for name in names {
        declare_name(alloc, tx, db, design, body, good, name, fresh)?;
    }
    Ok(())
}

/// Declares the index of this name of a design document as its body declares it, where it is missing.
fn declare_name<S: Alter>(
    alloc: Global,
    tx: &mut Transaction<'_, S>,
    db: &i64,
    design: &[u8],
    body: Option<&Json>,
    good: bool,
    name: &[u8],
    fresh: &mut Vec<Declaration>,
) -> Result<(), IndexFault>
    requires { good ≡ has_good_indexes (option_map (λ v. view v.now) body) }
    ensures same_reference { tx.new.conn.ghost_name ≡ tx.old.conn.ghost_name }
    ensures declares { DeclaresMissing S.Store db.now design.now name.now (declared_if (option_map (λ v. view v.now) body.entry) name.now)
        (map declared fresh.old.items) (map declared fresh.new.items) tx.old.conn.now tx.new.conn.now result }
    ensures err { (declares : Declarations) (sees : Documents) (f : List ℕ → Option (List (List ℕ))) (left : List (List ℕ))
        → IfErr result (IsRefused
        (AreFit S.Store (ArePartly declares sees db.now design.now f (name.now ∷ left) (map declared fresh.old.items)) tx.old.conn.now tx.new.conn.now)) }
{
    let fields = read_declared(alloc, body, good, name)?;
    declare_missing(alloc, tx, db, design, name, &fields, fresh)
}

/// Reads the fields of the index that a body declares under this name, where there is a body. No body
/// has a name that is not UTF-8.
fn read_declared(
    alloc: Global,
    body: Option<&Json>,
    good: bool,
    name: &[u8],
) -> Result<Option<Vec<FieldPath>>, IndexFault>
    requires { good ≡ has_good_indexes (option_map (λ v. view v.now) body) }
    ensures ok { IfOk result (λ fields. option_map (λ paths. paths.items) fields ≡ declared_if (option_map (λ v. view v.now) body.entry) name.now) }
    ensures err { IfErr result (IsRefused ⊤) }
{
    let Some(body) = body else {
        return Ok(None);
    };
    let Ok(text) = str::from_utf8(name) else {
        return Ok(None);
    };
    match find_index(body, good, text) {
        Some(index) => Ok(Some(read_index(alloc, index)?)),
        None => Ok(None),
    }
}

/// Finds the index that a body declares under this name, where its indexes are of their form.
fn find_index<'a>(body: &'a Json, good: bool, name: &str) -> Option<&'a Json>
    requires { good ≡ has_good_indexes (Some (view body.now)) }
    ensures declared { option_map (λ v. view v.now) result ≡ declared_index (view body.now) name.now }
    ensures formed { IfSome result (λ v. is_index (view v.now) ≡ true) }
{
    if !good {
        return None;
    }
    let Some(indexes) = body.member("indexes") else {
        return None;
    };
    match indexes.member(name) {
        Some(index) => Some(index),
        None => None,
    }
}

/// Reads the fields of an index.
fn read_index(alloc: Global, index: &Json) -> Result<Vec<FieldPath>, IndexFault>
    ensures ok { IfOk result (λ paths. paths.items ≡ fields_in (view index.now)) }
    ensures err { IfErr result (IsRefused (is_index (view index.now) ≡ true)) }
{
    match index.member("fields") {
        Some(Json::Array(fields)) => read_paths(alloc, fields),
        _ => Ok(Vec::new(alloc)),
    }
}
