//! What the statements find of an index, and of an entry.

ghost use Rattle.std.specs.Prelude.{◌≡◌, IfOk, find, is_some, option_map, slice_get};
ghost use Rattle.couch_json.specs.View.{view};
ghost use Rattle.tables.specs.Schema.{decls_tree, entries_tree};
ghost use Rattle.index.specs.Layout.{HasIndexRows};
ghost use Rattle.index.specs.Meaning.{key_at};
ghost use Rattle.index.specs.Rows.{has_entry, is_declaration_of};
ghost use Rattle.index.specs.Shown.{declared, declared_at};
ghost use Rattle.file_check.specs.inner.IndexRows.{TellsFound};
ghost use Rattle.file_check.specs.Checks.{Checks};

use crate::finding::CheckFault;
use crate::indexes::statements::entry_rows;
use couch_json::{FieldPath, Got, Json, key_bytes};
use index::{Declaration, IndexFault, find_decl};
use sqlite::{Alter, Connection, Row};
use std::alloc::Global;
use store::values_at;

/// Finds the declaration of an index; `None` where there is none, and where its row is not laid out.
pub(crate) fn find_index<S: Alter>(
    alloc: Global,
    conn: &mut Connection<S>,
    db: &i64,
    design: &[u8],
    name: &[u8],
) -> Result<Option<Declaration>, CheckFault>
    ensures { Checks S.Store HasIndexRows conn.old conn.new
        (λ trees found. option_map declared found ≡ option_map declared_at (find (is_declaration_of db.now design.now name.now) (trees decls_tree))) result }
{
    tell_found(find_decl(alloc, conn, db, design, name))
}

/// Tells what was found of an index; nothing where its row is not laid out.
fn tell_found(
    found: Result<Option<Declaration>, IndexFault>,
) -> Result<Option<Declaration>, CheckFault>
    ensures { TellsFound found result }
{
    match found {
        Ok(found) => Ok(found),
        Err(IndexFault::Damaged) => Ok(None),
        Err(IndexFault::Memory) => Err(CheckFault::Memory),
        Err(IndexFault::Sqlite(error)) => Err(CheckFault::Sqlite(error)),
    }
}

/// Tells whether an index has this entry.
pub(crate) fn is_entered<S: Alter>(
    conn: &mut Connection<S>,
    declaration: &i64,
    key: &[u8],
    id: &[u8],
) -> Result<bool, CheckFault>
    ensures { Checks S.Store HasIndexRows conn.old conn.new (λ trees is. is ≡ has_entry (trees entries_tree) declaration.now key.now id.now) result }
{
    let rows = entry_rows(conn, declaration, key, id)?;
    Ok(has_row(&rows))
}

/// Tells whether there is a row.
fn has_row(rows: &[Row]) -> bool
    ensures { result ≡ is_some (slice_get rows.now 0) }
{
    rows.first().is_some()
}

/// Makes the bytes of the key that a document has in an index of these fields; `None` where it lacks one of them.
pub(crate) fn make_key(alloc: Global, fields: &[FieldPath], document: &Json) -> Got<Option<Vec<u8>>>
    ensures { IfOk result (λ made. option_map (λ bytes. bytes.items) made ≡ key_at fields.now (view document.now)) }
{
    match values_at(alloc, fields, document)? {
        Some(values) => {
            let key = Json::Array(values);
            Ok(Some(key_bytes(alloc, &key)?))
        }
        None => Ok(None),
    }
}
