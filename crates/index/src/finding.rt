//! The declaration of an index, as it is found.

ghost use Rattle.std.specs.Prelude.{◌≡◌, IfErr, IfOk, find, option_map, slice_get};
ghost use Rattle.std.specs.List.{AllByRecursion};
ghost use Rattle.sqlite.specs.Held.{state};
ghost use Rattle.sqlite.specs.State.{HasCleanDisk};
ghost use Rattle.tables.specs.Calls.{IsServed, KeepsConnection};
ghost use Rattle.tables.specs.Schema.{decls_tree, schema};
ghost use Rattle.tables.specs.Steps.{Asks, OnlyLooks};
ghost use Rattle.index.specs.Calls.{IsRefused, IsSound};
ghost use Rattle.index.specs.Layout.{HasIndexRows};
ghost use Rattle.index.specs.Rows.{is_declaration_of};
ghost use Rattle.index.specs.Shown.{IsShownDeclaration, declared, declared_at, declared_shown};

use crate::declaration::Declaration;
use crate::declarations::rows_of_index;
use crate::fault::IndexFault;
use crate::reading::read_declaration;
use sqlite::{Alter, Connection, Row};
use std::alloc::Global;

/// Finds the declaration of an index; `None` where the design document declares none of this name.
pub fn find_decl<S: Alter>(
    alloc: Global,
    conn: &mut Connection<S>,
    db: &i64,
    design: &[u8],
    name: &[u8],
) -> Result<Option<Declaration>, IndexFault>
    ensures ok { HasCleanDisk (state S.Store conn.new) → HasIndexRows (state S.Store conn.old).now
        → IfOk result (λ found. option_map declared found ≡ option_map declared_at
        (find (is_declaration_of db.now design.now name.now) ((state S.Store conn.old).now.trees decls_tree))) }
    ensures err { IfErr result (IsRefused (IsSound S.Store conn.old conn.new)) }
    ensures served { IsServed S.Store conn.old conn.new result }
    ensures stands { KeepsConnection S.Store conn.old conn.new result }
    ensures looks { conn.old.schema ≡ schema → OnlyLooks (state S.Store conn.old) (state S.Store conn.new) }
    ensures asks { Asks (state S.Store conn.old) (state S.Store conn.new) }
{
    let rows = rows_of_index(conn, db, design, name)?;
    first_declaration(alloc, &rows)
}

/// Reads the declaration of the first row, if there is one.
pub(crate) fn first_declaration(
    alloc: Global,
    rows: &[Row],
) -> Result<Option<Declaration>, IndexFault>
    ensures ok { IfOk result (λ found. option_map declared found ≡ option_map declared_shown (slice_get rows.now 0)) }
    ensures err { IfErr result (IsRefused (AllByRecursion IsShownDeclaration rows.now)) }
{
    match rows.first() {
        Some(row) => Ok(Some(read_declaration(alloc, row)?)),
        None => Ok(None),
    }
}
