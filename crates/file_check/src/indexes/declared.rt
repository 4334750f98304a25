//! The check of the rows of declarations.

ghost use Rattle.std.specs.Prelude.{option_map, string_bytes};
ghost use Rattle.sqlite_value.specs.Order as order;
ghost use Rattle.index.specs.Meaning.{declares_in};
ghost use Rattle.index.specs.Rows.{design_of, database_of_declaration, index_name_of_row};
ghost use Rattle.file_check.specs.inner.IndexRows.{IsNextRow};
ghost use Rattle.file_check.specs.Indexes.{IsAnswer, IsOwnDeclaration, Spells};
ghost use Rattle.file_check.specs.Checks.{Checks};
ghost use Rattle.file_check.specs.declared.indexes.indexed.Indexed.TheVariants as indexed;

use crate::finding::CheckFault;
use crate::indexes::cells::{are_same, blob_in, id_in, text_in, whole_in};
use crate::indexes::stored::{read_winning, spell_index};
use sqlite::{Alter, Connection, Row};
use std::alloc::Global;

/// Tells whether the row of a declaration says what the winner of its design document declares.
pub(crate) fn is_declared<S: Alter>(
    alloc: Global,
    conn: &mut Connection<S>,
    row: &Row,
) -> Result<bool, CheckFault>
    ensures { (r : order.Row) → Checks S.Store (IsNextRow indexed.Declarations row.now r) conn.old conn.new
        (λ trees is. IsAnswer (IsOwnDeclaration trees r) is) result }
{
    match spell_stored(alloc, conn, row)? {
        Some(text) => Ok(are_same(text.as_bytes(), text_in(row, 4))),
        None => Ok(false),
    }
}

/// Spells the fields with which the winner of its design document declares the index of a row; `None` where it
/// declares none of this name.
fn spell_stored<S: Alter>(
    alloc: Global,
    conn: &mut Connection<S>,
    row: &Row,
) -> Result<Option<String>, CheckFault>
    ensures { (r : order.Row)
        → Checks S.Store (IsNextRow indexed.Declarations row.now r) conn.old conn.new
        (λ trees text. Spells (declares_in trees (database_of_declaration r) (design_of r) (index_name_of_row r)) (option_map string_bytes text)) result }
{
    let Some(design) = id_in(alloc, row, 2)? else {
        return Ok(None);
    };
    let history = read_winning(alloc, conn, &whole_in(row, 1), &design)?;
    Ok(spell_index(alloc, &design, &history, blob_in(row, 3))?)
}
