//! The comparison of a schema with that of this server.

mod automatic;
mod columns;
mod each_table;

ghost use Rattle.std.specs.Prelude.{◌≡◌, ◌≢◌, MatchOption};
ghost use Rattle.tables.specs.Schema.{schema};
ghost use Rattle.file_check.specs.inner.Schemas.{all_tables, later_tables};

use crate::comparing::automatic::are_automatic;
use crate::comparing::each_table::{
    is_dbs, is_decls, is_docs, is_entries, is_locals, is_meta, is_revs,
};
use crate::finding::Table;
use sqlite_schema::schema::{Schema, Table as FoundTable};

/// Finds where a schema is another than that of this server: at the first table that is another, or at the
/// schema as a whole, where a table or an index is missing, or there is one more, or a view.
#[tactic(auto, using(crate::proofs::Schemas::tables_are, crate::proofs::Schemas::indexes_are, crate::proofs::Schemas::views_are))]
pub(crate) fn find_difference(found: &Schema) -> Option<Table>
    ensures { MatchOption result (found.now ≡ schema) (λ _. found.now ≢ schema) }
{
    if let Some(table) = find_other(found.tables.as_slice()) {
        return Some(table);
    }
    if are_automatic(found.indexes.as_slice()) && found.views.is_empty() {
        None
    } else {
        Some(Table::Schema)
    }
}

/// Finds the first table that is another, or the schema where there are not as many.
fn find_other(found: &[FoundTable]) -> Option<Table>
    ensures { MatchOption result (found.now ≡ all_tables) (λ _. found.now ≢ all_tables) }
{
    let [meta, dbs, docs, later @ ..] = found else {
        return Some(Table::Schema);
    };
    if later.len() != 4 {
        return Some(Table::Schema);
    }
    if !is_meta(meta) {
        return Some(Table::Meta);
    }
    if !is_dbs(dbs) {
        return Some(Table::Databases);
    }
    if !is_docs(docs) {
        return Some(Table::Documents);
    }
    find_later(later)
}

/// Finds the first table that is another among those behind `docs`.
fn find_later(found: &[FoundTable]) -> Option<Table>
    ensures { MatchOption result (found.now ≡ later_tables) (λ _. found.now ≢ later_tables) }
{
    let [revs, locals, decls, entries] = found else {
        return Some(Table::Schema);
    };
    if !is_revs(revs) {
        return Some(Table::Revisions);
    }
    if !is_locals(locals) {
        return Some(Table::Locals);
    }
    if !is_decls(decls) {
        return Some(Table::Declarations);
    }
    if !is_entries(entries) {
        return Some(Table::Entries);
    }
    None
}
