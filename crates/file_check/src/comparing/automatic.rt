//! Whether the indexes are those that SQLite makes for the keys of the tables.

ghost use Rattle.std.specs.Prelude.{◌≡◌, ◌↔◌, IsTrue, true};
ghost use Rattle.file_check.specs.inner.Schemas.{all_indexes, automatic_index, later_indexes};

use sqlite_schema::schema::Index;
use sqlite_value::keys::Order;

/// Tells whether an index is the one of this name that SQLite makes for a unique key.
fn is_automatic(found: &Index, name: &str, tree: u32, table: u32, key: &[usize]) -> bool
    ensures { IsTrue result ↔ (found.now ≡ automatic_index name.now tree table key.now) }
{
    found.name.as_slice() == name.as_bytes()
        && found.tree == tree
        && found.table == table
        && found.columns.as_slice() == key
        && found.order == Order::PLAIN
        && found.is_unique
}

/// Tells whether the indexes are those of the keys of this server's tables, and no other.
pub(crate) fn are_automatic(found: &[Index]) -> bool
    ensures { IsTrue result ↔ (found.now ≡ all_indexes) }
{
    match found {
        [names, documents, sequences, revisions, more @ ..] => {
            is_automatic(names, "sqlite_autoindex_dbs_1", 2, 1, &[2])
                && is_automatic(documents, "sqlite_autoindex_docs_1", 4, 3, &[1, 2])
                && is_automatic(sequences, "sqlite_autoindex_docs_2", 5, 3, &[1, 3])
                && is_automatic(revisions, "sqlite_autoindex_revs_1", 7, 6, &[1, 2, 3, 4])
                && are_later(more)
        }
        _ => false,
    }
}

/// Tells whether the indexes are those of local documents, of declarations and of entries.
fn are_later(found: &[Index]) -> bool
    ensures { IsTrue result ↔ (found.now ≡ later_indexes) }
{
    match found {
        [locals, declarations, entries] => {
            is_automatic(locals, "sqlite_autoindex_locals_1", 9, 8, &[1, 2])
                && is_automatic(declarations, "sqlite_autoindex_decls_1", 11, 10, &[2, 3, 4])
                && is_automatic(entries, "sqlite_autoindex_entries_1", 13, 12, &[1, 2, 3])
        }
        _ => false,
    }
}
