//! Whether the columns of a table are those that this server gives it.

ghost use Rattle.std.specs.Prelude.{◌≡◌, ◌↔◌, ◌∷◌, [], IsTrue, codes};
ghost use Rattle.tables.specs.Schema as tables;
ghost use Rattle.tables.specs.Schema.{optional_column, required_column, strict_column};

use sqlite_schema::schema::{Column, Kind};
use sqlite_value::keys::Collation;
use sqlite_value::value::Value;

/// Tells whether a column is of this name and kind in a STRICT table, without a default.
fn is_strict(column: &Column, name: &str, kind: Kind, not_null: bool) -> bool
    ensures { IsTrue result ↔ (column.now ≡ strict_column name.now kind not_null) }
{
    column.name.as_slice() == name.as_bytes()
        && column.kind == kind
        && column.is_strict
        && column.not_null == not_null
        && matches!(column.default, Value::Null)
        && column.collation == Collation::Binary
}

/// Tells whether a column has a value of this kind in each row.
fn is_required(column: &Column, name: &str, kind: Kind) -> bool
    ensures { IsTrue result ↔ (column.now ≡ required_column name.now kind) }
{
    is_strict(column, name, kind, true)
}

/// Tells whether a column has a value of this kind, or NULL.
fn is_optional(column: &Column, name: &str, kind: Kind) -> bool
    ensures { IsTrue result ↔ (column.now ≡ optional_column name.now kind) }
{
    is_strict(column, name, kind, false)
}

/// Tells whether the columns are those of `meta`.
pub(crate) fn are_of_meta(columns: &[Column]) -> bool
    ensures { IsTrue result ↔ (columns.now ≡ tables.meta.columns) }
{
    match columns {
        [version] => is_required(version, "version", Kind::Integer),
        _ => false,
    }
}

/// Tells whether the columns are those of `dbs`.
pub(crate) fn are_of_dbs(columns: &[Column]) -> bool
    ensures { IsTrue result ↔ (columns.now ≡ tables.dbs.columns) }
{
    match columns {
        [num, name, sec, seq] => {
            is_optional(num, "num", Kind::Integer)
                && is_required(name, "name", Kind::Blob)
                && is_required(sec, "sec", Kind::Text)
                && is_required(seq, "seq", Kind::Integer)
        }
        _ => false,
    }
}

/// Tells whether the columns are those of `docs`.
pub(crate) fn are_of_docs(columns: &[Column]) -> bool
    ensures { IsTrue result ↔ (columns.now ≡ tables.docs.columns) }
{
    match columns {
        [db, id, listed @ ..] => {
            is_required(db, "db", Kind::Integer)
                && is_required(id, "id", Kind::Blob)
                && are_listed(listed)
        }
        _ => false,
    }
}

/// Tells whether the columns are those of `docs` behind its key: the sequence, and what lists show.
fn are_listed(columns: &[Column]) -> bool
    ensures { IsTrue result ↔ (columns.now ≡ required_column (codes "seq") Kind.Integer ∷ required_column (codes "winner") Kind.Text
        ∷ required_column (codes "del") Kind.Integer ∷ []) }
{
    match columns {
        [seq, winner, del] => {
            is_required(seq, "seq", Kind::Integer)
                && is_required(winner, "winner", Kind::Text)
                && is_required(del, "del", Kind::Integer)
        }
        _ => false,
    }
}

/// Tells whether the columns are those of `revs`.
pub(crate) fn are_of_revs(columns: &[Column]) -> bool
    ensures { IsTrue result ↔ (columns.now ≡ tables.revs.columns) }
{
    match columns {
        [db, id, n, hash, held @ ..] => {
            is_required(db, "db", Kind::Integer)
                && is_required(id, "id", Kind::Blob)
                && is_required(n, "n", Kind::Integer)
                && is_required(hash, "hash", Kind::Text)
                && are_held(held)
        }
        _ => false,
    }
}

/// Tells whether the columns are those of `revs` behind its key: the parent, and what is held.
fn are_held(columns: &[Column]) -> bool
    ensures { IsTrue result ↔ (columns.now ≡ optional_column (codes "parent") Kind.Text ∷ required_column (codes "held") Kind.Integer
        ∷ required_column (codes "del") Kind.Integer ∷ optional_column (codes "body") Kind.Text ∷ []) }
{
    match columns {
        [parent, held, del, body] => {
            is_optional(parent, "parent", Kind::Text)
                && is_required(held, "held", Kind::Integer)
                && is_required(del, "del", Kind::Integer)
                && is_optional(body, "body", Kind::Text)
        }
        _ => false,
    }
}

/// Tells whether the columns are those of `locals`.
pub(crate) fn are_of_locals(columns: &[Column]) -> bool
    ensures { IsTrue result ↔ (columns.now ≡ tables.locals.columns) }
{
    match columns {
        [db, id, n, body] => {
            is_required(db, "db", Kind::Integer)
                && is_required(id, "id", Kind::Blob)
                && is_required(n, "n", Kind::Integer)
                && is_required(body, "body", Kind::Text)
        }
        _ => false,
    }
}

/// Tells whether the columns are those of `decls`.
pub(crate) fn are_of_decls(columns: &[Column]) -> bool
    ensures { IsTrue result ↔ (columns.now ≡ tables.decls.columns) }
{
    match columns {
        [num, db, design, name, fields] => {
            is_optional(num, "num", Kind::Integer)
                && is_required(db, "db", Kind::Integer)
                && is_required(design, "ddoc", Kind::Blob)
                && is_required(name, "name", Kind::Blob)
                && is_required(fields, "fields", Kind::Text)
        }
        _ => false,
    }
}

/// Tells whether the columns are those of `entries`.
pub(crate) fn are_of_entries(columns: &[Column]) -> bool
    ensures { IsTrue result ↔ (columns.now ≡ tables.entries.columns) }
{
    match columns {
        [declaration, key, id] => {
            is_required(declaration, "decl", Kind::Integer)
                && is_required(key, "k", Kind::Blob)
                && is_required(id, "id", Kind::Blob)
        }
        _ => false,
    }
}
