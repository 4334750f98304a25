//! Which indexes the database has that is known.

ghost use Rattle.std.specs.Prelude.{◌≡◌, Contains, bytes_eq, map, true};
ghost use Rattle.sqlite_trees.specs.Tree.{Trees};
ghost use Rattle.index.specs.Shown.{declared};
ghost use Rattle.sqlstore.specs.Standing.{IsKnown};
ghost use Rattle.sqlstore.specs.inner.Keys.{HasIndex};

use crate::known_database::KnownDatabase;
use couch_json::FieldPath;
use index::Declaration;

/// Tells whether the known database is the one of this number, and its indexes are known and this is one of
/// them.
pub(crate) fn has_index(
    known: &Option<KnownDatabase>,
    number: &i64,
    declaration: &Declaration,
) -> bool
    ensures { (trees : Trees) → IsKnown trees known.now → result ≡ true → HasIndex trees number.now (declared declaration.now) }
{
    let Some(known) = known else {
        return false;
    };
    if known.found.number != *number {
        return false;
    }
    match &known.indexes {
        Some(all) => is_among(declaration, all),
        None => false,
    }
}

/// Tells whether an index is among these.
fn is_among(declaration: &Declaration, all: &[Declaration]) -> bool
    ensures { result ≡ true → Contains (map declared all.now) (declared declaration.now) }
{
    for other in all {
        if is_same(other, declaration) {
            return true;
        }
    }
    false
}

/// Tells whether two indexes have the same number and the same fields.
fn is_same(declaration: &Declaration, other: &Declaration) -> bool
    ensures { result ≡ true → declared declaration.now ≡ declared other.now }
{
    declaration.number == other.number && are_same_fields(&declaration.fields, &other.fields)
}

/// Tells whether two indexes have the same fields, in the same order.
fn are_same_fields(fields: &[FieldPath], others: &[FieldPath]) -> bool
    ensures { result ≡ true → fields.now ≡ others.now }
{
    if fields.len() != others.len() {
        return false;
    }
    for place in 0..fields.len() {
        if !is_same_field(&fields[place], &others[place]) {
            return false;
        }
    }
    true
}

/// Tells whether two fields are the same.
fn is_same_field(field: &FieldPath, other: &FieldPath) -> bool
    ensures { result ≡ bytes_eq field.now other.now }
{
    field.as_str() == other.as_str()
}
