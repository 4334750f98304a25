//! Whether the tables are there, and their version.

ghost use Rattle.std.specs.Prelude.{◌≡◌, ◌↔◌, [], false, true, IfErr, IsPermutation, map};
ghost use Rattle.sqlite.specs.Held.{state};
ghost use Rattle.sqlite.specs.State.{FailsToQuery, HasCleanDisk};
ghost use Rattle.tables.specs.Calls.{Reads};
ghost use Rattle.tables.specs.Presence.{has_all, has_any, has_table, shown_version, version_in, version_shown, version_text};
ghost use Rattle.tables.specs.Schema as tables;
ghost use Rattle.tables.specs.Schema.{meta_tree};

use crate::statement::query;
use sqlite::{Alter, Connection, Error, Row};
use sqlite_schema::schema::Schema;
use sqlite_value::value::ValueRef;

/// Which of the tables a schema has.
#[derive(Clone, Copy, PartialEq, Eq)]
pub enum FoundTables {
    /// There is nothing at all.
    Nothing = 1,
    /// There are others, and none of these.
    Others = 2,
    /// There are some of these, and some are missing.
    Part = 3,
    /// There are all of these.
    All = 4,
}

/// The version of a file.
#[derive(Clone, Copy, PartialEq, Eq)]
pub enum FileVersion {
    /// It is the first one, whose rows of indexes are of an earlier layout.
    First = 1,
    /// It is the second one, which this server writes.
    Second = 2,
    /// There is another number, or not one row.
    Other = 3,
}

/// Tells which of the tables a schema has, by their names.
pub fn tables_in(schema: &Schema) -> FoundTables
    ensures nothing { result ≡ FoundTables.Nothing ↔ schema.now ≡ tables.no_schema }
    ensures others { result ≡ FoundTables.Others → has_any schema.now ≡ false }
    ensures part { result ≡ FoundTables.Part ↔ ((has_any schema.now ≡ true) × (has_all schema.now ≡ false)) }
    ensures all { result ≡ FoundTables.All ↔ has_all schema.now ≡ true }
{
    if has_all(schema) {
        return FoundTables::All;
    }
    if has_any(schema) {
        return FoundTables::Part;
    }
    if is_blank(schema) {
        FoundTables::Nothing
    } else {
        FoundTables::Others
    }
}

/// Reads the version of a file, which stands in the one row of `meta`.
pub fn read_version<S: Alter>(conn: &mut Connection<S>) -> Result<FileVersion, Error>
    ensures reads { Reads S.Store (λ db. db.schema ≡ tables.schema) conn.old conn.new (λ trees version. version ≡ version_in (trees meta_tree)) result }
    // Nothing but that statement fails.
    ensures failed { HasCleanDisk (state S.Store conn.new) → IfErr result (FailsToQuery version_text [] (state S.Store conn.old) (state S.Store conn.new)) }
{
    let rows = version_rows(conn)?;
    Ok(version_of(&rows))
}

fn has_table(schema: &Schema, name: &str) -> bool
    ensures { result ≡ has_table schema.now name.now }
{
    schema.table_named(name.as_bytes()).is_some()
}

fn has_all(schema: &Schema) -> bool
    ensures { result ≡ has_all schema.now }
{
    has_table(schema, "meta")
        && has_table(schema, "dbs")
        && has_table(schema, "docs")
        && has_table(schema, "revs")
        && has_table(schema, "locals")
        && has_table(schema, "decls")
        && has_table(schema, "entries")
}

fn has_any(schema: &Schema) -> bool
    ensures { result ≡ has_any schema.now }
{
    has_table(schema, "meta")
        || has_table(schema, "dbs")
        || has_table(schema, "docs")
        || has_table(schema, "revs")
        || has_table(schema, "locals")
        || has_table(schema, "decls")
        || has_table(schema, "entries")
}

fn is_blank(schema: &Schema) -> bool
    ensures { result ≡ true ↔ schema.now ≡ tables.no_schema }
{
    schema.tables.is_empty() && schema.indexes.is_empty() && schema.views.is_empty()
}

fn version_rows<S: Alter>(conn: &mut Connection<S>) -> Result<Vec<Row>, Error>
    ensures reads { Reads S.Store (λ db. db.schema ≡ tables.schema) conn.old conn.new
        (λ trees rows. IsPermutation (map shown_version (trees meta_tree)) rows.items) result }
    ensures failed { HasCleanDisk (state S.Store conn.new) → IfErr result (FailsToQuery version_text [] (state S.Store conn.old) (state S.Store conn.new)) }
{
    query(conn, "SELECT version FROM meta", &[])
}

fn version_of(rows: &[Row]) -> FileVersion
    ensures { result ≡ version_shown rows.now }
{
    if rows.len() != 1 {
        return FileVersion::Other;
    }
    match rows[0].get_ref(0) {
        Ok(ValueRef::Int(2)) => FileVersion::Second,
        Ok(ValueRef::Int(1)) => FileVersion::First,
        _ => FileVersion::Other,
    }
}
