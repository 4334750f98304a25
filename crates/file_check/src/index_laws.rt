//! What follows of the rows of indexes from the definitions alone. Each function has an empty body: its contract is
//! the law.

ghost use Rattle.std.specs.Prelude.{◌≡◌};
ghost use Rattle.sqlite.specs.Effect.{Database, IsDatabase};
ghost use Rattle.sqlite_trees.specs.Tree.{Trees};
ghost use Rattle.tables.specs.Layout.{AreNumbered};
ghost use Rattle.tables.specs.Schema.{decls_tree, entries_tree, schema};
ghost use Rattle.index.specs.Indexed.{IsIndexed};
ghost use Rattle.file_check.specs.Indexes.{AreIndexRows, HasIndexCells, IsCheckable, IsIndexFinding};
ghost use Rattle.file_check.specs.declared.finding.Finding.{Finding};

/// The rows of indexes are those of what is stored if and only if each of them is that of what is stored, and
/// none is missing.
pub fn rows_of_indexes()
    ensures indexed { (db : Database) → IsCheckable db → AreIndexRows db.trees → IsIndexed db.trees }
    ensures rows { (trees : Trees) → IsIndexed trees → AreIndexRows trees }
{}

/// Where a row is found they are not.
pub fn a_finding_is_of_unsound_indexes()
    ensures { (trees : Trees) (f : Finding) → IsIndexFinding trees f → ¬ IsIndexed trees }
{}

/// What SQLite holds the rows to, by the schema, gives them their cells and unique keys.
pub fn cells_of_indexes()
    ensures { (db : Database) → db.schema ≡ schema → IsDatabase db → AreNumbered (db.trees decls_tree) → AreNumbered (db.trees entries_tree)
        → HasIndexCells db }
{}
