//! What follows from the definitions alone. Each function has an empty body: its contract is the law.

ghost use Rattle.std.specs.Prelude.{◌≡◌, ℕ, IsTrue, List, Some, true};
ghost use Rattle.std.specs.FinMap.{empty, get};
ghost use Rattle.std.specs.List.{AllByRecursion};
ghost use Rattle.sqlite.specs.Effect as sqlite;
ghost use Rattle.sqlite_trees.specs.Tree.{Trees};
ghost use Rattle.store.specs.Database.{Database, history_at};
ghost use Rattle.tree.specs.History.{is_known};
ghost use Rattle.tree.specs.Revision.{Revision, is_revision};
ghost use Rattle.tables.specs.Layout.{IsFirstStore, IsWellFormed, IsNew, IsStore};
ghost use Rattle.tables.specs.Presence.{has_all, version_in};
ghost use Rattle.tables.specs.Rows.{contents_in, shown_database, shown_hash, shown_local, shown_outline, shown_revision};
ghost use Rattle.tables.specs.Schema as tables;
ghost use Rattle.tables.specs.Schema.{dbs_tree, locals_tree, meta_tree, revs_tree};
ghost use Rattle.tables.specs.declared.meta.FileVersion.{FileVersion};
ghost use Rattle.tables.specs.Shown.{IsShownDatabase, IsShownHash, IsShownLocal, IsShownOutline, IsShownRevision};

/// What `create_tables` makes holds a store, and no database.
pub fn new_tables()
    ensures store { (db : sqlite.Database) → IsNew db → IsStore db }
    ensures nothing { (db : sqlite.Database) → IsNew db → contents_in db.trees ≡ empty }
{}

/// Tables that are laid out are told to be there, at their version.
pub fn tables_of_a_store()
    ensures tables { (db : sqlite.Database) → IsStore db → has_all db.schema ≡ true }
    ensures version { (db : sqlite.Database) → IsStore db → version_in (db.trees meta_tree) ≡ FileVersion.Second }
    ensures first_tables { (db : sqlite.Database) → IsFirstStore db → has_all db.schema ≡ true }
    ensures first_version { (db : sqlite.Database) → IsFirstStore db → version_in (db.trees meta_tree) ≡ FileVersion.First }
{}

/// No reader of a row finds a row damaged where the tables are laid out.
pub fn rows_of_a_store()
    ensures databases { (trees : Trees) → IsWellFormed trees → AllByRecursion (λ r. IsShownDatabase (shown_database r)) (trees dbs_tree) }
    ensures revisions { (trees : Trees) → IsWellFormed trees → AllByRecursion (λ r. IsShownRevision (shown_revision r)) (trees revs_tree) }
    ensures outlines { (trees : Trees) → IsWellFormed trees → AllByRecursion (λ r. IsShownOutline (shown_outline r)) (trees revs_tree) }
    ensures hashes { (trees : Trees) → IsWellFormed trees → AllByRecursion (λ r. IsShownHash (shown_hash r)) (trees revs_tree) }
    ensures locals { (trees : Trees) → IsWellFormed trees → AllByRecursion (λ r. IsShownLocal (shown_local r)) (trees locals_tree) }
{}

/// Each revision that a database knows is a revision where the tables are laid out: it can be written as
/// text, and is read back from it.
pub fn revisions_of_a_store()
    ensures { (trees : Trees) → IsWellFormed trees → (name id : List ℕ) (db : Database) (r : Revision) → get (contents_in trees) name ≡ Some db
        → IsTrue (is_known (history_at db id) r) → IsTrue (is_revision r) }
{}
