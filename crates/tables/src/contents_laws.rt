//! What the tables say by name and by id, and what the databases that they hold become as rows are
//! changed. Each function has an empty body: its contract is the law.

ghost use Rattle.std.specs.Prelude.{◌≡◌, ◌<◌, ◌^◌, ◌⊎◌, ◌∷◌, [], IsTrue, List, None, Some, filter, not, option_map, pos, slice_get, ℕ};
ghost use Rattle.std.specs.FinMap as finite;
ghost use Rattle.couch_json.specs.Canonical.{canonical};
ghost use Rattle.couch_json.specs.Lawful.{IsLawful};
ghost use Rattle.couch_json.specs.Value.{Value};
ghost use Rattle.policy.specs.Security.{closed_security, is_security};
ghost use Rattle.store.specs.Contents as store;
ghost use Rattle.store.specs.DatabaseName.{is_database_name};
ghost use Rattle.store.specs.Lawful.{IsLocalDocument};
ghost use Rattle.store.specs.declared.local_document.LocalDocument.{LocalDocument};
ghost use Rattle.tree.specs.DocumentId.{is_document_id};
ghost use Rattle.sqlite.specs.Effect as sqlite;
ghost use Rattle.sqlite_trees.specs.Tree.{Trees};
ghost use Rattle.sqlite_value.specs.Order.{Row};
ghost use Rattle.tables.specs.Layout.{IsWellFormed, IsStore};
ghost use Rattle.tables.specs.Rows.{contents_in, database_cells, database_of_row, has_number, is_row_of_database, is_named, is_row_of_document};
ghost use Rattle.tables.specs.Rows.{local_cells, number_of, rows_with_security, with_cells};
ghost use Rattle.tables.specs.Schema.{dbs_tree, docs_tree, locals_tree, revs_tree};
ghost use Rattle.tables.specs.Steps.{Changes};

/// The database of a name is that of the row of this name, and at most one row has it.
pub fn database_found()
    ensures found { (trees : Trees) (name : List ℕ)
        → finite.get (contents_in trees) name ≡ option_map (database_of_row trees) (slice_get (filter (is_named name) (trees dbs_tree)) 0) }
    ensures one { (trees : Trees) (name : List ℕ) → IsWellFormed trees
        → (filter (is_named name) (trees dbs_tree) ≡ []) ⊎ ((d : Row) × (filter (is_named name) (trees dbs_tree) ≡ d ∷ [])) }
{}

/// A row that is put behind the others, of a name that no database has, is a new database.
pub fn new_database()
    ensures { (old new : sqlite.Database) (name : List ℕ) → IsStore old → IsTrue (is_database_name name)
        → finite.get (contents_in old.trees) name ≡ None
        → Changes dbs_tree (with_cells (old.trees dbs_tree) (database_cells name (canonical closed_security) (pos 0))) old new
        → IsStore new × (contents_in new.trees ≡ finite.insert (contents_in old.trees) name store.new_database) }
{}

/// A database whose row has the text of another security object has that object.
pub fn another_security()
    ensures { (old new : sqlite.Database) (name : List ℕ) (d : Row) (v : Value) → IsStore old
        → slice_get (filter (is_named name) (old.trees dbs_tree)) 0 ≡ Some d → IsTrue (is_security v) → IsLawful v
        → Changes dbs_tree (rows_with_security (number_of d) (canonical v) (old.trees dbs_tree)) old new
        → IsStore new × (option_map (λ db. finite.insert (contents_in old.trees) name (store.with_security db v))
        (finite.get (contents_in old.trees) name) ≡ Some (contents_in new.trees)) }
{}

/// A row that takes the place of those of its database and id is that local document of the database.
pub fn another_local()
    ensures { (a b c : sqlite.Database) (name : List ℕ) (d : Row) (id : List ℕ) (document : LocalDocument) → IsStore a
        → slice_get (filter (is_named name) (a.trees dbs_tree)) 0 ≡ Some d
        → IsTrue (is_document_id id) → IsLocalDocument id document → IsLawful document.body
        → Changes locals_tree (filter (λ r. not (is_row_of_document (number_of d) id r)) (a.trees locals_tree)) a b
        → Changes locals_tree (with_cells (b.trees locals_tree) (local_cells (number_of d) id document.number (canonical document.body))) b c
        → IsStore c × (option_map (λ db. finite.insert (contents_in a.trees) name (store.with_local db id document))
        (finite.get (contents_in a.trees) name) ≡ Some (contents_in c.trees)) }
{}

/// A database whose rows are all deleted is removed.
pub fn fewer_databases()
    ensures { (a b c d e : sqlite.Database) (name : List ℕ) (w : Row) → IsStore a
        → slice_get (filter (is_named name) (a.trees dbs_tree)) 0 ≡ Some w
        → Changes docs_tree (filter (λ r. not (is_row_of_database (number_of w) r)) (a.trees docs_tree)) a b
        → Changes revs_tree (filter (λ r. not (is_row_of_database (number_of w) r)) (b.trees revs_tree)) b c
        → Changes locals_tree (filter (λ r. not (is_row_of_database (number_of w) r)) (c.trees locals_tree)) c d
        → Changes dbs_tree (filter (λ r. not (has_number (number_of w) r)) (d.trees dbs_tree)) d e
        → IsStore e × (contents_in e.trees ≡ finite.remove (contents_in a.trees) name) }
{}
