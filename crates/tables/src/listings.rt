//! What the rows of the documents of a database say as the rows of its pages. Each function has an
//! empty body: its contract is the law.

ghost use Rattle.std.specs.Prelude.{◌≡◌, false, filter, map, true};
ghost use Rattle.std.specs.FinMap.{entries};
ghost use Rattle.store.specs.Pages as store;
ghost use Rattle.sqlite_keyed.specs.Lists.{sort_by};
ghost use Rattle.sqlite_trees.specs.Tree.{Trees};
ghost use Rattle.sqlite_value.specs.Order.{Row};
ghost use Rattle.tables.specs.Layout.{IsWellFormed};
ghost use Rattle.tables.specs.Listings.{leaves_row, sequence_row};
ghost use Rattle.tables.specs.Rows.{by_id, by_sequence, database_of_row, document_of_row, id_of, is_row_of_database, listed_document, number_of};
ghost use Rattle.tables.specs.Schema.{docs_tree, revs_tree};

/// The documents of a database are those of its rows, by the bytes of their ids.
pub fn documents_by_id()
    ensures { (trees : Trees) (d : Row) → IsWellFormed trees
        → entries (database_of_row trees d).documents ≡ map (λ r. (id_of r, document_of_row (trees revs_tree) r))
        (sort_by by_id (filter (is_row_of_database (number_of d)) (trees docs_tree))) }
{}

/// The documents in the order of their latest writes are what the rows by sequence say, with the
/// winner alone, or with all leaves of the document's history.
pub fn documents_by_sequence()
    ensures winners { (trees : Trees) (d : Row) → IsWellFormed trees
        → store.in_sequence (store.rows_of false (entries (database_of_row trees d).documents)) ≡ map sequence_row
        (map listed_document (sort_by by_sequence (filter (is_row_of_database (number_of d)) (trees docs_tree)))) }
    ensures leaves { (trees : Trees) (d : Row) → IsWellFormed trees
        → store.in_sequence (store.rows_of true (entries (database_of_row trees d).documents)) ≡ map (leaves_row (trees revs_tree) (number_of d))
        (map listed_document (sort_by by_sequence (filter (is_row_of_database (number_of d)) (trees docs_tree)))) }
{}
