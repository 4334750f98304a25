//! What follows from the definitions alone. Each function has an empty body: its contract is the law.

ghost use Rattle.std.specs.Prelude.{◌≡◌, ◌≢◌, ℕ, ℤ, List, None, Some, drop, find, length, map, pos, take, true};
ghost use Rattle.std.specs.List.{AllByRecursion};
ghost use Rattle.couch_json.specs.Lawful.{IsLawful};
ghost use Rattle.sqlite.specs.Effect.{Database};
ghost use Rattle.sqlite_trees.specs.Tree.{Trees};
ghost use Rattle.sqlite_value.specs.Order.{Row};
ghost use Rattle.store.specs.Indexes.{IndexPlace, index_rows};
ghost use Rattle.store.specs.KeyPages.{key_rows_within};
ghost use Rattle.store.specs.declared.index_page.KeyRange.{KeyRange};
ghost use Rattle.tables.specs.Layout.{IsNew, IsStore};
ghost use Rattle.tables.specs.Rows.{database_of_row, number_of};
ghost use Rattle.tables.specs.Schema.{decls_tree, entries_tree, revs_tree};
ghost use Rattle.index.specs.Indexed.{AreIndexed, IsIndexed};
ghost use Rattle.index.specs.Layout.{HasIndexRows};
ghost use Rattle.index.specs.Meaning.{Declarations, Documents, key_if_seen};
ghost use Rattle.index.specs.Places.{AreEntriesAt, IsHighBound, IsLowBound, spot_of, spot_shown};
ghost use Rattle.index.specs.Rows.{count_of, fields_of, has_entry, is_declaration_of, range_of};
ghost use Rattle.index.specs.Entries.{IsDeclaredAs, IsEntryOf};

/// New tables have the rows of their indexes, which are none.
pub fn new_tables()
    ensures laid { (db : Database) → IsNew db → HasIndexRows db }
    ensures indexed { (db : Database) → IsNew db → IsIndexed db.trees }
{}

/// Each entry is that of an index that is declared, and of a document that queries see at its key; and
/// each index that is declared has an entry of each document that they see and that has a key in it.
pub fn entries_of_indexes()
    ensures there { (declares : Declarations) (sees : Documents) (trees : Trees) → AreIndexed declares sees trees
        → (n : ℤ) (k id : List ℕ) → has_entry (trees entries_tree) n k id ≡ true → IsEntryOf declares sees trees n k id }
    ensures whole { (declares : Declarations) (sees : Documents) (trees : Trees) → AreIndexed declares sees trees
        → (db : ℤ) (design name : List ℕ) (fields : List (List ℕ)) → declares db design name ≡ Some fields
        → (n : ℤ) × IsDeclaredAs trees n db design name fields
        × ((k id : List ℕ) → key_if_seen fields (sees db id) ≡ Some k → has_entry (trees entries_tree) n k id ≡ true) }
{}

/// Index rows are those of whatever declares the same and sees the same.
pub fn the_same_is_said()
    ensures { (declares others : Declarations) (sees seen : Documents) (trees : Trees) → AreIndexed declares sees trees
        → ((db : ℤ) (design name : List ℕ) → declares db design name ≡ others db design name) → ((db : ℤ) (id : List ℕ) → sees db id ≡ seen db id)
        → AreIndexed others seen trees }
{}

/// Tables with the same revisions and the same index rows are indexed alike.
pub fn the_same_rows()
    ensures { (a b : Trees) → b revs_tree ≡ a revs_tree → b decls_tree ≡ a decls_tree → b entries_tree ≡ a entries_tree → IsIndexed a → IsIndexed b }
{}

/// What is seen of a database that declares nothing has no entries, so index rows are the same whatever
/// that is.
pub fn nothing_declared()
    ensures { (declares : Declarations) (sees seen : Documents) (db : ℤ) (trees : Trees) → AreIndexed declares sees trees
        → ((design name : List ℕ) → declares db design name ≡ None) → ((d : ℤ) (id : List ℕ) → d ≢ db → sees d id ≡ seen d id)
        → AreIndexed declares seen trees }
{}

/// The entries of an index that is declared are those of its rows, as a page lists them.
pub fn entries_are_the_rows_of_an_index()
    ensures { (db : Database) (r d : Row) (design name : List ℕ) → IsStore db → IsIndexed db.trees
        → find (is_declaration_of (number_of r) design name) (db.trees decls_tree) ≡ Some d
        → AreEntriesAt (number_of d) (index_rows (fields_of d) (database_of_row db.trees r)) (db.trees entries_tree) }
{}

/// What is read of the entries between the bounds of a range is what a page has of them: behind as many
/// as are left out, the first, as many as are asked for. There are as many as the range has rows.
pub fn entries_between_bounds_are_the_rows_of_a_range()
    ensures read { (n : ℤ) (places : List IndexPlace) (rows : List Row) → AreEntriesAt n places rows → (range : KeyRange) (low high : List ℕ)
        → IsLowBound range low → IsHighBound range high
        → (most skip : ℕ) (read : List IndexPlace) → AllByRecursion (λ p. IsLawful p.key) read
        → map spot_of read ≡ map spot_shown (range_of range.descending n low high (pos most) (pos skip) rows)
        → read ≡ take most (drop skip (key_rows_within range places)) }
    ensures count { (n : ℤ) (places : List IndexPlace) (rows : List Row) → AreEntriesAt n places rows → (range : KeyRange) (low high : List ℕ)
        → IsLowBound range low → IsHighBound range high
        → count_of n low high rows ≡ length (key_rows_within range places) }
{}
