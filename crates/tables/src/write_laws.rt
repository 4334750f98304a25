//! What writes of documents, done as statements, make of the tables. Each function has an empty body: its contract is the law.

ghost use Rattle.std.specs.Prelude.{◌≡◌, ◌+◌, ◌<◌, ◌^◌, ◌++◌, ◌∷◌, [], ℕ, pos, List, Some, filter, length, slice_get};
ghost use Rattle.std.specs.FinMap as map;
ghost use Rattle.sqlite.specs.Effect as sqlite;
ghost use Rattle.sqlite_value.specs.Order.{Row};
ghost use Rattle.store.specs.Contents.{AreAcceptable, IsAcceptable};
ghost use Rattle.store.specs.Database.{Database, DocumentWrite, with_all, with_one};
ghost use Rattle.tables.specs.Edits.{HasWritten, IsStorable, IsWritable, IsWrite, row_after};
ghost use Rattle.tables.specs.Layout.{IsStore};
ghost use Rattle.tables.specs.Rows.{contents_in, database_of_row, is_named, sequence_of_database, row_at_sequence};
ghost use Rattle.tables.specs.Schema.{dbs_tree};

/// A write of a document makes the database with that write, and leaves the tables laid out; the
/// database's row has the next sequence.
pub fn one_write()
    ensures store { (a e : sqlite.Database) (name : List ℕ) (r : Row) (w : DocumentWrite) → IsStore a → IsWritable a.trees name r w → IsWrite r w a e
        → IsStore e }
    ensures contents { (a e : sqlite.Database) (name : List ℕ) (r : Row) (w : DocumentWrite) → IsStore a → IsWritable a.trees name r w → IsWrite r w a e
        → contents_in e.trees ≡ map.insert (contents_in a.trees) name (with_one (database_of_row a.trees r) w) }
    ensures row { (a e : sqlite.Database) (name : List ℕ) (r : Row) (w : DocumentWrite) → IsStore a → IsWritable a.trees name r w → IsWrite r w a e
        → slice_get (filter (is_named name) (e.trees dbs_tree)) 0 ≡ Some (row_at_sequence (pos (sequence_of_database r + 1)) r) }
    ensures database { (a e : sqlite.Database) (name : List ℕ) (r : Row) (w : DocumentWrite) → IsStore a → IsWritable a.trees name r w → IsWrite r w a e
        → database_of_row e.trees (row_at_sequence (pos (sequence_of_database r + 1)) r) ≡ with_one (database_of_row a.trees r) w }
{}

/// Writes that are done one after another are all of them in the database: none at first, and then
/// one more each time. Of writes that may be accepted in turn, each may be accepted after those before it.
pub fn more_writes()
    ensures none { (a : sqlite.Database) (name : List ℕ) (r : Row) → IsStore a → slice_get (filter (is_named name) (a.trees dbs_tree)) 0 ≡ Some r
        → HasWritten [] name r a a }
    ensures one_more { (ws : List DocumentWrite) (w : DocumentWrite) (name : List ℕ) (r : Row) (a b c : sqlite.Database) → HasWritten ws name r a b
        → IsAcceptable (with_all (database_of_row a.trees r) ws) w → IsStorable w → sequence_of_database r + length ws + 1 < 2 ^ 63
        → IsWrite (row_after r (length ws)) w b c
        → HasWritten (ws ++ w ∷ []) name r a c }
    ensures in_turn { (ws : List DocumentWrite) (db : Database) (w : DocumentWrite) (more : List DocumentWrite) → AreAcceptable db (ws ++ w ∷ more)
        → IsAcceptable (with_all db ws) w }
{}
