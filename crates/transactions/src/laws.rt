//! What follows from the definitions alone. Each function has an empty body: its contract is the law.

ghost use Rattle.std.specs.Prelude.{◌≡◌, ℕ, ℤ, List};
ghost use Rattle.sqlite.specs.Effect.{Database};
ghost use Rattle.sqlite_value.specs.Order.{Row};
ghost use Rattle.tables.specs.Schema.{dbs_tree, schema};
ghost use Rattle.tables.specs.Steps.{Changes};
ghost use Rattle.index.specs.Calls.{IsDropped};
ghost use Rattle.index.specs.Indexed.{AreIndexed, IsIndexed};
ghost use Rattle.index.specs.Meaning.{declares_in, sees_in};
ghost use Rattle.transactions.specs.Sequences.{Clears, Replaces};

/// Index rows are those of what is stored after a change of the rows of databases, and after a local
/// document is replaced.
pub fn index_rows_stay()
    ensures databases { (rows : List Row) (a b : Database) → a.schema ≡ schema → Changes dbs_tree rows a b → IsIndexed a.trees → IsIndexed b.trees }
    ensures locals { (db : ℤ) (id : List ℕ) (number : ℕ) (body : List ℕ) (a b : Database) → a.schema ≡ schema → Replaces db id number body a b
        → IsIndexed a.trees → IsIndexed b.trees }
{}

/// After the rows of a database are taken out its index rows are those of before; and when its indexes
/// are taken out too, all are those of what is left.
pub fn index_rows_of_a_removal()
    ensures cleared { (db : ℤ) (a b : Database) → a.schema ≡ schema → Clears db a b → IsIndexed a.trees
        → AreIndexed (declares_in a.trees) (sees_in a.trees) b.trees }
    ensures dropped { (db : ℤ) (a b c : Database) → a.schema ≡ schema → Clears db a b → IsDropped (declares_in a.trees) (sees_in a.trees) db b c
        → IsIndexed c.trees }
{}
