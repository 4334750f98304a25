//! What follows from the definitions alone. Each function has an empty body: its contract is the law.

ghost use Rattle.std.specs.Prelude.{List};
ghost use Rattle.sqlite.specs.Effect.{Database};
ghost use Rattle.sqlite_trees.specs.Tree.{Trees};
ghost use Rattle.sqlite_trees.specs.View as tree;
ghost use Rattle.sqlite_trees.specs.declared.store.Shape.TheVariants as shape;
ghost use Rattle.sqlite_value.specs.Order.{Row};
ghost use Rattle.store.specs.Lawful.{AllEndAtLast};
ghost use Rattle.tables.specs.Layout.{AreNumbered, IsWellFormed};
ghost use Rattle.tables.specs.Rows.{contents_in};
ghost use Rattle.file_check.specs.Tables.{AreKept, AreShaped, HasSoundLocals, IsRestingStore, IsTableFinding};
ghost use Rattle.file_check.specs.declared.finding.Finding.{Finding};

/// Tables are laid out, and their databases end at their last documents, where SQLite keeps their
/// rows and each is sound, and only there.
pub fn laid_where_sound()
    ensures sound { (trees : Trees) → AreShaped trees → HasSoundLocals trees → IsWellFormed trees × AllEndAtLast (contents_in trees) }
    ensures rows { (trees : Trees) → IsWellFormed trees → ∥ AllEndAtLast (contents_in trees) ∥₁ → HasSoundLocals trees }
    ensures kept { (trees : Trees) → IsWellFormed trees → AreKept trees }
{}

/// Where a row is found that is not sound, the tables are not those of a store between two calls.
pub fn a_finding_is_of_no_store()
    ensures { (db : Database) (f : Finding) → IsTableFinding db.trees f → ¬ IsRestingStore db }
{}

/// The numbers of the rows of a table rise in its tree, as a store of the kit keeps it.
pub fn numbers_of_a_table()
    ensures { (rows : List Row) → tree.IsShaped shape.Table rows → AreNumbered rows }
{}
