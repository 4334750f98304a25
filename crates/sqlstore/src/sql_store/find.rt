//! A database, found by its name.

use crate::earlier::{keep_known, take_named};
use crate::first_rows::first_database;
use crate::known_database::{DatabaseNumbers, KnownDatabase};
use crate::sql_store::SqlStore;
use sqlite::Alter;
use store::{DbName, StoreFault};

impl<S: Alter> SqlStore<S> {
    ghost use Rattle.std.specs.Prelude.{◌≡◌, ◌<◌, ◌^◌, IfOk, IfSome, Some, filter, option_map, slice_get};
    ghost use Rattle.tables.specs.Rows.{is_named};
    ghost use Rattle.tables.specs.Schema.{dbs_tree};
    ghost use Rattle.sqlstore.specs.Model.{Answers, Stands, is_honest, trees_of};
    ghost use Rattle.sqlstore.specs.inner.Reading.{found_in, known_values, numbers_in};
    ghost use Rattle.sqlstore.specs.Standing.{IsKnown};

    /// Takes out what is known of the database of this name.
    fn take_known(&mut self, name: &DbName) -> Option<KnownDatabase>
        ensures named { IfSome result (λ known. known.name ≡ name.now) }
        ensures known { is_honest S.Store self.old → ∥ IsKnown (trees_of S.Store self.old) result ∥₁ }
        ensures stands { Stands S.Store self.old self.new }
    {
        if let Some(known) = self.take_latest(name) {
            return Some(known);
        }
        take_named(&mut self.earlier, name)
    }

    /// Takes out what is known of the latest database, where it is the one of this name. Else that is put to
    /// those that were asked for before.
    fn take_latest(&mut self, name: &DbName) -> Option<KnownDatabase>
        ensures named { IfSome result (λ known. known.name ≡ name.now) }
        ensures known { is_honest S.Store self.old → ∥ IsKnown (trees_of S.Store self.old) result ∥₁ }
        ensures stands { Stands S.Store self.old self.new }
        ensures honest { is_honest S.Store self.old → is_honest S.Store self.new }
    {
        let known = self.known.take()?;
        if known.name == *name {
            return Some(known);
        }
        keep_known(&mut self.earlier, known);
        None
    }

    /// Reads the row of the database of this name.
    fn read_database(&mut self, name: &DbName) -> Result<KnownDatabase, StoreFault>
        ensures answer { Answers S.Store self.old self.new known_values
            (option_map found_in (slice_get (filter (is_named name.now) (trees_of S.Store self.old dbs_tree)) 0)) result }
        ensures known { is_honest S.Store self.new → IfOk result (λ known. ∥ IsKnown (trees_of S.Store self.old) (Some known) ∥₁) }
        ensures stands { Stands S.Store self.old self.new }
    {
        let rows = self.database_rows(name.as_str().as_bytes())?;
        let found = first_database(self.alloc, &rows)?;
        let name = name.copy(self.alloc)?;
        Ok(KnownDatabase {
            name,
            found,
            live: None,
            deleted: None,
            ranks: None,
            indexes: None,
            index_ranks: None,
            designs: None,
        })
    }

    /// Finds what the row of the database of this name says: it is known already, or else read.
    /// `NoDatabase` comes where there is none. Whoever asked puts back what is known.
    pub(crate) fn know(&mut self, name: &DbName) -> Result<KnownDatabase, StoreFault>
        ensures answer { Answers S.Store self.old self.new known_values
            (option_map found_in (slice_get (filter (is_named name.now) (trees_of S.Store self.old dbs_tree)) 0)) result }
        ensures known { is_honest S.Store self.new → IfOk result (λ known. ∥ IsKnown (trees_of S.Store self.old) (Some known) ∥₁) }
        ensures stands { Stands S.Store self.old self.new }
    {
        match self.take_known(name) {
            Some(known) => Ok(known),
            None => self.read_database(name),
        }
    }

    /// Finds the number and the sequence of the database of this name. `NoDatabase` comes where there is none.
    pub(crate) fn find(&mut self, name: &DbName) -> Result<DatabaseNumbers, StoreFault>
        ensures answer { Answers S.Store self.old self.new (λ d. (d.number, d.sequence))
            (option_map numbers_in (slice_get (filter (is_named name.now) (trees_of S.Store self.old dbs_tree)) 0)) result }
        ensures stands { Stands S.Store self.old self.new }
    {
        let known = self.know(name)?;
        let numbers = known.numbers();
        self.known = Some(known);
        Ok(numbers)
    }

    /// Finds the same, where a page may hold the sequence.
    pub(crate) fn find_bounded(&mut self, name: &DbName) -> Result<DatabaseNumbers, StoreFault>
        ensures answer { Answers S.Store self.old self.new (λ d. (d.number, d.sequence))
            (option_map numbers_in (slice_get (filter (is_named name.now) (trees_of S.Store self.old dbs_tree)) 0)) result }
        ensures bounded { IfOk result (λ d. d.sequence < 2 ^ 63) }
        ensures stands { Stands S.Store self.old self.new }
    {
        let found = self.find(name)?;
        if found.sequence >= 1 << 63 {
            return Err(StoreFault::Damaged);
        }
        Ok(found)
    }
}
