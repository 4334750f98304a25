//! The rows that a store reads.

use crate::fault::judge_answer;
use crate::sql_store::SqlStore;
use sqlite::{Alter, Row};
use store::StoreFault;
use tables::{databases, documents, locals, revisions};

impl<S: Alter> SqlStore<S> {
    ghost use Rattle.std.specs.Prelude.{◌≡◌, IsPermutation, filter, map};
    ghost use Rattle.sqlite_keyed.specs.Lists.{sort_by};
    ghost use Rattle.tables.specs.Rows.{by_name, is_named, is_row_of_document, is_revision_of, listed_document, shown_database};
    ghost use Rattle.tables.specs.Rows.{shown_hash, shown_local, shown_name, shown_outline, shown_revision};
    ghost use Rattle.tables.specs.Schema.{dbs_tree, docs_tree, locals_tree, revs_tree};
    ghost use Rattle.sqlstore.specs.Model.{Finds};

    /// Returns the row of the database of this name, if there is one.
    pub(crate) fn database_rows(&mut self, name: &[u8]) -> Result<Vec<Row>, StoreFault>
        ensures { Finds S.Store (λ trees rows. rows.items ≡ map shown_database (filter (is_named name.now) (trees dbs_tree))) self.old self.new result }
    {
        let rows = databases::database_rows(&mut self.conn, name);
        judge_answer(&mut self.faults, &mut self.fetched, rows)
    }

    /// Returns the rows of the names of all databases, in the order of their bytes.
    pub(crate) fn name_rows(&mut self) -> Result<Vec<Row>, StoreFault>
        ensures { Finds S.Store (λ trees rows. rows.items ≡ map shown_name (sort_by by_name (trees dbs_tree))) self.old self.new result }
    {
        let rows = databases::name_rows(&mut self.conn);
        judge_answer(&mut self.faults, &mut self.fetched, rows)
    }

    /// Returns the rows of the known revisions of a document, in some order.
    pub(crate) fn revision_rows(&mut self, db: &i64, id: &[u8]) -> Result<Vec<Row>, StoreFault>
        ensures { Finds S.Store
            (λ trees rows. ∥ IsPermutation (map shown_revision (filter (is_row_of_document db.now id.now)
            (trees revs_tree))) rows.items ∥₁) self.old self.new result }
    {
        let rows = revisions::revision_rows(&mut self.conn, db, id);
        judge_answer(&mut self.faults, &mut self.fetched, rows)
    }

    /// Returns the rows of the known revisions of a document without their bodies, in some order.
    pub(crate) fn outline_rows(&mut self, db: &i64, id: &[u8]) -> Result<Vec<Row>, StoreFault>
        ensures { Finds S.Store
            (λ trees rows. ∥ IsPermutation (map shown_outline (filter (is_row_of_document db.now id.now)
            (trees revs_tree))) rows.items ∥₁) self.old self.new result }
    {
        let rows = revisions::outline_rows(&mut self.conn, db, id);
        judge_answer(&mut self.faults, &mut self.fetched, rows)
    }

    /// Returns the rows of the known revisions of a document, each with its number and its hash alone, in
    /// some order.
    pub(crate) fn hash_rows(&mut self, db: &i64, id: &[u8]) -> Result<Vec<Row>, StoreFault>
        ensures { Finds S.Store
            (λ trees rows. ∥ IsPermutation (map shown_hash (filter (is_row_of_document db.now id.now)
            (trees revs_tree))) rows.items ∥₁) self.old self.new result }
    {
        let rows = revisions::hash_rows(&mut self.conn, db, id);
        judge_answer(&mut self.faults, &mut self.fetched, rows)
    }

    /// Returns the row of one revision of a document, if it is known.
    pub(crate) fn one_revision_rows(
        &mut self,
        db: &i64,
        id: &[u8],
        number: u32,
        hash: &str,
    ) -> Result<Vec<Row>, StoreFault>
        ensures { Finds S.Store
            (λ trees rows. rows.items ≡ map shown_revision
            (filter (is_revision_of db.now id.now (record { number = number; hash = hash.now })) (trees revs_tree))) self.old self.new result }
    {
        let rows = revisions::one_revision_rows(&mut self.conn, db, id, number, hash);
        judge_answer(&mut self.faults, &mut self.fetched, rows)
    }

    /// Returns the row of a document, if it was ever written.
    pub(crate) fn document_rows(&mut self, db: &i64, id: &[u8]) -> Result<Vec<Row>, StoreFault>
        ensures { Finds S.Store (λ trees rows. rows.items ≡ map listed_document (filter (is_row_of_document db.now id.now)
            (trees docs_tree))) self.old self.new result }
    {
        let rows = documents::document_rows(&mut self.conn, db, id);
        judge_answer(&mut self.faults, &mut self.fetched, rows)
    }

    /// Returns the row of a local document, if there is one.
    pub(crate) fn local_rows(&mut self, db: &i64, id: &[u8]) -> Result<Vec<Row>, StoreFault>
        ensures { Finds S.Store (λ trees rows. rows.items ≡ map shown_local (filter (is_row_of_document db.now id.now)
            (trees locals_tree))) self.old self.new result }
    {
        let rows = locals::local_rows(&mut self.conn, db, id);
        judge_answer(&mut self.faults, &mut self.fetched, rows)
    }
}
