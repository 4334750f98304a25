//! What is so of each store, after whatever calls and whatever they answered. Each function has an empty
//! body: its contract is the law.

ghost use Rattle.std.specs.Prelude.{◌≡◌, IsTrue};
ghost use Rattle.sqlite.specs.Held.{state};
ghost use Rattle.tables.specs.Rows.{contents_in};
ghost use Rattle.transactions.specs.Indexing.{IsIndexedStore};
ghost use Rattle.sqlstore.specs.Model.{contents_of, is_honest};
ghost use Rattle.sqlstore.specs.Revisions.{RevisionsCanBeWritten};

use crate::sql_store::SqlStore;
use sqlite::Alter;

/// The rows of indexes equal a rebuild. Where an honest store has an open connection, its tables hold the
/// contents, the declarations are those of the winners of its design documents, and the entries are
/// those of its documents, each once.
pub fn index_rows_equal_a_rebuild<S: Alter>(store: &SqlStore<S>)
    ensures rows { is_honest S.Store store.now → IsTrue (state S.Store store.now.conn).is_open → ∥ IsIndexedStore (state S.Store store.now.conn).now ∥₁ }
    ensures contents { is_honest S.Store store.now → IsTrue (state S.Store store.now.conn).is_open
        → contents_in (state S.Store store.now.conn).now.trees ≡ contents_of S.Store store.now }
{}

/// Each revision that an honest store knows can be written as text, and is read back from it. So databases in
/// files can be replicated from the start.
pub fn revisions_can_be_written<S: Alter>()
    ensures { RevisionsCanBeWritten S.Store }
{}
