//! The documents of a database that a query finds.

ghost use Rattle.std.specs.Prelude.{option_map};
ghost use Rattle.std.specs.FinMap as map;
ghost use Rattle.store.specs.Calls.{OnlyReads};
ghost use Rattle.find.specs.Answers.{Finds};
ghost use Rattle.find.specs.Found.{found_documents};

use crate::by_index::find_by_index;
use crate::query::Query;
use crate::scan::find_by_scan;
use couch_json::ArrayText;
use read::ReadFault;
use std::alloc::Global;
use store::{DbName, Store};

/// Finds the documents of a database that match a query, in its order, and of these the part that it
/// asks for, as [`get`](read::get) shows their winners. Each is held as its text.
///
/// Deleted documents and design documents are not found, nor with a sort those that lack one of its
/// fields. `Store(NoDatabase)` comes if and only if there is no database of this name; else nothing
/// but lack of memory and faults of the store refuse. Nothing changes. See the CouchDB manual,
/// api/database/find.
pub fn find<S: Store>(
    alloc: Global,
    store: &mut S,
    db: &DbName,
    query: &Query,
) -> Result<ArrayText, ReadFault>
    ensures answer { Finds S.Store store.old store.new (λ documents. documents)
        (option_map (λ d. found_documents query.now d) (map.get (S.contents store.old) db.now)) result }
    ensures reads { OnlyReads S.Store store.old store.new }
{
    match find_by_index(alloc, store, db, query)? {
        Some(documents) => Ok(documents),
        None => find_by_scan(alloc, store, db, query),
    }
}
