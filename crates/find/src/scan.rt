//! Finds by a scan of all documents.

ghost use Rattle.std.specs.Prelude.{option_map};
ghost use Rattle.std.specs.FinMap as map;
ghost use Rattle.store.specs.Calls.{OnlyReads};
ghost use Rattle.find.specs.Answers.{Finds};
ghost use Rattle.find.specs.Found.{found_documents};

use crate::by_fields::find_sorted;
use crate::in_order::find_in_order;
use crate::query::Query;
use crate::source::Source;
use couch_json::ArrayText;
use read::ReadFault;
use std::alloc::Global;
use store::{DbName, Store};

/// Finds the documents of a query among all documents of the database. Without a sort they go by id, as
/// they are asked for.
pub(crate) fn find_by_scan<S: Store>(
    alloc: Global,
    store: &mut S,
    db: &DbName,
    query: &Query,
) -> Result<ArrayText, ReadFault>
    ensures answer { Finds S.Store store.old store.new (λ documents. documents)
        (option_map (λ d. found_documents query.now d) (map.get (S.contents store.old) db.now)) result }
    ensures reads { OnlyReads S.Store store.old store.new }
{
    let source = Source::Documents {
        descending: query.descending,
    };
    if query.sort.as_slice().is_empty() {
        return find_in_order(alloc, store, db, query, &source);
    }
    find_sorted(alloc, store, db, query, &source)
}
