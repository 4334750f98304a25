//! Finds served by an index: only the documents of its rows in a range are read.

ghost use Rattle.std.specs.Prelude.{◌≡◌, IfOk, IfErr, None};
ghost use Rattle.std.specs.FinMap as map;
ghost use Rattle.store.specs.Calls.{OnlyReads};
ghost use Rattle.read.specs.Answers.{Stops};
ghost use Rattle.find.specs.inner.Planning.{IsFound};

use crate::by_fields::find_sorted;
use crate::choosing::choose_index;
use crate::in_order::find_in_order;
use crate::planning::plan_by;
use crate::query::Query;
use crate::source::Source;
use couch_json::ArrayText;
use read::ReadFault;
use std::alloc::Global;
use store::{DbName, Store};

/// Finds the documents of a query by an index; `None` where none is chosen that may serve.
pub(crate) fn find_by_index<S: Store>(
    alloc: Global,
    store: &mut S,
    db: &DbName,
    query: &Query,
) -> Result<Option<ArrayText>, ReadFault>
    ensures ok { S.is_honest store.new → IfOk result (λ found.
        IsFound query.now (map.get (S.contents store.old) db.now) found) }
    ensures stops { IfErr result (Stops S.Store store.old store.new (map.get (S.contents store.old) db.now ≡ None)) }
    ensures reads { OnlyReads S.Store store.old store.new }
{
    let Some(chosen) = choose_index(alloc, store, db, query)? else {
        return Ok(None);
    };
    let Some(plan) = plan_by(alloc, chosen, query)? else {
        return Ok(None);
    };
    let in_order = plan.rows.in_order;
    let source = Source::Index(plan);
    if in_order {
        return Ok(Some(find_in_order(alloc, store, db, query, &source)?));
    }
    Ok(Some(find_sorted(alloc, store, db, query, &source)?))
}
