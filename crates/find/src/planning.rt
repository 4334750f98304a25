//! Whether an index may serve a find, and by which of its rows.

ghost use Rattle.std.specs.Prelude.{◌≡◌, IfOk, IfSome, true};
ghost use Rattle.find.specs.IndexRead.{index_asked};
ghost use Rattle.find.specs.inner.Planning.{IsInOrder, MayServeBy};

use crate::choosing::Chosen;
use crate::index::Index;
use crate::plan::Plan;
use crate::query::Query;
use crate::ranges::rows_for;
use couch_json::Got;
use std::alloc::Global;
use store::cuts::read_index_fields;

/// Plans a find by an index that is chosen; `None` where it may not serve.
pub(crate) fn plan_by(alloc: Global, chosen: Chosen, query: &Query) -> Got<Option<Plan>>
    ensures serves { IfOk result (λ plan. IfSome plan (λ p. MayServeBy (index_asked p.index) p.rows.range query.now chosen.history)) }
    ensures order { IfOk result (λ plan. IfSome plan (λ p. p.rows.in_order ≡ true → IsInOrder p.index.fields.items p.rows.range query.now)) }
    ensures design { IfOk result (λ plan. IfSome plan (λ p. p.index.design ≡ chosen.design)) }
{
    let Some(fields) = read_index_fields(
        alloc,
        &chosen.design,
        &chosen.history,
        chosen.name.as_str(),
    )?
    else {
        return Ok(None);
    };
    let Some(rows) = rows_for(alloc, &fields, query)? else {
        return Ok(None);
    };
    let index = Index {
        design: chosen.design,
        name: chosen.name,
        fields,
    };
    Ok(Some(Plan { index, rows }))
}
