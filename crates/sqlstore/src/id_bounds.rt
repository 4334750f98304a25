//! The bounds of bytes between which the ids of a range lie.

ghost use Rattle.std.specs.Prelude.{◌≡◌, ◌++◌, ◌∷◌, [], ℕ, IfOk, IsUtf8, List, if◌then◌else◌};
ghost use Rattle.sqlstore.specs.inner.ById.{IsHighIdBound, IsLowIdBound, is_at_least, lies_above};

use couch_json::Got;
use std::alloc::Global;
use store::{IdRange, RangeKey};

/// Makes the bound of the low end of a range: the ids of the range are not less.
pub(crate) fn low_id_bound(alloc: Global, range: &IdRange) -> Got<Vec<u8>>
    ensures { IfOk result (λ bound. IsLowIdBound range.now bound.items) }
{
    if range.descending {
        bound_of(alloc, &range.end, !range.inclusive_end, false)
    } else {
        bound_of(alloc, &range.start, false, false)
    }
}

/// Makes the bound of the high end of a range: the ids of the range are less.
pub(crate) fn high_id_bound(alloc: Global, range: &IdRange) -> Got<Vec<u8>>
    ensures { IfOk result (λ bound. IsHighIdBound range.now bound.items) }
{
    if range.descending {
        bound_of(alloc, &range.start, true, true)
    } else {
        bound_of(alloc, &range.end, range.inclusive_end, true)
    }
}

/// Makes the bound at an end: before it or behind it, and without an end above all ids or below them.
fn bound_of(alloc: Global, end: &Option<RangeKey>, behind: bool, above_all: bool) -> Got<Vec<u8>>
    ensures { IfOk result (λ bound. (id : List ℕ) → IsUtf8 id → is_at_least bound.items id ≡ lies_above end.now behind above_all id) }
{
    match end {
        Some(end) => bound_at(alloc, end.as_str().as_bytes(), behind),
        None if above_all => above_all_ids(alloc),
        None => Ok(Vec::new(alloc)),
    }
}

/// Makes the bound at some bytes, or behind them.
fn bound_at(alloc: Global, bytes: &[u8], behind: bool) -> Got<Vec<u8>>
    ensures { IfOk result (λ bound. bound.items ≡ if behind then bytes.now ++ 0 ∷ [] else bytes.now) }
{
    let mut bound = Vec::from_slice(alloc, bytes)?;
    if behind {
        bound.push(0)?;
    }
    Ok(bound)
}

/// Makes the bound above all ids: no text has a byte 255.
pub(crate) fn above_all_ids(alloc: Global) -> Got<Vec<u8>>
    ensures { IfOk result (λ bound. bound.items ≡ 255 ∷ []) }
{
    let mut bound = Vec::new(alloc);
    bound.push(255)?;
    Ok(bound)
}
