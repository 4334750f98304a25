//! The bounds of bytes between which the keys of a range lie.

ghost use Rattle.std.specs.Prelude.{◌≡◌, ◌++◌, [], ◌∷◌, IfOk, OnOk};
ghost use Rattle.couch_json.specs.Key.{key};
ghost use Rattle.couch_json.specs.KeyCuts.{bound_after_prefix, lies_above_cut};
ghost use Rattle.couch_json.specs.Lawful.{IsLawful};
ghost use Rattle.couch_json.specs.Value.{Value};
ghost use Rattle.couch_json.specs.View.{view};
ghost use Rattle.store.specs.KeyPages.{lies_above};
ghost use Rattle.index.specs.Places.{IsHighBound, IsLowBound};

use couch_json::{Got, Json, key_bytes};
use std::alloc::Global;
use store::{CutSide, KeyCut, KeyRange};

/// Makes the bound of the low end of a range: the keys of the range are not less.
pub fn low_bound(alloc: Global, range: &KeyRange) -> Got<Vec<u8>>
    ensures { IfOk result (λ bound. IsLowBound range.now bound.items) }
{
    match &range.low {
        Some(cut) => bound_at(alloc, cut),
        None => Ok(Vec::new(alloc)),
    }
}

/// Makes the bound of the high end of a range: the keys of the range are less.
pub fn high_bound(alloc: Global, range: &KeyRange) -> Got<Vec<u8>>
    ensures { IfOk result (λ bound. IsHighBound range.now bound.items) }
{
    match &range.high {
        Some(cut) => bound_at(alloc, cut),
        None => above_all(alloc),
    }
}

/// Makes the bound above all keys: none begins with a byte 8.
pub fn above_all(alloc: Global) -> Got<Vec<u8>>
    ensures { IfOk result (λ bound. bound.items ≡ 8 ∷ []) }
{
    let mut bound = Vec::new(alloc);
    bound.push(8)?;
    Ok(bound)
}

/// Makes the bound at which a cut lies.
fn bound_at(alloc: Global, cut: &KeyCut) -> Got<Vec<u8>>
    ensures { IfOk result (λ bound. (v : Value) → IsLawful v → lies_above_cut bound.items (key v) ≡ lies_above cut.now.side cut.now.key v) }
{
    let value = cut.key.json();
    let mut bound = key_bytes(alloc, value)?;
    match cut.side {
        CutSide::Before => Ok(bound),
        CutSide::After => {
            bound.push(0)?;
            Ok(bound)
        }
        CutSide::AfterPrefix => {
            pass_prefix(&mut bound, value)?;
            Ok(bound)
        }
    }
}

/// Moves the bound at a key behind all arrays that begin with its elements.
fn pass_prefix(bound: &mut Vec<u8>, value: &Json) -> Got<()>
    ensures { bound.old.items ≡ key (view value.now) → OnOk result (bound.new.items ≡ bound_after_prefix (view value.now)) }
{
    if value.items().is_none() {
        bound.push(0)?;
        return Ok(());
    }
    // The key of an array ends in a byte 0.
    drop(bound.pop());
    bound.push(8)?;
    Ok(())
}
