//! What was found of documents, by their ids.

ghost use Rattle.std.specs.Prelude.{◌≡◌, ℕ, IfOk, List, Some, if◌then◌else◌};
ghost use Rattle.std.specs.BTreeMap as tree;
ghost use Rattle.std.specs.Cmp.Lexicographic.{slice_cmp};
ghost use Rattle.std.specs.Ordering.{is_eq, nat_cmp};

use couch_json::Got;
use std::alloc::Global;
use std::collections::BTreeMap;
use tree::DocId;

/// Puts in what was found of a document, and returns what was there.
pub(crate) fn put_found<V: Drop>(
    alloc: Global,
    found: &mut BTreeMap<DocId, V>,
    id: &DocId,
    value: V,
) -> Got<Option<V>>
    ensures was { IfOk result (λ was. was ≡ tree.get (slice_cmp nat_cmp) found.old id.now) }
    ensures put { IfOk result
        (λ _. (q : List ℕ) → tree.get
        (slice_cmp nat_cmp) found.new q ≡ (if is_eq (slice_cmp nat_cmp id.now q) then Some value else tree.get (slice_cmp nat_cmp) found.old q)) }
{
    Ok(found.insert(id.copy(alloc)?, value)?)
}
