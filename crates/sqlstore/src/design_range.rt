//! The range by id in which the design documents are.

ghost use Rattle.std.specs.Prelude.{◌≡◌, Some, false, true};
ghost use Rattle.std.specs.List.{list_any};
ghost use Rattle.sqlstore.specs.inner.Designs.{IsWholeDesignRange, is_in_design_range};
ghost use Rattle.sqlstore.specs.inner.Marks.{ids_of};

use store::{IdRange, RangeKey, Write};
use tree::DocId;

/// Tells whether a range is that of all design documents, ascending and without counts.
pub(crate) fn is_whole_design_range(range: &IdRange) -> bool
    ensures { result ≡ true → IsWholeDesignRange range.now }
{
    is_at(&range.start, b"_design/")
        && is_at(&range.end, b"_design0")
        && !range.inclusive_end
        && !range.descending
        && range.skip == 0
        && range.limit.is_none()
        && !range.counted
}

/// Tells whether a range starts or ends at these bytes.
fn is_at(key: &Option<RangeKey>, bytes: &[u8]) -> bool
    ensures { result ≡ true → key.now ≡ Some bytes.now }
{
    match key {
        Some(key) => key.as_str().as_bytes() == bytes,
        None => false,
    }
}

/// Tells whether an id is within the range of design documents.
pub(crate) fn is_in_design_range(id: &DocId) -> bool
    ensures { result ≡ is_in_design_range id.now }
{
    let id = id.as_str().as_bytes();
    let is_before = id.cmp(b"_design/".as_slice()).is_lt();
    let is_behind = !id.cmp(b"_design0".as_slice()).is_lt();
    !(is_before || is_behind)
}

/// Tells whether one of these writes is of a document within the range of design documents.
pub(crate) fn writes_design(writes: &[Write]) -> bool
    ensures { result ≡ false → list_any is_in_design_range (ids_of writes.now) ≡ false }
{
    for write in writes {
        if is_in_design_range(&write.id) {
            return true;
        }
    }
    false
}
