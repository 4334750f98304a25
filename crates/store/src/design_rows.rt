//! The rows of design documents.

ghost use Rattle.std.specs.Prelude.{IfOk};
ghost use Rattle.store.specs.DesignRows.{IsDesignRange};

use crate::listing::IdRange;
use crate::range_key::RangeKey;
use couch_json::Got;
use std::alloc::Global;

/// Builds a range by id in which all design documents are.
///
/// See the CouchDB manual, ddocs/ddocs.
pub fn design_range(alloc: Global) -> Got<IdRange>
    ensures { IfOk result IsDesignRange }
{
    let start = String::from_str(alloc, "_design/")?;
    let end = String::from_str(alloc, "_design0")?;
    Ok(IdRange {
        start: Some(RangeKey::new(start)),
        end: Some(RangeKey::new(end)),
        inclusive_end: false,
        descending: false,
        skip: 0,
        limit: None,
        counted: false,
    })
}
