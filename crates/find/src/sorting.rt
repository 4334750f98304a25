//! What a find sorts by.

ghost use Rattle.std.specs.Prelude.{◌≡◌, IfOk, OnOk, take};
ghost use Rattle.find.specs.inner.Kept.{distinct, most_compared, put_distinct};

use crate::query::Query;
use crate::ranges::is_among;
use couch_json::{FieldPath, Got, NoMemory, PathFault};
use std::alloc::Global;

/// How a find sorts.
pub(crate) struct Sorting<'a> {
    /// The query that asks for it.
    pub(crate) query: &'a Query,
    /// The fields of its sort, the first 64 that differ once each: where one stands there again it
    /// orders nothing.
    pub(crate) fields: Vec<FieldPath>,
}

// Written out, so that callers do not prove again how each part is dropped.
impl Drop for Sorting<'_> {
    fn drop(self) {
        let Sorting {
            query: _,
            fields: _,
        } = self;
    }
}

impl<'a> Sorting<'a> {
    /// Makes the sorting that a query asks for.
    pub(crate) fn of(alloc: Global, query: &'a Query) -> Got<Sorting<'a>>
        ensures query { IfOk result (λ sorting. sorting.query.now ≡ query.now) }
        ensures fields { IfOk result (λ sorting. sorting.fields.items ≡ distinct query.now.sort) }
    {
        let fields = copy_distinct(alloc, query.sort.as_slice())?;
        Ok(Sorting { query, fields })
    }
}

/// How many fields a field is compared with at most.
const MOST_COMPARED: usize = 64;

/// Copies these fields, the first 64 that differ once each.
fn copy_distinct(alloc: Global, fields: &[FieldPath]) -> Got<Vec<FieldPath>>
    ensures { IfOk result (λ copies. copies.items ≡ distinct fields.now) }
{
    let mut copies = Vec::with_capacity(alloc, fields.len())?;
    for field in fields {
        put_distinct(alloc, field, &mut copies)?;
    }
    Ok(copies)
}

/// Puts a copy of the field behind the others, unless it is one of the first of them.
fn put_distinct(alloc: Global, field: &FieldPath, fields: &mut Vec<FieldPath>) -> Got<()>
    ensures { OnOk result (fields.new.items ≡ put_distinct field.now fields.old.items) }
{
    if is_among(field, first_fields(fields)) {
        return Ok(());
    }
    fields.push(copy_field(alloc, field)?)?;
    Ok(())
}

/// Returns the fields that others are compared with.
fn first_fields(fields: &[FieldPath]) -> &[FieldPath]
    ensures { result.now ≡ take most_compared fields.now }
{
    &fields[..fields.len().min(MOST_COMPARED)]
}

fn copy_field(alloc: Global, field: &FieldPath) -> Got<FieldPath>
    ensures { IfOk result (λ copy. copy ≡ field.now) }
{
    match FieldPath::parse(alloc, field.as_str()) {
        Ok(copy) => Ok(copy),
        Err(PathFault::Memory) => Err(NoMemory),
        Err(PathFault::Shape) => unreachable!(),
    }
}
