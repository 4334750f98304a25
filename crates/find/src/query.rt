ghost use Rattle.std.specs.Prelude.{◌≡◌, option_and_then, option_map};
ghost use Rattle.couch_json.specs.Value.{whole};
ghost use Rattle.couch_json.specs.View.{view};
ghost use Rattle.selector.specs.Grammar.{selector_in};
ghost use Rattle.find.specs.Queries.{count_in, count_or, query_in};
ghost use Rattle.find.specs.Reading.{ReadsAsDefined};

use crate::fault::QueryFault;
use crate::sort::{is_descending, read_fields, sort_entries};
use crate::sort_fields::SortFields;
use couch_json::{Json, Number};
use selector::{Selector, SelectorFault};
use std::alloc::Global;

/// A find: which documents are looked for, in which order, and which part of them is wanted.
///
/// See the CouchDB manual, api/database/find.
pub struct Query {
    /// What a document has to meet.
    pub selector: Selector,
    /// The fields to sort by; where there are none documents go by id.
    pub sort: SortFields,
    /// Whether they go down, the ids among equal values too.
    pub descending: bool,
    /// At most so many documents.
    pub limit: u64,
    /// So many are left out, from the first.
    pub skip: u64,
}

// Written out, so that callers do not prove again how each part is dropped.
impl Drop for Query {
    fn drop(self) {
        let Query {
            selector: _,
            sort: _,
            descending: _,
            limit: _,
            skip: _,
        } = self;
    }
}

impl Query {
    /// Reads the query that a JSON value is: an object with `selector`, and maybe with `sort`, `limit`
    /// and `skip`.
    ///
    /// `Shape` comes if and only if it is none, unless memory runs out first. Without a limit it is
    /// 25. See the CouchDB manual, api/database/find.
    pub fn read(alloc: Global, value: &Json) -> Result<Query, QueryFault>
        ensures { ReadsAsDefined (λ query. query) (query_in (view value.now)) result }
    {
        if !value.has_only(&["selector", "sort", "limit", "skip"]) {
            return Err(QueryFault::Shape);
        }
        let selector = read_selector(alloc, value.member("selector"))?;
        let entries = sort_entries(value.member("sort"))?;
        Ok(Query {
            selector,
            sort: read_fields(alloc, entries)?,
            descending: is_descending(entries),
            limit: read_count(value.member("limit"), 25)?,
            skip: read_count(value.member("skip"), 0)?,
        })
    }
}

/// Reads the selector, which has to be there.
fn read_selector(alloc: Global, value: Option<&Json>) -> Result<Selector, QueryFault>
    ensures { ReadsAsDefined (λ selector. selector) (option_and_then selector_in (option_map (λ v. view v.now) value.entry)) result }
{
    let Some(value) = value else {
        return Err(QueryFault::Shape);
    };
    match Selector::parse(alloc, value) {
        Ok(selector) => Ok(selector),
        Err(SelectorFault::Memory) => Err(QueryFault::Memory),
        Err(_) => Err(QueryFault::Shape),
    }
}

/// Reads a number from 0 to 2^63 - 1; where no value is there, it is the other one.
fn read_count(value: Option<&Json>, absent: u64) -> Result<u64, QueryFault>
    ensures { ReadsAsDefined (λ count. count) (count_or absent (option_map (λ v. view v.now) value.entry)) result }
{
    match value {
        Some(Json::Whole(number)) => count_of(*number),
        Some(_) => Err(QueryFault::Shape),
        None => Ok(absent),
    }
}

fn count_of(number: Number) -> Result<u64, QueryFault>
    ensures { ReadsAsDefined (λ count. count) (count_in (whole number)) result }
{
    match u64::try_from(number.value()) {
        Ok(count) if count <= 9_223_372_036_854_775_807 => Ok(count),
        _ => Err(QueryFault::Shape),
    }
}
