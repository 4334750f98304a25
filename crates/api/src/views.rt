//! What the query of a view asks for (CouchDB manual, api/ddoc/views).

ghost use Rattle.std.specs.Prelude.{◌≡◌, IfOk};
ghost use Rattle.couch_http.specs.Message.{message_of};
ghost use Rattle.api.specs.RequestReading.{Says};
ghost use Rattle.api.specs.Queried.{given_of, texts_of};
ghost use Rattle.api.specs.Queries.{parameters_are_named, given_at};
ghost use Rattle.api.specs.Refusals.{there_or};
ghost use Rattle.api.specs.Views.{cut_at, end_side, json_in_text, keys_asked, keys_between, view_names, view_query};

use crate::fault::RequestFault;
use crate::given::Given;
use crate::listings::range_from;
use crate::parameters::{are_named, parameters, sole_value};
use crate::refusal::Refusal;
use couch_http::Request;
use couch_json::{Got, JsonFault, NoMemory, read};
use std::alloc::Global;
use store::{CutSide, IdRange, IndexKey, KeyCut, KeyRange};

/// Reads which rows of an index a view is asked for. A key is any JSON value; the other parameters are
/// read as those of a listing by id.
pub fn view_query(alloc: Global, request: &Request) -> Result<KeyRange, RequestFault>
    ensures { Says (λ range. range) result (there_or Refusal.Query (view_query (message_of request.now).query)) }
{
    let parameters = parameters(alloc, &request.query)?;
    match read_keys(alloc, &parameters)? {
        Some(range) => Ok(range),
        None => Err(RequestFault::Refused(Refusal::Query)),
    }
}

/// Reads a range from parameters; `None` where one of them is not of its form.
fn read_keys(alloc: Global, parameters: &[(String, String)]) -> Got<Option<KeyRange>>
    ensures { IfOk result (λ range. range ≡ keys_asked (texts_of parameters.now)) }
{
    if !are_view_names(parameters) {
        return Ok(None);
    }
    let start = value_at(alloc, parameters, "startkey")?;
    if start.is_malformed() {
        return Ok(None);
    }
    let end = value_at(alloc, parameters, "endkey")?;
    if end.is_malformed() {
        return Ok(None);
    }
    match range_from(parameters, None, None) {
        Some(range) => Ok(Some(keys_between(start.value(), end.value(), &range))),
        None => Ok(None),
    }
}

/// Tests whether all names are those of a view's parameters.
fn are_view_names(parameters: &[(String, String)]) -> bool
    ensures { result ≡ parameters_are_named view_names (texts_of parameters.now) }
{
    let names = [
        "startkey",
        "endkey",
        "inclusive_end",
        "descending",
        "skip",
        "limit",
    ];
    are_named(parameters, &names)
}

/// Makes the range from one key to another, in the direction of a listing.
fn keys_between(start: Option<IndexKey>, end: Option<IndexKey>, range: &IdRange) -> KeyRange
    ensures { result ≡ keys_between start end range.now }
{
    let side = end_side(range.descending, range.inclusive_end);
    let (low, high) = if range.descending {
        (cut_at(side, end), cut_at(CutSide::After, start))
    } else {
        (cut_at(CutSide::Before, start), cut_at(side, end))
    };
    KeyRange {
        low,
        high,
        descending: range.descending,
        skip: range.skip,
        limit: range.limit,
        counted: false,
    }
}

/// Tells on which side of the key that ends a range it is cut.
fn end_side(descending: bool, inclusive: bool) -> CutSide
    ensures { result ≡ end_side descending inclusive }
{
    if descending == inclusive {
        CutSide::Before
    } else {
        CutSide::After
    }
}

/// Makes a cut at a key, where there is one.
fn cut_at(side: CutSide, key: Option<IndexKey>) -> Option<KeyCut>
    ensures { result ≡ cut_at side key }
{
    match key {
        Some(key) => Some(KeyCut { key, side }),
        None => None,
    }
}

/// Reads the key at a name.
fn value_at(alloc: Global, parameters: &[(String, String)], name: &str) -> Got<Given<IndexKey>>
    ensures { IfOk result (λ key. given_of key ≡ given_at json_in_text name.now (texts_of parameters.now)) }
{
    match sole_value(parameters, name) {
        Given::Absent => Ok(Given::Absent),
        Given::Malformed => Ok(Given::Malformed),
        Given::Value(value) => Ok(Given::read(read_value(alloc, value)?)),
    }
}

/// Reads a key, which is a JSON value; `None` where the text is something else.
fn read_value(alloc: Global, value: &str) -> Got<Option<IndexKey>>
    ensures { IfOk result (λ key. key ≡ json_in_text value.now) }
{
    match read(alloc, value.as_bytes()) {
        Ok(value) => Ok(Some(IndexKey::new(value))),
        Err(JsonFault::Memory) => Err(NoMemory),
        Err(_) => Ok(None),
    }
}
