//! What the queries of listings ask for (CouchDB manual, api/database/bulk-api and api/database/changes).

ghost use Rattle.std.specs.Prelude.{◌≡◌, IfOk, codes};
ghost use Rattle.std.specs.Char.{is_ascii_digit};
ghost use Rattle.std.specs.List.{list_all};
ghost use Rattle.couch_http.specs.Message.{message_of};
ghost use Rattle.api.specs.RequestReading.{Says};
ghost use Rattle.api.specs.Queried.{given_of, texts_of};
ghost use Rattle.api.specs.Listings.{changes_asked, changes_query, count_in_text, is_count_text, key_in};
ghost use Rattle.api.specs.Listings.{listing_names, listing_query, range_asked, range_from, style_in};
ghost use Rattle.api.specs.Queries.{parameters_are_named, flag_in, given_at};
ghost use Rattle.api.specs.Refusals.{there_or};

use crate::fault::RequestFault;
use crate::given::Given;
use crate::parameters::{are_named, flag_at, parameters, sole_value};
use crate::refusal::Refusal;
use couch_http::Request;
use couch_json::{Got, Json, JsonFault, NoMemory, read};
use std::alloc::Global;
use store::{IdRange, RangeKey, SeqRange};

/// Reads which rows a listing by id is asked for.
pub fn listing_query(alloc: Global, request: &Request) -> Result<IdRange, RequestFault>
    ensures { Says (λ range. range) result (there_or Refusal.Query (listing_query (message_of request.now).query)) }
{
    let parameters = parameters(alloc, &request.query)?;
    match read_range(alloc, &parameters)? {
        Some(range) => Ok(range),
        None => Err(RequestFault::Refused(Refusal::Query)),
    }
}

/// Reads a range from parameters; `None` where one of them is not of its form.
fn read_range(alloc: Global, parameters: &[(String, String)]) -> Got<Option<IdRange>>
    ensures { IfOk result (λ range. range ≡ range_asked (texts_of parameters.now)) }
{
    if !are_listing_names(parameters) {
        return Ok(None);
    }
    let start = key_at(alloc, parameters, "startkey")?;
    if start.is_malformed() {
        return Ok(None);
    }
    let end = key_at(alloc, parameters, "endkey")?;
    if end.is_malformed() {
        return Ok(None);
    }
    Ok(range_from(parameters, start.value(), end.value()))
}

/// Tests whether all names are those of a listing's parameters.
fn are_listing_names(parameters: &[(String, String)]) -> bool
    ensures { result ≡ parameters_are_named listing_names (texts_of parameters.now) }
{
    let names = [
        "startkey",
        "endkey",
        "inclusive_end",
        "descending",
        "skip",
        "limit",
    ];
    are_named(parameters, &names)
}

/// Reads the other parts of a range.
pub(crate) fn range_from(
    parameters: &[(String, String)],
    start: Option<RangeKey>,
    end: Option<RangeKey>,
) -> Option<IdRange>
    ensures { result ≡ range_from (texts_of parameters.now) start end }
{
    let inclusive_end = flag_at(parameters, "inclusive_end").value_or(true)?;
    let descending = flag_at(parameters, "descending").value_or(false)?;
    let skip = count_at(parameters, "skip").value_or(0)?;
    let limit = count_at(parameters, "limit");
    if limit.is_malformed() {
        return None;
    }
    Some(IdRange {
        start,
        end,
        inclusive_end,
        descending,
        skip,
        limit: limit.value(),
        counted: false,
    })
}

/// Reads which changes are asked for.
pub fn changes_query(alloc: Global, request: &Request) -> Result<SeqRange, RequestFault>
    ensures { Says (λ range. range) result (there_or Refusal.Query (changes_query (message_of request.now).query)) }
{
    let parameters = parameters(alloc, &request.query)?;
    match read_changes(&parameters) {
        Some(range) => Ok(range),
        None => Err(RequestFault::Refused(Refusal::Query)),
    }
}

/// Reads a range of changes from parameters; `None` where one of them is not of its form.
fn read_changes(parameters: &[(String, String)]) -> Option<SeqRange>
    ensures { result ≡ changes_asked (texts_of parameters.now) }
{
    if !are_named(parameters, &["since", "limit", "style"]) {
        return None;
    }
    let since = count_at(parameters, "since").value_or(0)?;
    let limit = count_at(parameters, "limit");
    if limit.is_malformed() {
        return None;
    }
    let all_leaves = style_at(parameters).value_or(false)?;
    Some(SeqRange {
        since,
        limit: limit.value(),
        all_leaves,
        counted: false,
    })
}

/// Reads the number at a name.
fn count_at(parameters: &[(String, String)], name: &str) -> Given<u64>
    ensures { given_of result ≡ given_at count_in_text name.now (texts_of parameters.now) }
{
    match sole_value(parameters, name) {
        Given::Absent => Given::Absent,
        Given::Malformed => Given::Malformed,
        Given::Value(value) => Given::read(count(value)),
    }
}

/// Reads a number of 1 to 19 digits, up to 2^63 - 1.
fn count(text: &str) -> Option<u64>
    ensures { result ≡ count_in_text text.now }
{
    if !is_count(text) {
        return None;
    }
    let Ok(number) = text.parse::<u64>() else {
        return None;
    };
    if number > 9_223_372_036_854_775_807 {
        return None;
    }
    Some(number)
}

/// Tells whether a text is of 1 to 19 digits.
fn is_count(text: &str) -> bool
    ensures { result ≡ is_count_text text.now }
{
    !text.is_empty() && text.len() <= 19 && are_digits(text.as_bytes())
}

/// Tells whether all bytes are digits.
fn are_digits(bytes: &[u8]) -> bool
    ensures { result ≡ list_all is_ascii_digit bytes.now }
{
    bytes.iter().all(|byte| byte.is_ascii_digit())
}

/// Reads from `style` whether all leaves are asked for.
fn style_at(parameters: &[(String, String)]) -> Given<bool>
    ensures { given_of result ≡ given_at style_in (codes "style") (texts_of parameters.now) }
{
    match sole_value(parameters, "style") {
        Given::Absent => Given::Absent,
        Given::Value("all_docs") => Given::Value(true),
        Given::Value("main_only") => Given::Value(false),
        Given::Value(_) | Given::Malformed => Given::Malformed,
    }
}

/// Reads the key at a name.
fn key_at(alloc: Global, parameters: &[(String, String)], name: &str) -> Got<Given<RangeKey>>
    ensures { IfOk result (λ key. given_of key ≡ given_at key_in name.now (texts_of parameters.now)) }
{
    match sole_value(parameters, name) {
        Given::Absent => Ok(Given::Absent),
        Given::Malformed => Ok(Given::Malformed),
        Given::Value(value) => Ok(Given::read(read_key(alloc, value)?)),
    }
}

/// Reads a key, which is a JSON string; `None` where the text is something else.
fn read_key(alloc: Global, value: &str) -> Got<Option<RangeKey>>
    ensures { IfOk result (λ key. key ≡ key_in value.now) }
{
    match read(alloc, value.as_bytes()) {
        Ok(Json::Text(text)) => Ok(Some(RangeKey::new(text))),
        Ok(_) => Ok(None),
        Err(JsonFault::Memory) => Err(NoMemory),
        Err(_) => Ok(None),
    }
}
