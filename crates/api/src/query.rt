//! What the query of a document's page asks for (CouchDB manual, api/document/common).

ghost use Rattle.std.specs.Prelude.{◌≡◌, IfOk, option_copied, option_map};
ghost use Rattle.couch_http.specs.Message.{message_of};
ghost use Rattle.couch_json.specs.View.{items_view, view};
ghost use Rattle.api.specs.RequestReading.{Says};
ghost use Rattle.api.specs.Queried.{choice_of, given_of, query_of, texts_of};
ghost use Rattle.api.specs.Queries.{requested_revisions, asked_of_document, document_query, requested_open_revisions, document_query_by, revision_asked};
ghost use Rattle.api.specs.Queries.{revision_in, revision_query, revisions, revisions_in, revisions_listed};
ghost use Rattle.api.specs.Refusals.{there_or};

use crate::fault::RequestFault;
use crate::given::Given;
use crate::parameters::{are_named, flag_at, parameters, sole_value};
use crate::refusal::Refusal;
use couch_http::Request;
use couch_json::{Got, Json, JsonFault, NoMemory, read};
use std::alloc::Global;
use tree::Rev;

/// What is asked of a document.
pub struct DocumentQuery {
    /// Which revisions.
    pub asked: Asked,
    /// Whether with the revisions before each.
    pub revs: bool,
}

// Written out, so that callers do not prove again how each part is dropped.
impl Drop for DocumentQuery {
    fn drop(self) {
        let DocumentQuery { asked: _, revs: _ } = self;
    }
}

/// Which revisions of a document are asked for.
#[derive(Drop)]
pub enum Asked {
    /// The winner.
    Winner,
    /// This revision.
    Revision(Rev),
    /// All leaves.
    Leaves,
    /// These revisions, in order.
    Revisions(Vec<Rev>),
}

/// Reads what a document's reader asks for.
pub fn document_query(alloc: Global, request: &Request) -> Result<DocumentQuery, RequestFault>
    ensures { Says query_of result (there_or Refusal.Query (document_query (message_of request.now).query)) }
{
    let parameters = parameters(alloc, &request.query)?;
    match asked_of_document(alloc, &parameters)? {
        Some(query) => Ok(query),
        None => Err(RequestFault::Refused(Refusal::Query)),
    }
}

/// Reads what the parameters ask for.
#[tactic(auto, using(crate::proofs::Listed::asked_by_values))]
fn asked_of_document(alloc: Global, parameters: &[(String, String)]) -> Got<Option<DocumentQuery>>
    ensures { IfOk result (λ query. option_map query_of query ≡ asked_of_document (texts_of parameters.now)) }
{
    if !are_named(parameters, &["rev", "revs", "open_revs"]) {
        return Ok(None);
    }
    let rev = sole_value(parameters, "rev");
    if rev.is_malformed() {
        return Ok(None);
    }
    let open_revs = sole_value(parameters, "open_revs");
    if open_revs.is_malformed() {
        return Ok(None);
    }
    let revs = flag_at(parameters, "revs");
    if revs.is_malformed() {
        return Ok(None);
    }
    query_by(alloc, rev.value(), open_revs.value(), revs.value())
}

/// Reads what the three parameters ask for together.
fn query_by(
    alloc: Global,
    rev: Option<&str>,
    open_revs: Option<&str>,
    revs: Option<bool>,
) -> Got<Option<DocumentQuery>>
    ensures { IfOk result (λ query. option_map query_of query ≡ document_query_by (option_copied rev.entry) (option_copied open_revs.entry) revs) }
{
    let Some(asked) = asked_by(alloc, rev, open_revs)? else {
        return Ok(None);
    };
    Ok(Some(DocumentQuery {
        asked,
        revs: revs.unwrap_or(false),
    }))
}

/// Reads which revisions `rev` and `open_revs` ask for.
fn asked_by(alloc: Global, rev: Option<&str>, open_revs: Option<&str>) -> Got<Option<Asked>>
    ensures { IfOk result (λ asked. option_map choice_of asked ≡ requested_revisions (option_copied rev.entry) (option_copied open_revs.entry)) }
{
    match (rev, open_revs) {
        (None, None) => Ok(Some(Asked::Winner)),
        (Some(rev), None) => match Rev::parse(rev.as_bytes()) {
            Some(rev) => Ok(Some(Asked::Revision(rev))),
            None => Ok(None),
        },
        (None, Some(open_revs)) => read_open_revisions(alloc, open_revs),
        (Some(_), Some(_)) => Ok(None),
    }
}

/// Reads the open revisions that are asked for: `all`, or a JSON list of revisions.
fn read_open_revisions(alloc: Global, value: &str) -> Got<Option<Asked>>
    ensures { IfOk result (λ asked. option_map choice_of asked ≡ requested_open_revisions value.now) }
{
    if value == "all" {
        return Ok(Some(Asked::Leaves));
    }
    match read(alloc, value.as_bytes()) {
        Ok(value) => read_revisions(alloc, &value),
        Err(JsonFault::Memory) => Err(NoMemory),
        Err(_) => Ok(None),
    }
}

/// Reads the revisions that a list spells.
fn read_revisions(alloc: Global, value: &Json) -> Got<Option<Asked>>
    ensures { IfOk result (λ asked. option_map choice_of asked ≡ option_map revisions (revisions_listed (view value.now))) }
{
    match list_revisions(alloc, value)? {
        Some(revs) => Ok(Some(Asked::Revisions(revs))),
        None => Ok(None),
    }
}

/// Reads the revisions that a list spells, in order; `None` where the value is no such list.
pub(crate) fn list_revisions(alloc: Global, value: &Json) -> Got<Option<Vec<Rev>>>
    ensures { IfOk result (λ revs. option_map (λ rs. rs.items) revs ≡ revisions_listed (view value.now)) }
{
    match value.items() {
        Some(items) => spelled_by(alloc, items),
        None => Ok(None),
    }
}

/// Reads the revisions that elements spell, in order.
#[tactic(auto, using(crate::proofs::Listed::revisions_go_on))]
fn spelled_by(alloc: Global, items: &[Json]) -> Got<Option<Vec<Rev>>>
    ensures { IfOk result (λ revs. option_map (λ rs. rs.items) revs ≡ revisions_in (items_view items.now)) }
{
    let mut revs = Vec::with_capacity(alloc, items.len())?;
    for item in items {
        let Some(rev) = revision_in(item) else {
            return Ok(None);
        };
        revs.push(rev)?;
    }
    Ok(Some(revs))
}

/// Reads the revision that a value spells.
fn revision_in(value: &Json) -> Option<Rev>
    ensures { result ≡ revision_in (view value.now) }
{
    Rev::parse(value.text()?.as_bytes())
}

/// Reads the revision that a document's writer names, if any.
pub fn revision_query(alloc: Global, request: &Request) -> Result<Option<Rev>, RequestFault>
    ensures { Says (λ rev. rev) result (there_or Refusal.Query (revision_query (message_of request.now).query)) }
{
    let parameters = parameters(alloc, &request.query)?;
    match revision_asked(&parameters) {
        Given::Absent => Ok(None),
        Given::Malformed => Err(RequestFault::Refused(Refusal::Query)),
        Given::Value(rev) => Ok(Some(rev)),
    }
}

/// Reads the revision that the parameters name; malformed where there is another parameter too.
fn revision_asked(parameters: &[(String, String)]) -> Given<Rev>
    ensures { given_of result ≡ revision_asked (texts_of parameters.now) }
{
    if !are_named(parameters, &["rev"]) {
        return Given::Malformed;
    }
    match sole_value(parameters, "rev") {
        Given::Absent => Given::Absent,
        Given::Malformed => Given::Malformed,
        Given::Value(value) => Given::read(Rev::parse(value.as_bytes())),
    }
}
