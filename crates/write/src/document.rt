//! What a document that a client sends says, besides its history.

ghost use Rattle.std.specs.Prelude.{◌≡◌, IfOk, option_map, string_bytes};
ghost use Rattle.couch_json.specs.View.{view, members_view};
ghost use Rattle.write.specs.Document.{are_allowed, body_for, body_in, fits_id, id_in_bulk, id_in, is_body_for, is_document_member};
ghost use Rattle.store.specs.SpecialMembers.{is_special};
ghost use Rattle.write.specs.Document.{mark_in, member_text, given_revision, sent_in, without_special, words_in};
ghost use Rattle.write.specs.inner.Edits.{named_of};

use couch_json::{Got, Json, NameMap, NoMemory};
use policy::check_design;
use std::alloc::Global;
use tree::{Body, DocId, IdFault, Rev};

/// The most that a body may nest.
pub(crate) const MAX_BODY_DEPTH: usize = 100;

/// What a document says besides its id and its history.
#[derive(Drop)]
pub(crate) struct ParsedDocument {
    /// The revision that it names.
    pub(crate) rev: Option<Rev>,
    /// Whether it is deleted.
    pub(crate) deleted: bool,
    /// What is left of it without its special members.
    pub(crate) body: Body,
}

/// The revision that a document or an edit names.
#[derive(Clone, Copy, Drop)]
pub(crate) enum NamedRevision {
    /// It names none.
    Absent,
    /// It names something other than a revision, or two revisions that differ.
    Malformed,
    /// It names this one.
    Given(Rev),
}

/// Reads what a document with this id says; `None` where it is a bad one.
pub(crate) fn read_sent(alloc: Global, id: &DocId, document: Json) -> Got<Option<ParsedDocument>>
    ensures { IfOk result (λ sent. sent ≡ sent_in id.now (view document)) }
{
    let Some((rev, deleted)) = read_words(id, &document) else {
        return Ok(None);
    };
    let Some(body) = read_body(alloc, id, document)? else {
        return Ok(None);
    };
    let body = Body::new(body);
    Ok(Some(ParsedDocument { rev, deleted, body }))
}

/// Reads the revision and the mark of deletion that a document says; `None` where its id is another
/// one or one of them is not of its form.
fn read_words(id: &DocId, document: &Json) -> Option<(Option<Rev>, bool)>
    ensures { result ≡ words_in id.now (view document.now) }
{
    if !fits_id(id, document.member("_id")) {
        return None;
    }
    let rev = match parse_revision(document.member("_rev")) {
        NamedRevision::Absent => None,
        NamedRevision::Malformed => return None,
        NamedRevision::Given(rev) => Some(rev),
    };
    let deleted = read_mark(document.member("_deleted"))?;
    Some((rev, deleted))
}

/// Reads the body of a document with this id; `None` where it is no object, has special members that
/// no document has, nests too deep, or is not the body that a design document may have.
fn read_body(alloc: Global, id: &DocId, document: Json) -> Got<Option<Json>>
    ensures { IfOk result (λ body. option_map view body ≡ body_for id.now (view document)) }
{
    let Some(body) = strip(alloc, document) else {
        return Ok(None);
    };
    if suits(alloc, id, &body)? {
        Ok(Some(body))
    } else {
        Ok(None)
    }
}

/// Tells whether a document with this id may have this body.
fn suits(alloc: Global, id: &DocId, body: &Json) -> Got<bool>
    ensures { IfOk result (λ good. good ≡ is_body_for id.now (view body.now)) }
{
    if id.is_design() {
        check_design(alloc, body)
    } else {
        Ok(true)
    }
}

/// Strips a document of its special members; `None` where it is no object, has special members that
/// no document has, or nests too deep.
fn strip(alloc: Global, document: Json) -> Option<Json>
    ensures { option_map view result ≡ body_in (view document) }
{
    let Json::Object(members) = document else {
        return None;
    };
    if !are_allowed(&members) {
        return None;
    }
    let body = Json::Object(without_special(alloc, members));
    if !body.nests_within(MAX_BODY_DEPTH) {
        return None;
    }
    Some(body)
}

fn are_allowed(members: &NameMap<Json>) -> bool
    ensures { result ≡ are_allowed is_document_member (members_view members.now.entries) }
{
    for (name, _value) in members.as_slice() {
        if is_special(name) && !is_document_member(name) {
            return false;
        }
    }
    true
}

/// Tells whether a member is special, by its name.
pub(crate) fn is_special(name: &str) -> bool
    ensures { result ≡ is_special name.now }
{
    name.as_bytes().starts_with(b"_")
}

fn is_document_member(name: &str) -> bool
    ensures { result ≡ is_document_member name.now }
{
    name == "_id" || name == "_rev" || name == "_deleted" || name == "_revisions"
}

/// Returns the members that are not special.
pub(crate) fn without_special(alloc: Global, members: NameMap<Json>) -> NameMap<Json>
    ensures { members_view result.entries ≡ without_special (members_view members.entries) }
{
    let mut members = members;
    members.retain(|(name, _value)| !is_special(name));
    without_room(alloc, members)
}

/// Returns the same members. Where there are none they take no memory: a map keeps its room when the
/// last member goes.
fn without_room(alloc: Global, members: NameMap<Json>) -> NameMap<Json>
    ensures { result.entries ≡ members.entries }
{
    if members.is_empty() {
        NameMap::new(alloc)
    } else {
        members
    }
}

/// Tells whether `_id`, where it is given, is the text of the id.
pub(crate) fn fits_id(id: &DocId, value: Option<&Json>) -> bool
    ensures { result ≡ fits_id id.now (option_map (λ v. view v.now) value.entry) }
{
    let Some(value) = value else {
        return true;
    };
    match value.text() {
        Some(text) => text == id.as_str(),
        None => false,
    }
}

/// Parses the revision that `_rev` gives, if it is given.
fn parse_revision(value: Option<&Json>) -> NamedRevision
    ensures { named_of result ≡ given_revision (option_map (λ v. view v.now) value.entry) }
{
    let Some(value) = value else {
        return NamedRevision::Absent;
    };
    let Some(text) = value.text() else {
        return NamedRevision::Malformed;
    };
    match Rev::parse(text.as_bytes()) {
        Some(rev) => NamedRevision::Given(rev),
        None => NamedRevision::Malformed,
    }
}

/// Tells whether `_deleted` marks the document as deleted; `None` where it is neither true nor false.
fn read_mark(value: Option<&Json>) -> Option<bool>
    ensures { result ≡ mark_in (option_map (λ v. view v.now) value.entry) }
{
    match value {
        Some(value) => value.truth(),
        None => Some(false),
    }
}

/// Reads the id that a document of several gives itself; `None` where it gives none, or that of a
/// local document.
pub(crate) fn read_id(alloc: Global, document: &Json) -> Got<Option<DocId>>
    ensures { IfOk result (λ id. id ≡ id_in (view document.now)) }
{
    match document.member("_id") {
        Some(Json::Text(text)) => parse_id(alloc, text),
        _ => Ok(None),
    }
}

/// Parses the id of a document that is no local one.
fn parse_id(alloc: Global, text: &str) -> Got<Option<DocId>>
    ensures { IfOk result (λ id. id ≡ id_in_bulk text.now) }
{
    let id = match DocId::new(alloc, text) {
        Ok(id) => id,
        Err(IdFault::Shape) => return Ok(None),
        Err(IdFault::Memory) => return Err(NoMemory),
    };
    if id.is_local() {
        return Ok(None);
    }
    Ok(Some(id))
}

/// Copies the text of a member, where there is one and it is a text.
pub(crate) fn copy_text(alloc: Global, document: &Json, name: &str) -> Got<Option<String>>
    ensures { IfOk result (λ text. option_map string_bytes text ≡ member_text name.now (view document.now)) }
{
    match document.member(name) {
        Some(Json::Text(text)) => Ok(Some(String::from_str(alloc, text.as_str())?)),
        _ => Ok(None),
    }
}
