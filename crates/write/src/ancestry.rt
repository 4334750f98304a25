//! The history that a replicated document comes with: `_revisions`, or its one revision.

ghost use Rattle.std.specs.Prelude.{◌≡◌, IfOk, List, codes, option_map, option_and_then, ℕ};
ghost use Rattle.couch_json.specs.Parts.{items_in, text_in};
ghost use Rattle.couch_json.specs.Value.{member_of};
ghost use Rattle.couch_json.specs.View.{view, items_view};
ghost use Rattle.tree.specs.Revision.{Revision, revision_of};
ghost use Rattle.write.specs.inner.AncestryRead.{ancestry_of, given_of};
ghost use Rattle.write.specs.Document.{ancestry_alone, ancestry_by, ancestry_if_newest, given_revisions, is_newest};
ghost use Rattle.write.specs.Document.{number_if, path_of_hashes, ancestry_given, sent_in, start_in, without_member};

use couch_json::{Got, Json};
use std::alloc::Global;
use tree::Rev;

/// What a document says of its history.
#[derive(Drop)]
pub(crate) struct Ancestry {
    /// How many revisions it has.
    pub(crate) start: u32,
    /// Its revisions, newest first.
    pub(crate) path: Vec<Rev>,
}

/// What a document says of its history by `_revisions`.
#[derive(Drop)]
pub(crate) enum GivenAncestry {
    /// Nothing: it has no `_revisions`.
    Absent,
    /// Its `_revisions` is of another form.
    Malformed,
    /// It has this history.
    Given(Ancestry),
}

/// Takes `_revisions` out of a document and reads what it says. Returns the rest of the document beside
/// it, which says the same besides.
pub(crate) fn take_given(alloc: Global, document: Json) -> Got<(GivenAncestry, Json)>
    ensures given { IfOk result (λ taken. given_of taken.0 ≡ given_revisions (view document)) }
    ensures sent { IfOk result (λ taken. (id : List ℕ) → sent_in id (view taken.1) ≡ sent_in id (view document)) }
{
    let (value, rest) = take_member(document, "_revisions");
    let given = read_given(alloc, value)?;
    Ok((given, rest))
}

/// Reads what `_revisions` says, where it is given.
fn read_given(alloc: Global, value: Option<Json>) -> Got<GivenAncestry>
    ensures { IfOk result (λ given. given_of given ≡ option_map ancestry_given (option_map view value)) }
{
    let Some(value) = value else {
        return Ok(GivenAncestry::Absent);
    };
    match read_revisions(alloc, value)? {
        Some(ancestry) => Ok(GivenAncestry::Given(ancestry)),
        None => Ok(GivenAncestry::Malformed),
    }
}

/// Takes the member of this name out of a value, where it is an object that has one. Returns the rest of
/// the value beside it.
fn take_member(value: Json, name: &str) -> (Option<Json>, Json)
    ensures taken { option_map view result.0 ≡ member_of (view value) name.now }
    ensures rest { view result.1 ≡ without_member name.now (view value) }
{
    match value {
        Json::Object(members) => {
            let mut members = members;
            let taken = members.remove(name);
            (taken, Json::Object(members))
        }
        _ => (None, value),
    }
}

/// Finds the history of a replicated document that names this revision: what `_revisions` says, or
/// the revision alone. `None` where the document comes without one, or says different things of it.
pub(crate) fn find_ancestry(
    alloc: Global,
    given: GivenAncestry,
    rev: Option<Rev>,
) -> Got<Option<Ancestry>>
    ensures { IfOk result (λ ancestry. option_map ancestry_of ancestry ≡ ancestry_by (given_of given) rev) }
{
    match given {
        GivenAncestry::Absent => make_alone(alloc, rev),
        GivenAncestry::Malformed => Ok(None),
        GivenAncestry::Given(said) => Ok(match_newest(said, rev)),
    }
}

/// Makes the history of a revision that comes alone.
fn make_alone(alloc: Global, rev: Option<Rev>) -> Got<Option<Ancestry>>
    ensures { IfOk result (λ ancestry. option_map ancestry_of ancestry ≡ option_map ancestry_alone rev) }
{
    let Some(rev) = rev else {
        return Ok(None);
    };
    let mut path = Vec::with_capacity(alloc, 1)?;
    path.push(rev)?;
    Ok(Some(Ancestry { start: 1, path }))
}

/// Keeps the history whose newest revision is the one that the document names, if it names one.
fn match_newest(said: Ancestry, rev: Option<Rev>) -> Option<Ancestry>
    ensures { option_map ancestry_of result ≡ ancestry_if_newest rev (ancestry_of said) }
{
    if is_newest(said.start, &said.path, rev) {
        Some(said)
    } else {
        None
    }
}

/// Tells whether the document's revision, if it names one, has this number and the first hash of the
/// path.
fn is_newest(start: u32, path: &[Rev], rev: Option<Rev>) -> bool
    ensures { result ≡ is_newest start path.now rev }
{
    match (path.first(), rev) {
        (Some(newest), Some(rev)) => rev.number() == start && rev.hash() == newest.hash(),
        (Some(_newest), None) => true,
        (None, _rev) => false,
    }
}

/// Reads what `_revisions` says; `None` where it is not of its form.
fn read_revisions(alloc: Global, value: Json) -> Got<Option<Ancestry>>
    ensures { IfOk result (λ said. option_map ancestry_of said ≡ ancestry_given (view value)) }
{
    if !value.has_only(&["start", "ids"]) {
        return Ok(None);
    }
    let Some(start) = read_start(&value) else {
        return Ok(None);
    };
    let Some(ids) = take_ids(value) else {
        return Ok(None);
    };
    match read_path(alloc, ids)? {
        Some(path) => Ok(Some(Ancestry { start, path })),
        None => Ok(None),
    }
}

/// Reads the number that `start` gives the newest revision.
fn read_start(value: &Json) -> Option<u32>
    ensures { result ≡ start_in (view value.now) }
{
    match value.member("start") {
        Some(Json::Whole(number)) => check_number(number.value()),
        _ => None,
    }
}

/// Keeps a number that is one of a revision.
fn check_number(number: i128) -> Option<u32>
    ensures { result ≡ number_if number }
{
    if number < 1 || number > 2_147_483_647 {
        return None;
    }
    Some(number as u32)
}

/// Takes the list that `ids` is; `None` where it is not given or is no list.
fn take_ids(value: Json) -> Option<Vec<Json>>
    ensures { option_map (λ ids. items_view ids.items) result ≡ option_and_then items_in (member_of (view value) (codes "ids")) }
{
    let (ids, _rest) = take_member(value, "ids");
    match ids {
        Some(Json::Array(ids)) => Some(ids),
        _ => None,
    }
}

/// Reads the revisions of these hashes, newest first and down to number 1. Each hash is dropped before
/// the next one is read.
fn read_path(alloc: Global, ids: Vec<Json>) -> Got<Option<Vec<Rev>>>
    ensures { IfOk result (λ path. option_map (λ revs. revs.items) path ≡ path_of_hashes (items_view ids.items)) }
{
    let mut number = ids.len();
    let mut path = Vec::with_capacity(alloc, number)?;
    for id in ids {
        let Some(rev) = revision_at(number, &id) else {
            return Ok(None);
        };
        path.push(rev)?;
        number -= 1;
    }
    Ok(Some(path))
}

/// Reads the revision of a number and a hash.
fn revision_at(number: usize, hash: &Json) -> Option<Rev>
    ensures { result ≡ option_and_then (λ text. revision_of number text) (text_in (view hash.now)) }
{
    let hash = hash.text()?;
    if number > 2_147_483_647 {
        return None;
    }
    Rev::new(number as u32, hash)
}
