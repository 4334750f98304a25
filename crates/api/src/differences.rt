//! Which revisions a request asks about (CouchDB manual, api/database/misc).

ghost use Rattle.std.specs.Prelude.{◌≡◌, IfOk, option_map};
ghost use Rattle.couch_json.specs.View.{members_view, view};
ghost use Rattle.read.specs.DifferencesAsked.{all_asked};
ghost use Rattle.api.specs.Listings.{requested_differences, revisions_of_members};

use crate::query::list_revisions;
use couch_json::{Got, Json, NameMap};
use read::AskedRevisions;
use std::alloc::Global;

/// Reads the revisions that a body asks about: an object from texts to lists of revisions; `None`
/// where it is of another form.
pub fn differences_in(alloc: Global, value: &Json) -> Got<Option<Vec<AskedRevisions>>>
    ensures { IfOk result (λ asked. option_map (λ all. all_asked all.items) asked ≡ requested_differences (view value.now)) }
{
    match value.members() {
        Some(members) => revisions_of(alloc, members),
        None => Ok(None),
    }
}

/// Reads the lists of revisions of an object, in order.
fn revisions_of(alloc: Global, members: &NameMap<Json>) -> Got<Option<Vec<AskedRevisions>>>
    ensures { IfOk result (λ asked. option_map (λ all. all_asked all.items) asked ≡ revisions_of_members (members_view members.now.entries)) }
{
    let mut asked = Vec::new(alloc);
    for (id, value) in members.as_slice() {
        let Some(revs) = list_revisions(alloc, value)? else {
            return Ok(None);
        };
        let id = String::from_str(alloc, id.as_str())?;
        asked.push(AskedRevisions { id, revs })?;
    }
    Ok(Some(asked))
}
