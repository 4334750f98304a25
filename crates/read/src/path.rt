ghost use Rattle.std.specs.Prelude.{◌≡◌, map, IfOk, OnOk};
ghost use Rattle.couch_json.specs.Value.{text};
ghost use Rattle.couch_json.specs.View.{view, members_view};
ghost use Rattle.read.specs.Path.{revisions_of, with_paths};

use couch_json::{Got, Json, NameMap, Number, put_member};
use std::alloc::Global;
use tree::{Outline, Rev};

/// Puts the path of a known revision into the members of its document, where the paths are given.
pub(crate) fn put_revisions(
    alloc: Global,
    members: &mut NameMap<Json>,
    paths: &Option<Outline>,
    rev: &Rev,
) -> Got<()>
    ensures { OnOk result (members_view members.new.entries ≡ with_paths paths.now rev.now (members_view members.old.entries)) }
{
    let Some(outline) = paths else {
        return Ok(());
    };
    let Some(path) = outline.chain(rev)? else {
        return Ok(());
    };
    put_member(alloc, members, "_revisions", revisions(alloc, rev, &path)?)
}

/// Returns the path whose newest revision is this one, as `_revisions` has it.
fn revisions(alloc: Global, rev: &Rev, path: &[Rev]) -> Got<Json>
    ensures { IfOk result (λ value. view value ≡ revisions_of rev.now path.now) }
{
    let mut members = NameMap::new(alloc);
    put_member(
        alloc,
        &mut members,
        "ids",
        Json::Array(hashes(alloc, path)?),
    )?;
    let start = Number::from(i64::from(rev.number()));
    put_member(alloc, &mut members, "start", Json::Whole(start))?;
    Ok(Json::Object(members))
}

fn hashes(alloc: Global, path: &[Rev]) -> Got<Vec<Json>>
    ensures { IfOk result (λ hashes. map view hashes.items ≡ map (λ r. text r.hash) path.now) }
{
    let mut hashes = Vec::with_capacity(alloc, path.len())?;
    for rev in path {
        hashes.push(Json::Text(String::from_str(alloc, rev.hash())?))?;
    }
    Ok(hashes)
}
