ghost use Rattle.std.specs.Prelude.{◌≤◌, ◌↔◌, IsTrue};
ghost use Rattle.couch_json.specs.Value.{depth, items_depth, members_depth};
ghost use Rattle.couch_json.specs.View.{view, items_view, members_view};

use crate::value::Json;
use name_map::NameMap;

/// Tells whether the value nests at most `limit` deep.
#[cycle(within)]
pub(crate) fn value_within(value: &Json, limit: usize) -> bool
    ensures { IsTrue result ↔ (depth (view value.now) ≤ limit) }
{
    match value {
        Json::Null | Json::Truth(_) | Json::Whole(_) | Json::Text(_) => true,
        Json::Array(items) => limit > 0 && items_within(items, limit - 1),
        Json::Object(members) => limit > 0 && members_within(members, limit - 1),
    }
}

#[cycle(within)]
fn items_within(items: &Vec<Json>, limit: usize) -> bool
    ensures { IsTrue result ↔ (items_depth (items_view items.now.items) ≤ limit) }
{
    for item in items {
        if !value_within(item, limit) {
            return false;
        }
    }
    true
}

#[cycle(within)]
fn members_within(members: &NameMap<Json>, limit: usize) -> bool
    ensures { IsTrue result ↔ (members_depth (members_view members.now.entries) ≤ limit) }
{
    for (_name, member) in members.as_slice() {
        if !value_within(member, limit) {
            return false;
        }
    }
    true
}
