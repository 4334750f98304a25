ghost use Rattle.couch_json.specs.Lawful.{IsLawful, AreLawfulItems, HasAscendingNames, AreLawfulMembers};
ghost use Rattle.couch_json.specs.View.{view, items_view, members_view};

use crate::value::Json;
use name_map::NameMap;

/// Walks the value and changes nothing: each part that it comes by is lawful.
#[cycle(walk)]
pub(crate) fn walk_value(value: &Json)
    ensures { IsLawful (view value.now) }
{
    match value {
        Json::Null | Json::Truth(_) => {}
        Json::Whole(number) => {
            let _number = number.value();
        }
        Json::Text(text) => {
            let _text = text.as_str();
        }
        Json::Array(items) => walk_items(items),
        Json::Object(members) => walk_members(members),
    }
}

#[cycle(walk)]
fn walk_items(items: &Vec<Json>)
    ensures { AreLawfulItems (items_view items.now.items) }
{
    for item in items {
        walk_value(item);
    }
}

#[cycle(walk)]
fn walk_members(members: &NameMap<Json>)
    ensures names { HasAscendingNames (members_view members.now.entries) }
    ensures lawful { AreLawfulMembers (members_view members.now.entries) }
{
    for (name, member) in members.as_slice() {
        let _name = name.as_str();
        walk_value(member);
    }
}
