ghost use Rattle.std.specs.Prelude.{◌≡◌};
ghost use Rattle.std.specs.Ordering.{nat_cmp};
ghost use Rattle.couch_json.specs.Collation.{collation, kind_rank, items_collation, members_collation};
ghost use Rattle.couch_json.specs.View.{view, items_view, members_view};

use crate::value::Json;
use name_map::NameMap;
use std::cmp::Ordering;

/// Compares two values (CouchDB manual, "Views Collation", with texts by their bytes):
/// null, false, true, numbers, texts, arrays element by element, objects member by member.
///
/// Members go in byte order of their names, each by name and then value; what is a proper front
/// of the other is less. `Equal` comes of equal values alone.
#[cycle(collate)]
pub fn collate(left: &Json, right: &Json) -> Ordering
    ensures { result ≡ collation (view left.now) (view right.now) }
{
    match (left, right) {
        (Json::Truth(left), Json::Truth(right)) => left.cmp(right),
        (Json::Whole(left), Json::Whole(right)) => left.value().cmp(&right.value()),
        (Json::Text(left), Json::Text(right)) => left.as_bytes().cmp(right.as_bytes()),
        (Json::Array(left), Json::Array(right)) => collate_items(left, right),
        (Json::Object(left), Json::Object(right)) => collate_members(left, right),
        _ => rank(left).cmp(&rank(right)),
    }
}

/// Tells where the value's kind stands among the kinds.
fn rank(value: &Json) -> u8
    ensures { result ≡ kind_rank (view value.now) }
{
    match value {
        Json::Null => 0,
        Json::Truth(_) => 1,
        Json::Whole(_) => 2,
        Json::Text(_) => 3,
        Json::Array(_) => 4,
        Json::Object(_) => 5,
    }
}

#[cycle(collate)]
fn collate_items(left: &Vec<Json>, right: &Vec<Json>) -> Ordering
    ensures { result ≡ items_collation (items_view left.now.items) (items_view right.now.items) }
{
    let mut others = right.iter();
    for item in left {
        let Some(other) = others.next() else {
            return Ordering::Greater;
        };
        let order = collate(item, other);
        if order.is_ne() {
            return order;
        }
    }
    if others.next().is_some() {
        return Ordering::Less;
    }
    Ordering::Equal
}

#[cycle(collate)]
fn collate_members(left: &NameMap<Json>, right: &NameMap<Json>) -> Ordering
    ensures { result ≡ members_collation (members_view left.now.entries) (members_view right.now.entries) }
{
    let mut others = right.as_slice().iter();
    for (name, member) in left.as_slice() {
        let Some((other_name, other)) = others.next() else {
            return Ordering::Greater;
        };
        let order = name.as_bytes().cmp(other_name.as_bytes());
        if order.is_ne() {
            return order;
        }
        let order = collate(member, other);
        if order.is_ne() {
            return order;
        }
    }
    if others.next().is_some() {
        return Ordering::Less;
    }
    Ordering::Equal
}
