ghost use Rattle.std.specs.Prelude.{◌≡◌, IfOk};
ghost use Rattle.couch_json.specs.View.{view, items_view, members_view};

use crate::no_memory::Got;
use crate::value::Json;
use name_map::NameMap;
use std::alloc::Global;

#[cycle(copy)]
pub(crate) fn copy_value(alloc: Global, value: &Json) -> Got<Json>
    ensures { IfOk result (λ copy. view copy ≡ view value.now) }
{
    match value {
        Json::Null => Ok(Json::Null),
        Json::Truth(truth) => Ok(Json::Truth(*truth)),
        Json::Whole(number) => Ok(Json::Whole(*number)),
        Json::Text(text) => Ok(Json::Text(text.clone()?)),
        Json::Array(items) => Ok(Json::Array(copy_items(alloc, items)?)),
        Json::Object(members) => Ok(Json::Object(copy_members(alloc, members)?)),
    }
}

#[cycle(copy)]
fn copy_items(alloc: Global, items: &Vec<Json>) -> Got<Vec<Json>>
    ensures { IfOk result (λ copies. items_view copies.items ≡ items_view items.now.items) }
{
    let mut copies = Vec::with_capacity(alloc, items.len())?;
    for item in items {
        copies.push(copy_value(alloc, item)?)?;
    }
    Ok(copies)
}

#[cycle(copy)]
fn copy_members(alloc: Global, members: &NameMap<Json>) -> Got<NameMap<Json>>
    ensures { IfOk result (λ copies. members_view copies.entries ≡ members_view members.now.entries) }
{
    let mut copies = NameMap::with_capacity(alloc, members.len())?;
    for (name, member) in members.as_slice() {
        let name = name.clone()?;
        drop(copies.insert(name, copy_value(alloc, member)?)?);
    }
    Ok(copies)
}
