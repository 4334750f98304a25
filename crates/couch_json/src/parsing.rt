ghost use Rattle.std.specs.Prelude.{◌≡◌, ◌≢◌, ◌<◌, length, option_map, IfOk, IfErr, OnOk, None};
ghost use Rattle.json.specs.Json.{value, items, members};
ghost use Rattle.serde_json.specs.Data.{no_members as no_data};
ghost use Rattle.serde_json.specs.Read.{of_json, of_items, of_members, converted};
ghost use Rattle.couch_json.specs.inner.Parsing.{IsRead, AreItemsRead, AreMembersRead, with_item, put_whole};
ghost use Rattle.couch_json.specs.Value.{no_members};
ghost use Rattle.couch_json.specs.View.{view, items_view, members_view};

use crate::fault::JsonFault;
use crate::no_memory::Got;
use crate::numeral::read_number;
use crate::value::Json;
use json::{Reader, Token};
use name_map::NameMap;
use std::alloc::Global;
use std::cmp::max;
use std::collections::BTreeMap;

/// Reads one value, which may nest `depth` deep. `None` says that it was read, and that a number of it
/// is not whole or out of range.
#[cycle(read_value)]
pub(crate) fn read_value(
    alloc: Global,
    reader: &mut Reader<'_>,
    depth: usize,
) -> Result<Option<Json>, JsonFault>
    ensures read { IfOk result (λ found. IsRead depth reader.old found reader.new) }
    ensures shorter { OnOk result (length reader.new < length reader.old) }
    ensures fault { IfErr result (λ e. e ≢ JsonFault.Memory
        → (e ≡ JsonFault.Syntax) × (converted of_json (value depth reader.old) ≡ None)) }
{
    let token = reader.next().ok_or(JsonFault::Syntax)?;
    match token {
        Token::Null => Ok(Some(Json::Null)),
        Token::Bool(truth) => Ok(Some(Json::Truth(truth))),
        Token::Number(text) => match read_number(text)? {
            Some(number) => Ok(Some(Json::Whole(number))),
            None => Ok(None),
        },
        Token::String(text) => Ok(Some(Json::Text(String::from_str(alloc, text)?))),
        Token::EndObject | Token::EndArray | Token::Key(_) | Token::Bad => Err(JsonFault::Syntax),
        Token::BeginArray => {
            if depth == 0 {
                return Err(JsonFault::Syntax);
            }
            match read_items(alloc, reader, depth - 1)? {
                Some(items) => Ok(Some(Json::Array(items))),
                None => Ok(None),
            }
        }
        Token::BeginObject => {
            if depth == 0 {
                return Err(JsonFault::Syntax);
            }
            match read_members(alloc, reader, depth - 1)? {
                Some(members) => Ok(Some(Json::Object(members))),
                None => Ok(None),
            }
        }
    }
}

/// Reads the elements of an array, behind the bracket that opens it and up to the one that closes it.
#[cycle(read_value)]
fn read_items(
    alloc: Global,
    reader: &mut Reader<'_>,
    depth: usize,
) -> Result<Option<Vec<Json>>, JsonFault>
    ensures read { IfOk result (λ found. AreItemsRead depth reader.old
        (option_map (λ vs. items_view vs.items) found) reader.new) }
    ensures shorter { OnOk result (length reader.new < length reader.old) }
    ensures fault { IfErr result (λ e. e ≢ JsonFault.Memory → (e ≡ JsonFault.Syntax)
        × (converted of_items (items (value depth) (length reader.old) reader.old) ≡ None)) }
{
    let mut found = Some(Vec::new(alloc));
    'items: while !reader.take_end_array() {
        let item = read_value(alloc, reader, depth)?;
        found = push_item(found, item)?;
    }
    Ok(fit_items(found))
}

/// Gives back the room behind the elements.
fn fit_items(items: Option<Vec<Json>>) -> Option<Vec<Json>>
    ensures { option_map (λ vs. items_view vs.items) result
        ≡ option_map (λ vs. items_view vs.items) items }
{
    let mut items = items?;
    items.shrink_to_fit();
    Some(items)
}

/// Puts the element behind the others, where all of them have values.
fn push_item(items: Option<Vec<Json>>, item: Option<Json>) -> Result<Option<Vec<Json>>, JsonFault>
    ensures pushed { IfOk result (λ pushed. option_map (λ vs. items_view vs.items) pushed
        ≡ with_item (option_map (λ vs. items_view vs.items) items) (option_map view item)) }
    ensures fault { IfErr result (λ e. e ≡ JsonFault.Memory) }
{
    let Some(mut items) = items else {
        return Ok(None);
    };
    let Some(item) = item else {
        return Ok(None);
    };
    make_room(&mut items)?;
    items.push(item)?;
    Ok(Some(items))
}

/// Makes room for one more element. Room doubles from one element on, where a push would begin with
/// four: most arrays are short.
fn make_room(items: &mut Vec<Json>) -> Got<()>
    ensures { items.new.items ≡ items.old.items }
{
    if items.len() == items.capacity() {
        items.reserve_exact(max(1, items.len()))?;
    }
    Ok(())
}

/// Reads the members of an object, behind the brace that opens it and up to the one that closes it.
#[cycle(read_value)]
fn read_members(
    alloc: Global,
    reader: &mut Reader<'_>,
    depth: usize,
) -> Result<Option<NameMap<Json>>, JsonFault>
    ensures read { IfOk result (λ found. AreMembersRead depth reader.old
        (option_map (λ ms. members_view ms.entries) found) reader.new) }
    ensures shorter { OnOk result (length reader.new < length reader.old) }
    ensures fault { IfErr result (λ e. e ≢ JsonFault.Memory → (e ≡ JsonFault.Syntax)
        × (converted (λ ms. of_members ms no_data)
        (members (value depth) (length reader.old) reader.old) ≡ None)) }
{
    let mut found = BTreeMap::new(alloc);
    'members: while let Some(name) = reader.next_key()? {
        let name = String::from_str(alloc, name)?;
        let member = read_value(alloc, reader, depth)?;
        drop(found.insert(name, member)?);
    }
    keep_whole(alloc, found)
}

/// Returns the members, or `None` where one of them has no value.
fn keep_whole(
    alloc: Global,
    found: BTreeMap<String, Option<Json>>,
) -> Result<Option<NameMap<Json>>, JsonFault>
    ensures kept { IfOk result (λ members. option_map (λ ms. members_view ms.entries) members
        ≡ put_whole found.entries no_members) }
    ensures fault { IfErr result (λ e. e ≡ JsonFault.Memory) }
{
    let mut members = NameMap::with_capacity(alloc, found.len())?;
    for (name, member) in found {
        let Some(member) = member else {
            return Ok(None);
        };
        drop(members.insert(name, member)?);
    }
    Ok(Some(members))
}
