ghost use Rattle.std.specs.Prelude.{◌≡◌, ◌≤◌, ◌++◌, IfOk, OnOk, Ok, string_bytes};
ghost use Rattle.couch_json.specs.Canonical.{canonical};
ghost use Rattle.couch_json.specs.Lawful.{IsLawful, AreLawfulItems, HasAscendingNames, AreLawfulMembers};
ghost use Rattle.couch_json.specs.Nesting.{max_open};
ghost use Rattle.couch_json.specs.Range.{IsInRange};
ghost use Rattle.couch_json.specs.Reading.{reading};
ghost use Rattle.couch_json.specs.Value.{array, object, whole, depth};
ghost use Rattle.couch_json.specs.View.{view, items_view, members_view};
ghost use Rattle.couch_json.specs.inner.Written.{value_tokens};

use crate::no_memory::Got;
use crate::number::Number;
use crate::value::Json;
use json::Writer;
use name_map::NameMap;
use std::alloc::Global;

/// Writes the canonical text of the value, compact and in UTF-8, with no line end.
///
/// An object's members stand in byte order of their names; texts have the shortest escapes.
pub fn canon(alloc: Global, value: &Json) -> Got<String>
    ensures text { IfOk result (λ text. string_bytes text ≡ canonical (view value.now)) }
    ensures lawful { OnOk result (IsLawful (view value.now)) }

    // The text of a value at most 110 deep reads as that value.
    ensures reads_back { IfOk result (λ text. depth (view value.now) ≤ max_open
        → reading (string_bytes text) ≡ Ok (view value.now)) }
{
    let mut out = Writer::new(Vec::new(alloc));
    put_value(&mut out, value)?;
    let Ok(text) = String::from_utf8(out.into_inner()) else {
        unreachable!()
    };
    Ok(text)
}

#[cycle(put)]
fn put_value(out: &mut Writer, value: &Json) -> Got<()>
    ensures tokens { OnOk result (out.new.tokens ≡ out.old.tokens ++ value_tokens (view value.now)) }
    ensures before { OnOk result (out.new.before ≡ out.old.before) }
    ensures lawful { OnOk result (IsLawful (view value.now)) }
{
    match value {
        Json::Null => out.null()?,
        Json::Truth(truth) => out.boolean(*truth)?,
        Json::Whole(number) => put_number(out, *number)?,
        Json::Text(text) => out.string(text.as_str())?,
        Json::Array(items) => put_items(out, items)?,
        Json::Object(members) => put_members(out, members)?,
    }
    Ok(())
}

fn put_number(out: &mut Writer, number: Number) -> Got<()>
    ensures tokens { OnOk result (out.new.tokens ≡ out.old.tokens ++ value_tokens (whole number)) }
    ensures before { OnOk result (out.new.before ≡ out.old.before) }
    ensures range { IsInRange number }
{
    let value = number.value();
    if value < 0 {
        out.i64(value as i64)?;
    } else {
        out.u64(value as u64)?;
    }
    Ok(())
}

#[cycle(put)]
fn put_items(out: &mut Writer, items: &Vec<Json>) -> Got<()>
    ensures tokens { OnOk result (out.new.tokens
        ≡ out.old.tokens ++ value_tokens (array (items_view items.now.items))) }
    ensures before { OnOk result (out.new.before ≡ out.old.before) }
    ensures lawful { OnOk result (AreLawfulItems (items_view items.now.items)) }
{
    out.begin_array()?;
    for item in items {
        put_value(out, item)?;
    }
    out.end_array()?;
    Ok(())
}

#[cycle(put)]
fn put_members(out: &mut Writer, members: &NameMap<Json>) -> Got<()>
    ensures tokens { OnOk result (out.new.tokens
        ≡ out.old.tokens ++ value_tokens (object (members_view members.now.entries))) }
    ensures before { OnOk result (out.new.before ≡ out.old.before) }
    ensures names { OnOk result (HasAscendingNames (members_view members.now.entries)) }
    ensures lawful { OnOk result (AreLawfulMembers (members_view members.now.entries)) }
{
    out.begin_object()?;
    for (name, member) in members.as_slice() {
        out.key(name.as_str())?;
        put_value(out, member)?;
    }
    out.end_object()?;
    Ok(())
}
