//! Members of objects, read and put.

ghost use Rattle.std.specs.Prelude.{◌≡◌, OnOk, option_copied, option_map};
ghost use Rattle.couch_json.specs.Value.{put, text as text_value};
ghost use Rattle.couch_json.specs.View.{members_view, view};
ghost use Rattle.repl.specs.Shapes.{count_at, text_at};

use crate::count::Count;
use couch_json::{Got, Json, NameMap, put_member};
use std::alloc::Global;

/// Returns the text of a member, if it is one.
pub fn text_at<'a>(value: &'a Json, name: &str) -> Option<&'a str>
    ensures { option_copied result ≡ text_at name.now (view value.now) }
{
    match value.member(name) {
        Some(member) => member.text(),
        None => None,
    }
}

/// Returns the count of a member, if it is one.
pub fn count_at(value: &Json, name: &str) -> Option<Count>
    ensures { option_map (λ c. c.value) result ≡ count_at name.now (view value.now) }
{
    match value.member(name) {
        Some(member) => Count::read(member),
        None => None,
    }
}

/// Puts a text at a name into the members of an object.
pub fn put_text(alloc: Global, members: &mut NameMap<Json>, name: &str, text: &str) -> Got<()>
    ensures { OnOk result (members_view members.new.entries
        ≡ put name.now (text_value text.now) (members_view members.old.entries)) }
{
    let text = String::from_str(alloc, text)?;
    put_member(alloc, members, name, Json::Text(text))
}
