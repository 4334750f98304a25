ghost use Rattle.std.specs.Prelude.{◌≡◌, OnOk};
ghost use Rattle.couch_json.specs.Value.{put, text as text_value};
ghost use Rattle.couch_json.specs.View.{members_view};

use couch_json::{Got, Json, NameMap, put_member};
use std::alloc::Global;

/// Puts a text at a name into the members of an object.
pub fn put_text(alloc: Global, members: &mut NameMap<Json>, name: &str, text: &str) -> Got<()>
    ensures { OnOk result (members_view members.new.entries
        ≡ put name.now (text_value text.now) (members_view members.old.entries)) }
{
    let text = String::from_str(alloc, text)?;
    put_member(alloc, members, name, Json::Text(text))
}
