ghost use Rattle.std.specs.Prelude.{◌≡◌, OnErr, OnOk, bytes_eq, map};
ghost use Rattle.std.specs.List.{list_any};
ghost use Rattle.couch_json.specs.Parts.{are_named};
ghost use Rattle.couch_json.specs.Value.{put};
ghost use Rattle.couch_json.specs.View.{view, members_view};

use crate::no_memory::Got;
use crate::value::Json;
use name_map::NameMap;
use std::alloc::Global;

/// Puts a value at a name into the members of an object, in place of the value there.
///
/// After a refusal the members are as they were.
pub fn put_member(alloc: Global, members: &mut NameMap<Json>, name: &str, value: Json) -> Got<()>
    ensures ok { OnOk result (members_view members.new.entries
        ≡ put name.now (view value) (members_view members.old.entries)) }
    ensures err { OnErr result (members_view members.new.entries ≡ members_view members.old.entries) }
{
    drop(members.insert(String::from_str(alloc, name)?, value)?);
    Ok(())
}

/// Tests whether each member has one of these names.
pub(crate) fn are_named(members: &NameMap<Json>, names: &[&str]) -> bool
    ensures { result ≡ are_named (map (λ name. name.now) names.now) (members_view members.now.entries) }
{
    for (name, _value) in members.as_slice() {
        if !is_among(name.as_str(), names) {
            return false;
        }
    }
    true
}

/// Tells whether a name is one of these, byte for byte.
pub fn is_among(name: &str, names: &[&str]) -> bool
    ensures { result ≡ list_any (λ known. bytes_eq known name.now) (map (λ known. known.now) names.now) }
{
    for known in names {
        if *known == name {
            return true;
        }
    }
    false
}
