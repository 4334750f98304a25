ghost use Rattle.std.specs.Prelude.{◌≡◌, option_map, option_to_list};
ghost use Rattle.std.specs.List.{list_any};
ghost use Rattle.auth.specs.Roles.{is_among};
ghost use Rattle.couch_json.specs.Parts.{text_in};
ghost use Rattle.couch_json.specs.View.{view, items_view};
ghost use Rattle.policy.specs.Security.{is_empty, is_in_group, is_name_among, is_vacant, item_texts, listed_in};

use auth::Caller;
use couch_json::Json;

/// Tells whether the caller is in the group, by name or by a role.
pub(crate) fn is_in(group: Option<&Json>, caller: &Caller) -> bool
    ensures { result ≡ is_in_group (option_map (λ v. view v.now) group.entry) caller.now }
{
    is_named(list_under(group, "names"), caller) || has_role(list_under(group, "roles"), caller)
}

/// Tells whether the group names nobody.
pub(crate) fn is_vacant(group: Option<&Json>) -> bool
    ensures { result ≡ is_vacant (option_map (λ v. view v.now) group.entry) }
{
    has_no_text(list_under(group, "names")) && has_no_text(list_under(group, "roles"))
}

/// Returns the elements of the list that a group has under this name, or none.
fn list_under<'a>(group: Option<&'a Json>, part: &str) -> &'a [Json]
    ensures { item_texts (items_view result.now) ≡ listed_in (option_map (λ v. view v.now) group.entry) part.now }
{
    let Some(group) = group else {
        return &[];
    };
    let Some(list) = group.member(part) else {
        return &[];
    };
    match list.items() {
        Some(items) => items,
        None => &[],
    }
}

fn is_named(names: &[Json], caller: &Caller) -> bool
    ensures { result ≡ is_name_among caller.now.name (item_texts (items_view names.now)) }
{
    match caller.name() {
        Some(name) => has_text(names, name),
        None => false,
    }
}

/// Tells whether one of the roles is the caller's. Each is looked up among those of the caller, whose
/// list may be long too.
fn has_role(roles: &[Json], caller: &Caller) -> bool
    ensures { result ≡ list_any (λ role. is_among role (item_texts (items_view roles.now))) caller.now.roles }
{
    for role in roles {
        if is_role(role, caller) {
            return true;
        }
    }
    false
}

fn is_role(item: &Json, caller: &Caller) -> bool
    ensures { result ≡ list_any (λ role. is_among role (option_to_list (text_in (view item.now)))) caller.now.roles }
{
    match item.text() {
        Some(role) => caller.has_role(role),
        None => false,
    }
}

/// Tells whether the text is one of the elements.
fn has_text(items: &[Json], text: &str) -> bool
    ensures { result ≡ is_among text.now (item_texts (items_view items.now)) }
{
    for item in items {
        if is_same_text(item, text) {
            return true;
        }
    }
    false
}

fn is_same_text(item: &Json, text: &str) -> bool
    ensures { result ≡ is_among text.now (option_to_list (text_in (view item.now))) }
{
    match item.text() {
        Some(found) => found == text,
        None => false,
    }
}

fn has_no_text(items: &[Json]) -> bool
    ensures { result ≡ is_empty (item_texts (items_view items.now)) }
{
    for item in items {
        if item.is_text() {
            return false;
        }
    }
    true
}
