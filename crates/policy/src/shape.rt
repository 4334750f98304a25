ghost use Rattle.std.specs.Prelude.{◌≡◌, option_map};
ghost use Rattle.couch_json.specs.View.{view, items_view};
ghost use Rattle.policy.specs.Security.{are_texts, is_absent_or, is_group, is_list_of_texts, is_security, max_depth};

use couch_json::Json;

/// How deep a security object may nest.
const MAX_DEPTH: usize = 100;

/// Tests whether the value is a security object.
pub(crate) fn is_security(value: &Json) -> bool
    ensures { result ≡ is_security (view value.now) }
{
    value.is_object()
        && is_absent_or_group(value.member("admins"))
        && is_absent_or_group(value.member("members"))
        && value.nests_within(MAX_DEPTH)
}

fn is_absent_or_group(value: Option<&Json>) -> bool
    ensures { result ≡ is_absent_or is_group (option_map (λ v. view v.now) value.entry) }
{
    match value {
        Some(value) => {
            value.is_object()
                && is_absent_or_texts(value.member("names"))
                && is_absent_or_texts(value.member("roles"))
        }
        None => true,
    }
}

fn is_absent_or_texts(value: Option<&Json>) -> bool
    ensures { result ≡ is_absent_or is_list_of_texts (option_map (λ v. view v.now) value.entry) }
{
    match value {
        Some(value) => is_list_of_texts(value),
        None => true,
    }
}

fn is_list_of_texts(value: &Json) -> bool
    ensures { result ≡ is_list_of_texts (view value.now) }
{
    match value.items() {
        Some(items) => are_texts(items),
        None => false,
    }
}

fn are_texts(items: &[Json]) -> bool
    ensures { result ≡ are_texts (items_view items.now) }
{
    for item in items {
        if !item.is_text() {
            return false;
        }
    }
    true
}
