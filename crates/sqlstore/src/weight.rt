//! How much memory a value takes, about.

use couch_json::{Json, NameMap};

/// So many bytes a value takes at most beside its text, its elements and its members, or the name of a member.
const VALUE: usize = 64;

/// Tells whether a value takes less than about so many bytes. No more of it is walked than takes these.
pub(crate) fn takes_less(value: &Json, bytes: usize) -> bool {
    left_beside(value, bytes) > 0
}

/// Returns how many bytes are left of so many beside a value; 0 where it takes as many or more.
#[cycle(weight)]
fn left_beside(value: &Json, left: usize) -> usize {
    let left = left.saturating_sub(VALUE);
    match value {
        Json::Null | Json::Truth(_) | Json::Whole(_) => left,
        Json::Text(text) => left.saturating_sub(text.len()),
        Json::Array(items) => left_beside_items(items, left),
        Json::Object(members) => left_beside_members(members, left),
    }
}

#[cycle(weight)]
fn left_beside_items(items: &Vec<Json>, left: usize) -> usize {
    let mut left = left;
    for item in items {
        if left == 0 {
            return 0;
        }
        left = left_beside(item, left);
    }
    left
}

#[cycle(weight)]
fn left_beside_members(members: &NameMap<Json>, left: usize) -> usize {
    let mut left = left;
    for (name, member) in members.as_slice() {
        if left == 0 {
            return 0;
        }
        left = left_beside(
            member,
            left.saturating_sub(VALUE).saturating_sub(name.len()),
        );
    }
    left
}
