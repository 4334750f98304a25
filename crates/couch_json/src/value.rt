ghost use Rattle.std.specs.Prelude.{◌≡◌, ◌≤◌, ◌↔◌, IfOk, IsTrue, map, option_copied, option_map};

use crate::copying::copy_value;
use crate::members::are_named;
use crate::nested::value_within;
use crate::no_memory::Got;
use crate::number::Number;
use name_map::NameMap;
use std::alloc::Global;

/// A JSON value (RFC 8259) whose numbers are whole.
///
/// An object has each name once, in byte order of the names' UTF-8.
#[derive(Debug, PartialEq, Drop)]
pub enum Json {
    /// `null`
    Null,
    /// `true` or `false`
    Truth(bool),
    /// A whole number from -2^63 to 2^64 - 1.
    Whole(Number),
    /// A string.
    Text(String),
    /// An array, its elements in order.
    Array(Vec<Json>),
    /// An object: a value for each of its names.
    Object(NameMap<Json>),
}

impl Json {
    ghost use Rattle.couch_json.specs.Parts.{has_only, is_object, is_text, items_in, members_in, text_in, truth_in, whole_in};
    ghost use Rattle.couch_json.specs.Value.{depth, member_of};
    ghost use Rattle.couch_json.specs.View.{view, items_view, members_view};

    /// Copies the value into memory of its own.
    pub fn copy(&self, alloc: Global) -> Got<Json>
        ensures { IfOk result (λ copy. view copy ≡ view self.now) }
    {
        copy_value(alloc, self)
    }

    /// Tests whether the value nests at most `limit` deep: a scalar is 0 deep, an empty array 1.
    pub fn nests_within(&self, limit: usize) -> bool
        ensures { IsTrue result ↔ (depth (view self.now) ≤ limit) }
    {
        value_within(self, limit)
    }

    /// Returns `true` or `false`, where the value is one of them.
    pub fn truth(&self) -> Option<bool>
        ensures { result ≡ truth_in (view self.now) }
    {
        match self {
            Json::Truth(truth) => Some(*truth),
            _ => None,
        }
    }

    /// Returns the number, where the value is one.
    pub fn whole(&self) -> Option<Number>
        ensures { result ≡ whole_in (view self.now) }
    {
        match self {
            Json::Whole(number) => Some(*number),
            _ => None,
        }
    }

    /// Returns the text, where the value is one.
    pub fn text(&self) -> Option<&str>
        ensures { option_copied result ≡ text_in (view self.now) }
    {
        match self {
            Json::Text(text) => Some(text.as_str()),
            _ => None,
        }
    }

    /// Returns the elements, where the value is an array.
    pub fn items(&self) -> Option<&[Json]>
        ensures { option_map (λ items. items_view items.now) result ≡ items_in (view self.now) }
    {
        match self {
            Json::Array(items) => Some(items.as_slice()),
            _ => None,
        }
    }

    /// Returns the members, where the value is an object.
    pub fn members(&self) -> Option<&NameMap<Json>>
        ensures { option_map (λ members. members_view members.now.entries) result ≡ members_in (view self.now) }
    {
        match self {
            Json::Object(members) => Some(members),
            _ => None,
        }
    }

    /// Tests whether the value is a text.
    pub fn is_text(&self) -> bool
        ensures { result ≡ is_text (view self.now) }
    {
        matches!(self, Json::Text(_))
    }

    /// Tests whether the value is an object.
    pub fn is_object(&self) -> bool
        ensures { result ≡ is_object (view self.now) }
    {
        matches!(self, Json::Object(_))
    }

    /// Tests whether the value is an object that has no members but of these names. It need not
    /// have each.
    pub fn has_only(&self, names: &[&str]) -> bool
        ensures { result ≡ has_only (map (λ name. name.now) names.now) (view self.now) }
    {
        match self {
            Json::Object(members) => are_named(members, names),
            _ => false,
        }
    }

    /// Returns the value of the member of this name, where this is an object that has one.
    pub fn member(&self, name: &str) -> Option<&Json>
        ensures { option_map (λ v. view v.now) result ≡ member_of (view self.now) name.now }
    {
        match self {
            Json::Object(members) => members.get(name),
            _ => None,
        }
    }
}
