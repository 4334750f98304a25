//! What a sort asks for (CouchDB manual, api/database/find, "Sort Syntax").

ghost use Rattle.std.specs.Prelude.{◌≡◌, bytes_eq, option_map};
ghost use Rattle.couch_json.specs.View.{items_view, members_view, view};
ghost use Rattle.find.specs.Queries.{direction_text, entry_in, goes_down, is_descending, path_in, sole_member};
ghost use Rattle.find.specs.Queries.{sort_entries, sort_field, sort_fields, sort_fields_of};
ghost use Rattle.find.specs.Reading.{ReadsAsDefined};

use crate::fault::QueryFault;
use crate::sort_fields::SortFields;
use couch_json::{FieldPath, Json, NameMap, PathFault};
use std::alloc::Global;

/// Returns the entries of a sort, which has to be a list; where there is none, it has none.
pub(crate) fn sort_entries(sort: Option<&Json>) -> Result<&[Json], QueryFault>
    ensures { ReadsAsDefined (λ entries. items_view entries.now) (sort_entries (option_map (λ v. view v.now) sort.entry)) result }
{
    match sort {
        Some(sort) => sort.items().ok_or(QueryFault::Shape),
        None => Ok(&[]),
    }
}

/// Tells whether a sort goes down, as its first entry does.
pub(crate) fn is_descending(entries: &[Json]) -> bool
    ensures { result ≡ is_descending (items_view entries.now) }
{
    match entries.first() {
        Some(entry) => goes_down(entry),
        None => false,
    }
}

/// Reads the fields of a sort, at most 8, whose entries have one direction.
#[tactic(auto, using(policy::proofs::Fields::items_length_of_view))]
pub(crate) fn read_fields(alloc: Global, entries: &[Json]) -> Result<SortFields, QueryFault>
    ensures { ReadsAsDefined (λ fields. fields) (sort_fields (items_view entries.now)) result }
{
    if entries.len() > 8 {
        return Err(QueryFault::Shape);
    }
    let fields = read_each(alloc, entries, is_descending(entries))?;
    Ok(SortFields::new(fields))
}

/// Reads the fields of entries, each of which has to have this direction.
pub(crate) fn read_each(
    alloc: Global,
    entries: &[Json],
    descending: bool,
) -> Result<Vec<FieldPath>, QueryFault>
    ensures { ReadsAsDefined (λ fields. fields.items) (sort_fields_of descending (items_view entries.now)) result }
{
    let mut fields = Vec::with_capacity(alloc, entries.len())?;
    for entry in entries {
        fields.push(read_field(alloc, entry, descending)?)?;
    }
    Ok(fields)
}

/// Reads the field of an entry that has this direction.
fn read_field(alloc: Global, entry: &Json, descending: bool) -> Result<FieldPath, QueryFault>
    ensures { ReadsAsDefined (λ field. field) (sort_field descending (view entry.now)) result }
{
    let Some((path, direction)) = parts_of(entry) else {
        return Err(QueryFault::Shape);
    };
    if !is_direction(descending, direction) {
        return Err(QueryFault::Shape);
    }
    read_path(alloc, path)
}

fn read_path(alloc: Global, text: &str) -> Result<FieldPath, QueryFault>
    ensures { ReadsAsDefined (λ path. path) (path_in text.now) result }
{
    match FieldPath::parse(alloc, text) {
        Ok(path) => Ok(path),
        Err(PathFault::Shape) => Err(QueryFault::Shape),
        Err(PathFault::Memory) => Err(QueryFault::Memory),
    }
}

fn goes_down(entry: &Json) -> bool
    ensures { result ≡ goes_down (view entry.now) }
{
    match parts_of(entry) {
        Some((_path, direction)) => is_direction(true, direction),
        None => false,
    }
}

fn is_direction(descending: bool, text: &str) -> bool
    ensures { result ≡ bytes_eq text.now (direction_text descending) }
{
    if descending {
        text == "desc"
    } else {
        text == "asc"
    }
}

/// Returns the path and the direction of an entry, as texts.
fn parts_of(entry: &Json) -> Option<(&str, &str)>
    ensures { option_map (λ parts. (parts.0.now, parts.1.now)) result ≡ entry_in (view entry.now) }
{
    match entry {
        Json::Text(path) => Some((path.as_str(), "asc")),
        Json::Object(members) => {
            let (path, direction) = sole_member(members)?;
            Some((path, direction.text()?))
        }
        _ => None,
    }
}

/// Returns the name and the value of the one member, where there is no other.
fn sole_member(members: &NameMap<Json>) -> Option<(&str, &Json)>
    ensures { option_map (λ m. (m.0.now, view m.1.now)) result ≡ sole_member (members_view members.now.entries) }
{
    let mut members = members.as_slice().iter();
    let (name, value) = members.next()?;
    match members.next() {
        Some(_) => None,
        None => Some((name.as_str(), value)),
    }
}
