//! The declaration of an index (CouchDB manual, api/database/find).

ghost use Rattle.std.specs.Prelude.{◌≡◌, IfOk, option_and_then, option_map, string_bytes, true};
ghost use Rattle.couch_json.specs.View.{items_view, view};
ghost use Rattle.policy.specs.DesignDocuments.{is_index_name};
ghost use Rattle.tree.specs.DocumentId.{is_design_id};
ghost use Rattle.find.specs.IndexRead.{index_asked};
ghost use Rattle.find.specs.Indexes.{design_in, field_list, index_fields, index_in, index_name_in, is_json_type};
ghost use Rattle.find.specs.Reading.{ReadsAsDefined};

use crate::fault::QueryFault;
use crate::sort::read_each;
use couch_json::{FieldPath, Json};
use std::alloc::Global;
use tree::{DocId, IdFault};

/// An index that is to be declared.
pub struct Index {
    /// The id of the design document that declares it.
    pub design: DocId,
    /// Its name, of 1 to 64 bytes.
    pub name: String,
    /// Its fields, 1 to 8.
    pub fields: Vec<FieldPath>,
}

// Written out, so that callers do not prove again how each part is dropped.
impl Drop for Index {
    fn drop(self) {
        let Index {
            design: _,
            name: _,
            fields: _,
        } = self;
    }
}

impl Index {
    /// Reads the index that a JSON value asks to declare: an object with `ddoc`, `index` and `name`, and
    /// maybe with `type`, which is `"json"`.
    ///
    /// `ddoc` is the name of the design document, without `_design/`. `index` is an object with `fields`
    /// alone, 1 to 8, each a path or `{"PATH":"asc"}`. `Shape` comes if and only if it asks for none,
    /// unless memory runs out first. See the CouchDB manual, api/database/find.
    pub fn read(alloc: Global, value: &Json) -> Result<Index, QueryFault>
        ensures asked { ReadsAsDefined index_asked (index_in (view value.now)) result }
        ensures design { IfOk result (λ index. is_design_id index.design ≡ true) }
    {
        if !value.has_only(&["ddoc", "index", "name", "type"]) || !is_json(value.member("type")) {
            return Err(QueryFault::Shape);
        }
        Ok(Index {
            design: read_design(alloc, value.member("ddoc"))?,
            name: read_name(alloc, value.member("name"))?,
            fields: read_fields(alloc, value.member("index"))?,
        })
    }
}

/// Tells whether the type of an index is the one that there is.
fn is_json(kind: Option<&Json>) -> bool
    ensures { result ≡ is_json_type (option_map (λ v. view v.now) kind.entry) }
{
    match kind {
        Some(Json::Text(kind)) => kind.as_str() == "json",
        Some(_) => false,
        None => true,
    }
}

/// Reads the id of the design document that a value names.
fn read_design(alloc: Global, value: Option<&Json>) -> Result<DocId, QueryFault>
    ensures named { ReadsAsDefined (λ id. id) (option_and_then design_in (option_map (λ v. view v.now) value.entry)) result }
    ensures design { IfOk result (λ id. is_design_id id ≡ true) }
{
    let Some(Json::Text(name)) = value else {
        return Err(QueryFault::Shape);
    };
    let mut text = String::from_str(alloc, "_design/")?;
    text.push_str(name)?;
    match DocId::new(alloc, &text) {
        Ok(id) if id.is_design() => Ok(id),
        Ok(_) | Err(IdFault::Shape) => Err(QueryFault::Shape),
        Err(IdFault::Memory) => Err(QueryFault::Memory),
    }
}

/// Reads the name of an index.
fn read_name(alloc: Global, value: Option<&Json>) -> Result<String, QueryFault>
    ensures { ReadsAsDefined string_bytes (option_and_then index_name_in (option_map (λ v. view v.now) value.entry)) result }
{
    match value {
        Some(Json::Text(name)) if is_index_name(name) => Ok(String::from_str(
            alloc,
            name.as_str(),
        )?),
        _ => Err(QueryFault::Shape),
    }
}

fn is_index_name(name: &str) -> bool
    ensures { result ≡ is_index_name name.now }
{
    !name.is_empty() && name.len() <= 64
}

/// Reads the fields of an index.
fn read_fields(alloc: Global, value: Option<&Json>) -> Result<Vec<FieldPath>, QueryFault>
    ensures { ReadsAsDefined (λ fields. fields.items) (option_and_then index_fields (option_map (λ v. view v.now) value.entry)) result }
{
    let Some(index) = value else {
        return Err(QueryFault::Shape);
    };
    if !index.has_only(&["fields"]) {
        return Err(QueryFault::Shape);
    }
    match index.member("fields") {
        Some(Json::Array(entries)) => read_list(alloc, entries),
        _ => Err(QueryFault::Shape),
    }
}

/// Reads 1 to 8 fields that go up.
#[tactic(auto, using(policy::proofs::Fields::items_length_of_view))]
fn read_list(alloc: Global, entries: &[Json]) -> Result<Vec<FieldPath>, QueryFault>
    ensures { ReadsAsDefined (λ fields. fields.items) (field_list (items_view entries.now)) result }
{
    if entries.is_empty() || entries.len() > 8 {
        return Err(QueryFault::Shape);
    }
    read_each(alloc, entries, false)
}
