//! The parts of a request's path, and what a part says once its escapes are read (RFC 3986, sections 2.1 and 3.3).

ghost use Rattle.std.specs.Prelude.{◌≡◌, ◌++◌, ◌∷◌, IfOk, IsTrue, false, option_map, option_copied, string_bytes};
ghost use Rattle.tree.specs.DocumentId.{is_local_id};
ghost use Rattle.api.specs.RequestReading.{Says};
ghost use Rattle.api.specs.Paths.{database_name_in, decoded_text, decoded_at, document_id_in, id_text_in};
ghost use Rattle.api.specs.Paths.{index_name_in_path, local_id_in, named_id_in, part_at, slash, text_if};
ghost use Rattle.api.specs.Refusals.{there_or};
ghost use Rattle.std.specs.Str.{is_utf8};

use crate::fault::RequestFault;
use crate::refusal::Refusal;
use couch_json::Got;
use percent_encoding::percent_decode;
use std::alloc::Global;
use std::str;
use store::{DbName, NameFault};
use tree::{DocId, IdFault};

/// Reads the name of the database that a path leads into.
pub fn database_name(alloc: Global, path: &str) -> Result<DbName, RequestFault>
    ensures { Says (λ name. name) result (there_or Refusal.DatabaseName (database_name_in path.now)) }
{
    let Some(text) = decoded_part(alloc, path, 1)? else {
        return Err(RequestFault::Refused(Refusal::DatabaseName));
    };
    match DbName::new(alloc, text.as_str()) {
        Ok(name) => Ok(name),
        Err(NameFault::Shape) => Err(RequestFault::Refused(Refusal::DatabaseName)),
        Err(NameFault::Memory) => Err(RequestFault::Memory),
    }
}

/// Reads the id of the document that a path leads to, which is no local one.
pub fn document_id(alloc: Global, path: &str) -> Result<DocId, RequestFault>
    ensures says { Says (λ id. id) result (there_or Refusal.Id (document_id_in path.now)) }
    ensures plain { IfOk result (λ id. is_local_id id ≡ false) }
{
    let id = named_id(alloc, path)?;
    if id.is_local() {
        return Err(RequestFault::Refused(Refusal::Id));
    }
    Ok(id)
}

/// Reads the id of the local document that a path leads to.
pub fn local_id(alloc: Global, path: &str) -> Result<DocId, RequestFault>
    ensures says { Says (λ id. id) result (there_or Refusal.Id (local_id_in path.now)) }
    ensures local { IfOk result (λ id. IsTrue (is_local_id id)) }
{
    let id = named_id(alloc, path)?;
    if !id.is_local() {
        return Err(RequestFault::Refused(Refusal::Id));
    }
    Ok(id)
}

/// Reads the id that a path names behind the database.
fn named_id(alloc: Global, path: &str) -> Result<DocId, RequestFault>
    ensures { Says (λ id. id) result (there_or Refusal.Id (named_id_in path.now)) }
{
    let Some(text) = id_text(alloc, path)? else {
        return Err(RequestFault::Refused(Refusal::Id));
    };
    match DocId::new(alloc, text.as_str()) {
        Ok(id) => Ok(id),
        Err(IdFault::Shape) => Err(RequestFault::Refused(Refusal::Id)),
        Err(IdFault::Memory) => Err(RequestFault::Memory),
    }
}

/// Reads the name of the index that the path of a view ends with.
pub fn index_name(alloc: Global, path: &str) -> Result<String, RequestFault>
    ensures { Says string_bytes result (there_or Refusal.Id (index_name_in_path path.now)) }
{
    match decoded_part(alloc, path, 5)? {
        Some(name) => Ok(name),
        None => Err(RequestFault::Refused(Refusal::Id)),
    }
}

/// Reads the text that names a document: what stands behind the database's name, one part of the
/// path, or two with a slash between them.
fn id_text(alloc: Global, path: &str) -> Got<Option<String>>
    ensures { IfOk result (λ text. option_map string_bytes text ≡ id_text_in path.now) }
{
    let Some(first) = decoded_part(alloc, path, 2)? else {
        return Ok(None);
    };
    if part(path.as_bytes(), 3).is_none() {
        return Ok(Some(first));
    }
    match decoded_part(alloc, path, 3)? {
        Some(second) => Ok(Some(join(first, &second)?)),
        None => Ok(None),
    }
}

/// Joins two texts by a slash.
fn join(first: String, second: &str) -> Got<String>
    ensures { IfOk result (λ text. string_bytes text ≡ string_bytes first ++ slash ∷ second.now) }
{
    let mut text = first;
    text.push('/')?;
    text.push_str(second)?;
    Ok(text)
}

/// Reads the text that the part of a path at a place stands for, where it is UTF-8.
fn decoded_part(alloc: Global, path: &str, place: usize) -> Got<Option<String>>
    ensures { IfOk result (λ text. option_map string_bytes text ≡ decoded_at place path.now) }
{
    match part(path.as_bytes(), place) {
        Some(part) => decode_part(alloc, part),
        None => Ok(None),
    }
}

/// Finds what stands between the slashes of a path, at a place counted from 0.
pub(crate) fn part(path: &[u8], place: usize) -> Option<&[u8]>
    ensures { option_copied result ≡ part_at place path.now }
{
    path.split(|byte| *byte == b'/').nth(place)
}

/// Reads the text that a part of a path stands for, where it is UTF-8.
fn decode_part(alloc: Global, part: &[u8]) -> Got<Option<String>>
    ensures { IfOk result (λ text. option_map string_bytes text ≡ decoded_text part.now) }
{
    let mut bytes = Vec::new(alloc);
    percent_decode(part).append_to(&mut bytes)?;
    match text(&bytes) {
        Some(text) => Ok(Some(String::from_str(alloc, text)?)),
        None => Ok(None),
    }
}

/// Reads the bytes as a text, where they are UTF-8.
fn text(bytes: &[u8]) -> Option<&str>
    ensures { option_copied result ≡ text_if (is_utf8 bytes.now) bytes.now }
{
    match str::from_utf8(bytes) {
        Ok(text) => Some(text),
        Err(_) => None,
    }
}
