//! How the texts of elements and of members are joined.

ghost use Rattle.std.specs.Prelude.{◌≡◌, ◌++◌, IfOk, IsUtf8, OnOk, codes, string_bytes};
ghost use Rattle.json.specs.Print.{quoted};
ghost use Rattle.couch_json.specs.Said.{behind_comma};

use crate::no_memory::Got;
use crate::value::Json;
use crate::writing::canon;
use std::alloc::Global;

/// Writes the name of a member with its colon, with a comma before it unless it is the first.
pub(crate) fn key_text(alloc: Global, name: &str, is_first: bool) -> Got<String>
    ensures text { IfOk result (λ text. string_bytes text ≡ behind_comma is_first (quoted name.now ++ codes ":")) }
    ensures utf8 { OnOk result (IsUtf8 name.now) }
{
    let name = Json::Text(String::from_str(alloc, name)?);
    let mut text = canon(alloc, &name)?;
    text.push_str(":")?;
    put_comma(text, is_first)
}

/// Puts a comma before a text, unless it is the first.
pub(crate) fn put_comma(text: String, is_first: bool) -> Got<String>
    ensures { IfOk result (λ new. string_bytes new ≡ behind_comma is_first (string_bytes text)) }
{
    let mut text = text;
    if !is_first {
        text.insert_str(0, ",")?;
    }
    Ok(text)
}

/// Joins two texts, in the place of the longer.
pub(crate) fn join_texts(front: String, back: String) -> Got<String>
    ensures { IfOk result (λ whole. string_bytes whole ≡ string_bytes front ++ string_bytes back) }
{
    let mut front = front;
    let mut back = back;
    if front.len() < back.len() {
        back.insert_str(0, front.as_str())?;
        return Ok(back);
    }
    front.push_str(back.as_str())?;
    Ok(front)
}
