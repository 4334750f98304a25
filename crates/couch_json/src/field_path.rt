ghost use Rattle.std.specs.Prelude.{◌≡◌, ◌≢◌, ◌++◌, ℕ, true, false, List, IfOk, IfErr, option_map, map, encode_utf8, string_bytes};
ghost use Rattle.std.specs.Coded.{coded_list, coded_ℕ};
ghost use Rattle.couch_json.specs.FieldPath.{names_from, names_in, are_filled, is_field_path, value_at};
ghost use Rattle.couch_json.specs.View.{view};

use crate::malformed::Malformed;
use crate::no_memory::Got;
use crate::value::Json;
use std::alloc::Global;
use std::marker::Model;

/// Why a text was refused as a field path. One without the form is empty, longer than 256 bytes, or has an empty name.
pub type PathFault = Malformed;

/// The path to a value inside another: names separated by dots, a text of 1 to 256 bytes.
///
/// It is read from the left. `\.` is a dot in a name, every other backslash is itself, and no
/// name is empty (CouchDB manual, api/database/find, "Subfields").
#[derive(Debug)]
pub struct FieldPath {
    text: String,
    names: Vec<String>,
}

// Written out, so that callers do not prove again how each part is dropped.
impl Drop for FieldPath {
    fn drop(self) {
        let FieldPath { text: _, names: _ } = self;
    }
}

impl Model for FieldPath {
    ghost Value = { List ℕ };

    ghost coded = { coded_list coded_ℕ };

    ghost view = { λ p. string_bytes p.text };

    ghost invariant = { λ p. (is_field_path (string_bytes p.text) ≡ true)
        × (map string_bytes p.names.items ≡ names_in (string_bytes p.text)) };
}

impl FieldPath {
    /// Parses the path that a text spells; `Shape` where it spells none.
    pub fn parse(alloc: Global, text: &str) -> Result<FieldPath, PathFault>
        ensures ok { IfOk result (λ path. (path ≡ text.now) × (is_field_path text.now ≡ true)) }
        ensures fault { IfErr result (λ e. e ≢ Malformed.Memory
            → (e ≡ Malformed.Shape) × (is_field_path text.now ≡ false)) }
    {
        if text.is_empty() || text.len() > 256 {
            return Err(PathFault::Shape);
        }
        let names = names_in(alloc, text)?;
        if !are_filled(&names) {
            return Err(PathFault::Shape);
        }
        let text = String::from_str(alloc, text)?;
        Ok(FieldPath { text, names })
    }

    /// Returns the text of the path.
    pub fn as_str(&self) -> &str
        ensures text { result.now ≡ self.now }
        ensures lawful { is_field_path self.now ≡ true }
    {
        self.text.as_str()
    }
}

/// Returns the value inside of `value` that the path reaches: from object to object, name by name. A step
/// into what is no object, or has no such name, reaches nothing.
pub fn at<'a>(value: &'a Json, path: &FieldPath) -> Option<&'a Json>
    ensures { option_map (λ v. view v.now) result ≡ value_at path.now (view value.now) }
{
    let mut reached = value;
    for name in &path.names {
        reached = reached.member(name.as_str())?;
    }
    Some(reached)
}

/// Returns the names in a path's text.
fn names_in(alloc: Global, text: &str) -> Got<Vec<String>>
    ensures { IfOk result (λ names. map string_bytes names.items ≡ names_in text.now) }
{
    let mut names = Vec::new(alloc);
    let mut name = String::new(alloc);
    let mut held = false;
    for sign in text.chars() {
        if sign != '.' {
            held = take_sign(&mut name, held, sign)?;
        } else if held {
            name.push('.')?;
            held = false;
        } else {
            names.push(name)?;
            name = String::new(alloc);
        }
    }
    if held {
        name.push('\\')?;
    }
    names.push(name)?;
    Ok(names)
}

/// Takes a character other than a dot into the name, behind a backslash that was held. Answers
/// whether the character is a backslash, which is then held in its turn.
fn take_sign(name: &mut String, held: bool, sign: char) -> Got<bool>
    requires { sign ≢ 46 }
    ensures { IfOk result (λ now_held. (bytes : List ℕ) → names_from held (string_bytes name.old) (encode_utf8 sign ++ bytes)
        ≡ names_from now_held (string_bytes name.new) bytes) }
{
    if held {
        name.push('\\')?;
    }
    if sign == '\\' {
        return Ok(true);
    }
    name.push(sign)?;
    Ok(false)
}

/// Tells whether no name is empty.
fn are_filled(names: &[String]) -> bool
    ensures { result ≡ are_filled (map string_bytes names.now) }
{
    for name in names {
        if name.is_empty() {
            return false;
        }
    }
    true
}
