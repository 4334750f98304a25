//! Rows on JSON values: texts, numbers, order, keys and paths.

use crate::fault::{RowsFault, named};
use crate::playing::Asked;
use crate::texts::put;
use couch_json::{FieldPath, Json, Number, at, canon, collate, key_bytes, key_of, read};
use std::alloc::Global;
use std::cmp::Ordering;
use std::fmt::Write;

/// Adds a value's canonical text.
pub fn put_value(alloc: Global, value: &Json, out: &mut String) -> Result<(), RowsFault> {
    let text = canon(alloc, value)?;
    put(text.as_str(), out)
}

/// `TEXT`: its canonical text, which its copy has too, or the fault by which it is no JSON.
pub fn json(asked: Asked<'_>, out: &mut String) -> Result<(), RowsFault> {
    let value = named(read(asked.alloc, asked.question), out)?;
    let copy = value.copy(asked.alloc)?;
    if copy != value {
        return Err(RowsFault::Refused("the copy differs"));
    }
    put_value(asked.alloc, &copy, out)
}

/// `NUMBER`: `number` where a JSON value may hold it, else `none`.
pub fn number(asked: Asked<'_>, out: &mut String) -> Result<(), RowsFault> {
    let Ok(wanted) = asked.text().parse::<i128>() else {
        return Err(RowsFault::Refused("not a number of 128 bits"));
    };
    match Number::new(wanted) {
        Some(number) if number.value() == wanted => put("number", out),
        Some(_) => put("another number", out),
        None => put("none", out),
    }
}

/// `VALUE`: `after` where it collates behind each value above it in the table, they before it, and
/// it as itself.
pub fn collation(asked: Asked<'_>, out: &mut String) -> Result<(), RowsFault> {
    let value = named(read(asked.alloc, asked.question), out)?;
    let mut is_behind = collate(&value, &value) == Ordering::Equal;
    for row in asked.above {
        let low = named(read(asked.alloc, &row.question), out)?;
        is_behind = is_behind
            && collate(&low, &value) == Ordering::Less
            && collate(&value, &low) == Ordering::Greater;
    }
    put(if is_behind { "after" } else { "not after" }, out)
}

/// `key of VALUE`: the bytes of its key, each as two digits, which read back as the value.
/// `value of BYTES`: the value whose key they are, or `NotKey`.
pub fn key(asked: Asked<'_>, out: &mut String) -> Result<(), RowsFault> {
    match asked.text().strip_prefix("key of ") {
        Some(value) => key_of_value(asked.alloc, value, out),
        None => value_of_key(asked, out),
    }
}

/// Adds the bytes of a value's key.
fn key_of_value(alloc: Global, text: &str, out: &mut String) -> Result<(), RowsFault> {
    let value = named(read(alloc, text.as_bytes()), out)?;
    let key = key_bytes(alloc, &value)?;
    for byte in &key {
        write!(out, "{byte:02x} ")?;
    }
    out.pop();
    if named(key_of(alloc, &key), out)? != value {
        return Err(RowsFault::Refused("the key reads back as another value"));
    }
    Ok(())
}

/// Adds the value of a key, which stands as two digits a byte, with blanks between them.
fn value_of_key(asked: Asked<'_>, out: &mut String) -> Result<(), RowsFault> {
    let Some(digits) = asked.text().strip_prefix("value of") else {
        return Err(RowsFault::Refused("key of, or value of"));
    };
    let mut key = Vec::new(asked.alloc);
    for word in digits.split(' ') {
        key.extend_from_slice(&named(hex::decode(asked.alloc, word), out)?)?;
    }
    let value = named(key_of(asked.alloc, &key), out)?;
    put_value(asked.alloc, &value, out)
}

/// `VALUE at PATH`: what the path reaches in the value, `nothing`, or `Shape` where it is no path.
pub fn path(asked: Asked<'_>, out: &mut String) -> Result<(), RowsFault> {
    let question = asked.text();
    let (value, text) = question
        .rsplit_once(" at ")
        .unwrap_or((question.strip_suffix(" at").unwrap_or(""), ""));
    let value = named(read(asked.alloc, value.as_bytes()), out)?;
    let path = path_of(asked.alloc, text, out)?;
    match at(&value, &path) {
        Some(found) => put_value(asked.alloc, found, out),
        None => Err(RowsFault::Refused("nothing")),
    }
}

/// Returns the path of a text, which is its text.
pub fn path_of(alloc: Global, text: &str, out: &mut String) -> Result<FieldPath, RowsFault> {
    let path = named(FieldPath::parse(alloc, text), out)?;
    if path.as_str() == text {
        Ok(path)
    } else {
        Err(RowsFault::Refused("the path has another text"))
    }
}
