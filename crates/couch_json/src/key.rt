ghost use Rattle.std.specs.Prelude.{◌≡◌, ◌<◌, ◌==◌, ◌++◌, ◌∷◌, [], IfOk, IfSome, MatchOption, OnOk, length};
ghost use Rattle.std.specs.List.{position};
ghost use Rattle.couch_json.specs.Key.{height, items_key, key, members_key, number_key, text_key};
ghost use Rattle.couch_json.specs.Lawful.{IsLawful};
ghost use Rattle.couch_json.specs.View.{view, items_view, members_view};

use crate::no_memory::Got;
use crate::number::Number;
use crate::value::Json;
use crate::walking::walk_value;
use name_map::NameMap;
use std::alloc::Global;

/// Writes the key of a value: bytes that an index may hold in its place.
///
/// Keys are in order of their bytes as their values are by [`collate`](crate::collate). Values
/// of one key are equal, and no key begins another.
pub fn key_bytes(alloc: Global, value: &Json) -> Got<Vec<u8>>
    ensures key { IfOk result (λ bytes. bytes.items ≡ key (view value.now)) }
    ensures lawful { IsLawful (view value.now) }
{
    walk_value(value);
    let mut out = Vec::new(alloc);
    put_value(&mut out, value)?;
    Ok(out)
}

#[cycle(key)]
fn put_value(out: &mut Vec<u8>, value: &Json) -> Got<()>
    ensures { OnOk result (out.new.items ≡ out.old.items ++ key (view value.now)) }
{
    match value {
        Json::Null => out.push(1)?,
        Json::Truth(false) => out.push(2)?,
        Json::Truth(true) => out.push(3)?,
        Json::Whole(number) => {
            out.push(4)?;
            put_number(out, *number)?;
        }
        Json::Text(text) => {
            out.push(5)?;
            put_text(out, text.as_bytes())?;
        }
        Json::Array(items) => {
            out.push(6)?;
            put_items(out, items)?;
        }
        Json::Object(members) => {
            out.push(7)?;
            put_members(out, members)?;
        }
    }
    Ok(())
}

/// Puts the lowest nine of the sixteen bytes of the height: no height has more.
fn put_number(out: &mut Vec<u8>, number: Number) -> Got<()>
    ensures { OnOk result (out.new.items ≡ out.old.items ++ number_key number) }
{
    out.extend_from_slice(&height_of(number).to_be_bytes()[7..])?;
    Ok(())
}

/// Tells how far the number lies above the least one.
fn height_of(number: Number) -> u128
    ensures { result ≡ height number }
{
    (number.value() + (1 << 63)) as u128
}

/// Puts a text run by run: each byte 0 ends a run.
fn put_text(out: &mut Vec<u8>, bytes: &[u8]) -> Got<()>
    ensures { OnOk result (out.new.items ≡ out.old.items ++ text_key bytes.now) }
{
    let mut rest = bytes;
    'runs: while let Some((run, behind)) = split_at_zero(rest) {
        out.extend_from_slice(run)?;
        out.extend_from_slice(&[0, 255])?;
        rest = behind;
    }
    out.extend_from_slice(rest)?;
    out.extend_from_slice(&[0, 0])?;
    Ok(())
}

/// Splits a text at its first byte 0, where there is one.
fn split_at_zero(bytes: &[u8]) -> Option<(&[u8], &[u8])>
    ensures key { MatchOption result (text_key bytes.now ≡ bytes.now ++ 0 ∷ 0 ∷ [])
        (λ parts. text_key bytes.now ≡ parts.0.now ++ 0 ∷ 255 ∷ text_key parts.1.now) }
    ensures shorter { IfSome result (λ parts. length parts.1.now < length bytes.now) }
{
    let zero = find_zero(bytes)?;
    Some((&bytes[..zero], &bytes[zero + 1..]))
}

fn find_zero(bytes: &[u8]) -> Option<usize>
    ensures { result ≡ position (λ byte. byte == 0) bytes.now }
{
    bytes.iter().position(|byte| *byte == 0)
}

#[cycle(key)]
fn put_items(out: &mut Vec<u8>, items: &Vec<Json>) -> Got<()>
    ensures { OnOk result (out.new.items ≡ out.old.items ++ items_key (items_view items.now.items)) }
{
    for item in items {
        put_value(out, item)?;
    }
    out.push(0)?;
    Ok(())
}

#[cycle(key)]
fn put_members(out: &mut Vec<u8>, members: &NameMap<Json>) -> Got<()>
    ensures { OnOk result (out.new.items
        ≡ out.old.items ++ members_key (members_view members.now.entries)) }
{
    for (name, member) in members.as_slice() {
        out.push(5)?;
        put_text(out, name.as_bytes())?;
        put_value(out, member)?;
    }
    out.push(0)?;
    Ok(())
}
