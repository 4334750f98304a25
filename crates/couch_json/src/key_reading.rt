ghost use Rattle.std.specs.Prelude.{◌≡◌, ◌≢◌, ◌≤◌, ◌+◌, ◌*◌, ◌^◌, ℤ, IfOk, IfErr, OnErr, MatchOption, Some, None, string_bytes};
ghost use Rattle.couch_json.specs.Key.{height, key};
ghost use Rattle.couch_json.specs.inner.KeyFront.{FindsItems, FindsMembers, FindsNumber, FindsText, FindsValue};
ghost use Rattle.couch_json.specs.Lawful.{IsLawful};
ghost use Rattle.couch_json.specs.Nesting.{max_open};
ghost use Rattle.couch_json.specs.Range.{IsInRange};
ghost use Rattle.couch_json.specs.Value.{Value, depth, items_depth, members_depth, whole};
ghost use Rattle.couch_json.specs.View.{view, items_view, members_view};

use crate::key::key_bytes;
use crate::key_fault::KeyFault;
use crate::number::Number;
use crate::value::Json;
use name_map::NameMap;
use std::alloc::Global;

/// The depth to which a value may nest whose key is read.
const MAX_DEPTH: usize = 110;

/// Reads the value whose key these bytes are, or answers `NotKey` if and only if they are the key
/// of no value at most 110 deep.
pub fn key_of(alloc: Global, bytes: &[u8]) -> Result<Json, KeyFault>
    ensures key { IfOk result (λ value. key (view value) ≡ bytes.now) }
    ensures depth { IfOk result (λ value. depth (view value) ≤ max_open) }
    ensures lawful { IfOk result (λ value. IsLawful (view value)) }
    ensures fault { IfErr result (λ fault. fault ≢ KeyFault.Memory → fault ≡ KeyFault.NotKey) }
    ensures none { IfErr result (λ fault. fault ≢ KeyFault.Memory
        → (v : Value) → IsLawful v → depth v ≤ max_open → key v ≢ bytes.now) }
{
    let (value, _rest) = read_value(alloc, bytes, MAX_DEPTH)?;
    // The bytes can be the key of no other value. They are that of this one only if they are
    // spelled as keys are.
    if key_bytes(alloc, &value)?.as_slice() != bytes {
        return Err(KeyFault::NotKey);
    }
    Ok(value)
}

/// Reads the value whose key the bytes begin with. Where they begin with no key of a value that
/// nests at most `limit` deep, it may answer anything.
#[cycle(read)]
fn read_value<'a>(
    alloc: Global,
    bytes: &'a [u8],
    limit: usize,
) -> Result<(Json, &'a [u8]), KeyFault>
    ensures value { IfOk result (λ found.
        FindsValue limit bytes.now (Some (view found.0, found.1.now))) }
    ensures depth { IfOk result (λ found. depth (view found.0) ≤ limit) }
    ensures fault { IfErr result (λ fault. fault ≢ KeyFault.Memory → fault ≡ KeyFault.NotKey) }
    ensures none { IfErr result (λ fault. fault ≢ KeyFault.Memory → FindsValue limit bytes.now None) }
{
    let Some((kind, rest)) = bytes.split_first() else {
        return Err(KeyFault::NotKey);
    };
    match *kind {
        1 => Ok((Json::Null, rest)),
        2 => Ok((Json::Truth(false), rest)),
        3 => Ok((Json::Truth(true), rest)),
        4 => read_number(rest),
        5 => {
            let (text, rest) = read_text(alloc, rest)?;
            Ok((Json::Text(text), rest))
        }
        6 => {
            if limit == 0 {
                return Err(KeyFault::NotKey);
            }
            let (items, rest) = read_items(alloc, rest, limit - 1)?;
            Ok((Json::Array(items), rest))
        }
        7 => {
            if limit == 0 {
                return Err(KeyFault::NotKey);
            }
            let (members, rest) = read_members(alloc, rest, limit - 1)?;
            Ok((Json::Object(members), rest))
        }
        _ => Err(KeyFault::NotKey),
    }
}

/// Reads the nine bytes of a number, and refuses those of a number above the greatest one.
fn read_number<'a>(bytes: &'a [u8]) -> Result<(Json, &'a [u8]), KeyFault>
    ensures value { IfOk result (λ found. (n : ℤ) × (view found.0 ≡ whole n)
        × FindsNumber bytes.now (Some (n, found.1.now))) }
    ensures fault { IfErr result (λ fault. fault ≡ KeyFault.NotKey) }
    ensures none { OnErr result (FindsNumber bytes.now None) }
{
    let Some((high, after)) = bytes.split_first() else {
        return Err(KeyFault::NotKey);
    };
    let Some((low, rest)) = after.split_first_chunk::<8>() else {
        return Err(KeyFault::NotKey);
    };
    match number_above(*high, u64::from_be_bytes(*low)) {
        Some(number) => Ok((Json::Whole(number), rest)),
        None => Err(KeyFault::NotKey),
    }
}

/// Returns the number that lies `high` * 2^64 + `low` above the least one, or `None` if and only if
/// that is above the greatest.
fn number_above(high: u8, low: u64) -> Option<Number>
    ensures { MatchOption result ((n : ℤ) → IsInRange n → height n ≢ high * 2 ^ 64 + low)
        (λ number. height number ≡ high * 2 ^ 64 + low) }
{
    Number::new((i128::from(high) << 64) + i128::from(low) - (1 << 63))
}

/// Reads a text of a key and its end.
fn read_text<'a>(alloc: Global, bytes: &'a [u8]) -> Result<(String, &'a [u8]), KeyFault>
    ensures value { IfOk result (λ found.
        FindsText bytes.now (Some (string_bytes found.0, found.1.now))) }
    ensures fault { IfErr result (λ fault. fault ≢ KeyFault.Memory → fault ≡ KeyFault.NotKey) }
    ensures none { IfErr result (λ fault. fault ≢ KeyFault.Memory → FindsText bytes.now None) }
{
    let (text, rest) = read_bytes(alloc, bytes)?;
    match String::from_utf8(text) {
        Ok(text) => Ok((text, rest)),
        Err(_) => Err(KeyFault::NotKey),
    }
}

/// Reads the bytes of a text and its end: two bytes 0, where a 0 with another byte behind it is a
/// 0 of the text.
fn read_bytes<'a>(alloc: Global, bytes: &'a [u8]) -> Result<(Vec<u8>, &'a [u8]), KeyFault>
    ensures value { IfOk result (λ found. FindsText bytes.now (Some (found.0.items, found.1.now))) }
    ensures fault { IfErr result (λ fault. fault ≢ KeyFault.Memory → fault ≡ KeyFault.NotKey) }
    ensures none { IfErr result (λ fault. fault ≢ KeyFault.Memory → FindsText bytes.now None) }
{
    let mut text = Vec::new(alloc);
    let mut rest = bytes;
    for _count in 0..bytes.len() {
        let Some((byte, after)) = rest.split_first() else {
            return Err(KeyFault::NotKey);
        };
        rest = after;
        if *byte == 0 {
            let Some((mark, after)) = rest.split_first() else {
                return Err(KeyFault::NotKey);
            };
            rest = after;
            if *mark == 0 {
                return Ok((text, rest));
            }
        }
        text.push(*byte)?;
    }
    Err(KeyFault::NotKey)
}

/// Reads the elements of an array and its end.
#[cycle(read)]
fn read_items<'a>(
    alloc: Global,
    bytes: &'a [u8],
    limit: usize,
) -> Result<(Vec<Json>, &'a [u8]), KeyFault>
    ensures value { IfOk result (λ found.
        FindsItems limit bytes.now (Some (items_view found.0.items, found.1.now))) }
    ensures depth { IfOk result (λ found. items_depth (items_view found.0.items) ≤ limit) }
    ensures fault { IfErr result (λ fault. fault ≢ KeyFault.Memory → fault ≡ KeyFault.NotKey) }
    ensures none { IfErr result (λ fault. fault ≢ KeyFault.Memory → FindsItems limit bytes.now None) }
{
    let mut items = Vec::new(alloc);
    let mut rest = bytes;
    for _count in 0..bytes.len() {
        let Some((first, after)) = rest.split_first() else {
            return Err(KeyFault::NotKey);
        };
        if *first == 0 {
            return Ok((items, after));
        }
        let (item, after) = read_value(alloc, rest, limit)?;
        items.push(item)?;
        rest = after;
    }
    Err(KeyFault::NotKey)
}

/// Reads the members of an object and its end.
#[cycle(read)]
fn read_members<'a>(
    alloc: Global,
    bytes: &'a [u8],
    limit: usize,
) -> Result<(NameMap<Json>, &'a [u8]), KeyFault>
    ensures value { IfOk result (λ found.
        FindsMembers limit bytes.now (Some (members_view found.0.entries, found.1.now))) }
    ensures depth { IfOk result (λ found. members_depth (members_view found.0.entries) ≤ limit) }
    ensures fault { IfErr result (λ fault. fault ≢ KeyFault.Memory → fault ≡ KeyFault.NotKey) }
    ensures none { IfErr result (λ fault. fault ≢ KeyFault.Memory → FindsMembers limit bytes.now None) }
{
    let mut members = NameMap::new(alloc);
    let mut rest = bytes;
    for _count in 0..bytes.len() {
        let Some((first, after)) = rest.split_first() else {
            return Err(KeyFault::NotKey);
        };
        if *first == 0 {
            return Ok((members, after));
        }
        let (name, after) = read_text(alloc, after)?;
        let (member, after) = read_value(alloc, after, limit)?;
        drop(members.insert(name, member)?);
        rest = after;
    }
    Err(KeyFault::NotKey)
}
