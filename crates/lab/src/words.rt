//! The words of a line.

ghost use Rattle.std.specs.Prelude.{◌≡◌, ◌<◌, ◌==◌, length, IfOk, IfSome, Some, None, option_map, if◌then◌else◌};
ghost use Rattle.std.specs.List.{list_all, list_any, position_from};
ghost use Rattle.store.specs.DatabaseName.{is_database_name};
ghost use Rattle.lab.specs.Words.{parts_at, parts_at_slash, parts_at_space, is_space, is_word, is_text_word, is_letter_or_digit, is_node_name};

use couch_json::{Got, NoMemory};
use std::alloc::Global;
use std::str;
use store::{DbName, NameFault};

/// Tells what stands before the first space, and what stands behind it.
pub fn split_at_space(bytes: &[u8]) -> Option<(&[u8], &[u8])>
    ensures { option_map (λ p. (p.0.now, p.1.now)) result ≡ parts_at_space bytes.now }
{
    split_at(bytes, b' ')
}

/// Tells what stands before the first slash, and what stands behind it.
pub fn split_at_slash(bytes: &[u8]) -> Option<(&[u8], &[u8])>
    ensures { option_map (λ p. (p.0.now, p.1.now)) result ≡ parts_at_slash bytes.now }
{
    split_at(bytes, b'/')
}

/// Tells what stands before the first such byte, and what stands behind it.
fn split_at(bytes: &[u8], wanted: u8) -> Option<(&[u8], &[u8])>
    ensures { option_map (λ p. (p.0.now, p.1.now)) result ≡ parts_at wanted bytes.now }
{
    match place_of_byte(bytes, wanted) {
        Some(place) => Some((&bytes[..place], &bytes[place + 1..])),
        None => None,
    }
}

/// Finds the place of the first such byte.
fn place_of_byte(bytes: &[u8], wanted: u8) -> Option<usize>
    ensures place { result ≡ position_from (λ b. b == wanted) 0 bytes.now }
    ensures within { IfSome result (λ place. place < length bytes.now) }
{
    for (place, byte) in bytes.iter().enumerate() {
        if *byte == wanted {
            return Some(place);
        }
    }
    None
}

/// Tells whether these bytes are a word: there are some, and no space is among them.
pub fn is_word(bytes: &[u8]) -> bool
    ensures { result ≡ is_word bytes.now }
{
    if bytes.is_empty() {
        return false;
    }
    !has_space(bytes)
}

fn has_space(bytes: &[u8]) -> bool
    ensures { result ≡ list_any is_space bytes.now }
{
    for byte in bytes {
        if *byte == b' ' {
            return true;
        }
    }
    false
}

/// Returns the text of a word; `None` where the bytes are no word or not UTF-8.
pub fn read_text(bytes: &[u8]) -> Option<&str>
    ensures { option_map (λ text. text.now) result ≡ (if is_text_word bytes.now then Some bytes.now else None) }
{
    if !is_word(bytes) {
        return None;
    }
    match str::from_utf8(bytes) {
        Ok(text) => Some(text),
        Err(_) => None,
    }
}

/// Returns the name of a database that the bytes spell. Its bytes are ASCII, so bytes that are no text are
/// no name.
pub fn read_name(alloc: Global, bytes: &[u8]) -> Got<Option<DbName>>
    ensures { IfOk result (λ name. name ≡ (if is_database_name bytes.now then Some bytes.now else None)) }
{
    let Ok(text) = str::from_utf8(bytes) else {
        return Ok(None);
    };
    match DbName::new(alloc, text) {
        Ok(name) => Ok(Some(name)),
        Err(NameFault::Shape) => Ok(None),
        Err(NameFault::Memory) => Err(NoMemory),
    }
}

/// Tells whether these bytes may name a node: ASCII letters and digits, at least one.
pub fn is_node_name(bytes: &[u8]) -> bool
    ensures { result ≡ is_node_name bytes.now }
{
    if bytes.is_empty() {
        return false;
    }
    are_letters_and_digits(bytes)
}

fn are_letters_and_digits(bytes: &[u8]) -> bool
    ensures { result ≡ list_all is_letter_or_digit bytes.now }
{
    for byte in bytes {
        if !is_letter_or_digit(*byte) {
            return false;
        }
    }
    true
}

fn is_letter_or_digit(byte: u8) -> bool
    ensures { result ≡ is_letter_or_digit byte }
{
    byte >= b'0' && byte <= b'9' || byte >= b'A' && byte <= b'Z' || byte >= b'a' && byte <= b'z'
}
