//! Escapes, for bytes that no line can hold, and words of questions.

use crate::fault::RowsFault;
use std::alloc::Global;
use std::fmt::Write;
use std::str;

/// What comes next of an escape.
#[derive(Clone, Copy)]
enum Place {
    /// No escape is open.
    Plain,
    /// What stands behind a backslash.
    Backslash,
    /// The first digit of `\xHH`.
    High,
    /// Its second digit, where this is the first.
    Low(u8),
}

/// Adds the bytes that a text spells, in which `\r`, `\n`, `\t`, `\\` and `\xHH` stand for one byte.
/// `Refused` where a backslash begins no such escape.
pub fn unescape(text: &str, bytes: &mut Vec<u8>) -> Result<(), RowsFault> {
    let mut place = Place::Plain;
    for byte in text.as_bytes() {
        place = take_byte(bytes, place, *byte)?;
    }
    match place {
        Place::Plain => Ok(()),
        _ => Err(NO_ESCAPE),
    }
}

/// How a backslash that begins no escape is refused.
const NO_ESCAPE: RowsFault = RowsFault::Refused("a backslash that begins no escape");

/// Takes in one byte of a text. `Refused` where no escape goes on so.
fn take_byte(bytes: &mut Vec<u8>, place: Place, byte: u8) -> Result<Place, RowsFault> {
    let spelled = match (place, byte) {
        (Place::Plain, b'\\') => return Ok(Place::Backslash),
        (Place::Plain, _) => byte,
        (Place::Backslash, b'x') => return Ok(Place::High),
        (Place::Backslash, b'r') => b'\r',
        (Place::Backslash, b'n') => b'\n',
        (Place::Backslash, b't') => b'\t',
        (Place::Backslash, b'\\') => b'\\',
        (Place::Backslash, _) => return Err(NO_ESCAPE),
        (Place::High, _) => return Ok(Place::Low(digit_of(byte)?)),
        (Place::Low(high), _) => high.wrapping_mul(16).wrapping_add(digit_of(byte)?),
    };
    bytes.push(spelled)?;
    Ok(Place::Plain)
}

/// Returns the value of a hexadecimal digit.
fn digit_of(digit: u8) -> Result<u8, RowsFault> {
    match digit {
        b'0'..=b'9' => Ok(digit.wrapping_sub(b'0')),
        b'a'..=b'f' => Ok(digit.wrapping_sub(b'a').wrapping_add(10)),
        b'A'..=b'F' => Ok(digit.wrapping_sub(b'A').wrapping_add(10)),
        _ => Err(NO_ESCAPE),
    }
}

/// Adds bytes as a text in which line ends, tabs and backslashes stand escaped.
pub fn put_escaped(alloc: Global, bytes: &[u8], out: &mut String) -> Result<(), RowsFault> {
    for letter in String::from_utf8_lossy(alloc, bytes)?.chars() {
        match escape_of(letter) {
            Some(escape) => out.push_str(escape)?,
            None => out.push(letter)?,
        }
    }
    Ok(())
}

/// Adds a text of printable ASCII that spells bytes: all others, and backslashes, stand escaped.
pub fn spell(bytes: &[u8], out: &mut String) -> Result<(), RowsFault> {
    for byte in bytes {
        match escape_of(char::from(*byte)) {
            Some(escape) => out.push_str(escape)?,
            None if matches!(*byte, b' '..=b'~') => out.push(char::from(*byte))?,
            None => write!(out, "\\x{byte:02x}")?,
        }
    }
    Ok(())
}

/// Returns the escape that stands for a letter, if it needs one.
fn escape_of(letter: char) -> Option<&'static str> {
    match letter {
        '\r' => Some("\\r"),
        '\n' => Some("\\n"),
        '\t' => Some("\\t"),
        '\\' => Some("\\\\"),
        _ => None,
    }
}

/// Returns bytes as text; what is no text is empty.
pub fn text_of(bytes: &[u8]) -> &str {
    match str::from_utf8(bytes) {
        Ok(text) => text,
        Err(_) => "",
    }
}

/// Adds bytes that have to be text.
pub fn put_text(bytes: &[u8], out: &mut String) -> Result<(), RowsFault> {
    match str::from_utf8(bytes) {
        Ok(text) => put(text, out),
        Err(_) => Err(RowsFault::Refused("no text")),
    }
}

/// Adds a text.
pub fn put(text: &str, out: &mut String) -> Result<(), RowsFault> {
    out.push_str(text)?;
    Ok(())
}

/// Returns the first word of a text, and what stands behind it.
pub fn first_word(text: &str) -> (&str, &str) {
    match text.split_once(' ') {
        Some((word, rest)) => (word, rest.trim_ascii_start()),
        None => (text, ""),
    }
}
