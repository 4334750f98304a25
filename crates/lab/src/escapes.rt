//! Texts with escapes.

ghost use Rattle.std.specs.Prelude.{◌≡◌, ◌<◌, length, IfOk, IfSome, Option, option_map, option_and_then};
ghost use Rattle.lab.specs.Escapes.{hex_byte, hex_digit, put, unescaped_text};

use couch_json::Got;
use std::alloc::Global;

/// Returns the bytes that a text spells, where `\r`, `\n`, `\\` and `\xHH`, with hexadecimal digits in
/// either case, stand for one byte and each other byte for itself; `None` where a backslash begins
/// no such escape.
pub fn unescape(alloc: Global, text: &[u8]) -> Got<Option<Vec<u8>>>
    ensures { IfOk result (λ piece. option_map (λ bytes. bytes.items) piece ≡ unescaped_text text.now) }
{
    let mut bytes = Vec::new(alloc);
    let mut rest = text;
    while !rest.is_empty() {
        let Some((byte, after)) = unescape_first(rest) else {
            return Ok(None);
        };
        bytes.push(byte)?;
        rest = after;
    }
    Ok(Some(bytes))
}

/// Returns the first byte that a text spells, and the text behind what spells it.
fn unescape_first(text: &[u8]) -> Option<(u8, &[u8])>
    requires { 0 < length text.now }
    ensures first { unescaped_text text.now ≡ option_and_then (λ p. put p.0 (unescaped_text p.1.now)) result }
    ensures shorter { IfSome result (λ p. length p.1.now < length text.now) }
{
    match text {
        [b'\\', b'r', rest @ ..] => Some((b'\r', rest)),
        [b'\\', b'n', rest @ ..] => Some((b'\n', rest)),
        [b'\\', b'\\', rest @ ..] => Some((b'\\', rest)),
        [b'\\', b'x', high, low, rest @ ..] => match byte_of(*high, *low) {
            Some(byte) => Some((byte, rest)),
            None => None,
        },
        [] | [b'\\', ..] => None,
        [byte, rest @ ..] => Some((*byte, rest)),
    }
}

/// Returns the byte that two hexadecimal digits spell.
fn byte_of(high: u8, low: u8) -> Option<u8>
    ensures { result ≡ hex_byte high low }
{
    let high = hex_digit(high)?;
    let low = hex_digit(low)?;
    Some(16 * high + low)
}

/// Returns the value of a hexadecimal digit.
fn hex_digit(digit: u8) -> Option<u8>
    ensures value { result ≡ hex_digit digit }
    ensures small { IfSome result (λ value. value < 16) }
{
    match digit {
        b'0'..=b'9' => Some(digit - b'0'),
        b'a'..=b'f' => Some(digit - b'a' + 10),
        b'A'..=b'F' => Some(digit - b'A' + 10),
        _ => None,
    }
}
