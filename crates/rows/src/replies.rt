//! Rows on the bytes of replies.

use crate::fault::{RowsFault, named};
use crate::playing::Asked;
use crate::texts::{first_word, put_text};
use couch_http::{Fixed, Response};
use couch_json::read;
use std::alloc::Global;

/// `STATUS VALUE`, `STATUS last VALUE`: the bytes of the reply.
/// `fixed WORD`, `fixed WORD last`: those of a fixed reply, `syntax`, `encoding`, `large`, `store`
/// or `memory`.
pub fn reply(asked: Asked<'_>, out: &mut String) -> Result<(), RowsFault> {
    let (word, rest) = first_word(asked.text());
    if word == "fixed" {
        return put_reply(&Response::fixed(fixed_of(rest)?), out);
    }
    let Ok(status) = word.parse::<u16>() else {
        return Err(RowsFault::Refused("no status"));
    };
    put_made(asked.alloc, status, rest, out)
}

/// Adds the bytes of a reply that is made.
fn put_made(alloc: Global, status: u16, rest: &str, out: &mut String) -> Result<(), RowsFault> {
    let (last, value) = match rest.strip_prefix("last ") {
        Some(value) => (true, value),
        None => (false, rest),
    };
    let value = named(read(alloc, value.as_bytes()), out)?;
    let reply = named(Response::made(alloc, status, &value, last), out)?;
    if reply.status() != status {
        return Err(RowsFault::Refused("another status"));
    }
    put_reply(&reply, out)
}

/// Adds the bytes of a reply, whose end its body is.
fn put_reply(reply: &Response, out: &mut String) -> Result<(), RowsFault> {
    if !reply.bytes().ends_with(reply.body()) {
        return Err(RowsFault::Refused("another body"));
    }
    put_text(reply.bytes(), out)
}

/// Returns the fixed reply of these words.
fn fixed_of(text: &str) -> Result<Fixed, RowsFault> {
    let (word, rest) = first_word(text);
    let last = rest == "last";
    match word {
        "syntax" => Ok(Fixed::Syntax),
        "encoding" => Ok(Fixed::Encoding),
        "large" => Ok(Fixed::TooLarge),
        "store" => Ok(Fixed::Store { last }),
        "memory" => Ok(Fixed::NoRoom { last }),
        _ => Err(RowsFault::Refused("no such fixed reply")),
    }
}
