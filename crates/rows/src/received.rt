//! Rows on streams that begin with a reply.

use crate::fault::RowsFault;
use crate::pieces::{Pieces, single_bytes};
use crate::playing::Asked;
use crate::texts::spell;
use couch_http::{ReplyCutter, Response};
use std::alloc::Global;
use std::fmt::Write;

/// Streams of more bytes are not cut at each place.
const SHORT: usize = 300;

/// Bodies of more bytes are told by their length.
const SHOWN: usize = 200;

/// What comes of a piece while the reply isn't whole.
const WAITS: &str = "waits";

/// What comes of a piece behind the end.
const CLOSED: &str = "Closed";

/// Pieces of a stream that begins with a reply, one a line, written as in `.stream`.
/// The answer has a line for each piece: `waits`, the reply as `STATUS BODY`, or the fault, `Syntax`,
/// `Encoding`, `TooLarge` or `Closed`.
/// A short stream is played byte by byte too, and in two pieces cut at each place, which has to come
/// to the same.
pub fn received(asked: Asked<'_>, out: &mut String) -> Result<(), RowsFault> {
    let pieces = Pieces::read(asked)?;
    let mut end = String::new(asked.alloc);
    put_lines(asked.alloc, &pieces.slices()?, out, &mut end)?;
    let bytes = pieces.bytes.as_slice();
    if bytes.len() > SHORT {
        return Ok(());
    }
    for place in 0..bytes.len() {
        let (before, behind) = bytes.split_at_checked(place).unwrap_or((bytes, b""));
        put_other(asked.alloc, &[before, behind], place, end.as_str(), out)?;
    }
    put_other(
        asked.alloc,
        &single_bytes(asked.alloc, bytes)?,
        1,
        end.as_str(),
        out,
    )
}

/// Adds a line where pieces come to something else: how many they are, the first end, and what they come to.
fn put_other(
    alloc: Global,
    pieces: &[&[u8]],
    place: usize,
    end: &str,
    out: &mut String,
) -> Result<(), RowsFault> {
    let mut lines = String::new(alloc);
    let mut other = String::new(alloc);
    put_lines(alloc, pieces, &mut lines, &mut other)?;
    if other.as_str() != end {
        let count = pieces.len();
        write!(out, "\n{count} pieces, cut at {place}: {other}")?;
    }
    Ok(())
}

/// Plays pieces on a new cutter: adds a line for each, and tells what they come to, which is the first
/// line that doesn't wait, if all behind it are closed.
fn put_lines(
    alloc: Global,
    pieces: &[&[u8]],
    out: &mut String,
    end: &mut String,
) -> Result<(), RowsFault> {
    let mut cutter = ReplyCutter::new(alloc);
    let mut come = Vec::new(alloc);
    let mut line = String::new(alloc);
    for (place, piece) in pieces.iter().enumerate() {
        come.extend_from_slice(piece)?;
        line.clear();
        put_piece(&mut cutter, piece, &come, &mut line)?;
        if place > 0 {
            out.push('\n')?;
        }
        out.push_str(line.as_str())?;
        take_end(line.as_str(), end)?;
    }
    Ok(())
}

/// Takes in the next line of what pieces come to.
fn take_end(line: &str, end: &mut String) -> Result<(), RowsFault> {
    if end.is_empty() {
        if line != WAITS {
            end.push_str(line)?;
        }
    } else if line != CLOSED {
        end.push_str(", and something behind it")?;
    }
    Ok(())
}

/// Plays a piece, with which these bytes have come.
fn put_piece(
    cutter: &mut ReplyCutter,
    piece: &[u8],
    come: &[u8],
    out: &mut String,
) -> Result<(), RowsFault> {
    match cutter.feed(piece) {
        Ok(None) => out.push_str(WAITS)?,
        Ok(Some(reply)) => put_reply(&reply, come, out)?,
        Err(fault) => write!(out, "{fault:?}")?,
    }
    Ok(())
}

/// Adds a reply as its status and its body, if its bytes are the first of those that have come and
/// end in its body.
fn put_reply(reply: &Response, come: &[u8], out: &mut String) -> Result<(), RowsFault> {
    let body = reply.body();
    if !come.starts_with(reply.bytes()) || !reply.bytes().ends_with(body) {
        out.push_str("other bytes")?;
        return Ok(());
    }
    write!(out, "{}", reply.status())?;
    match body.len() {
        0 => Ok(()),
        1..=SHOWN => {
            out.push(' ')?;
            spell(body, out)
        }
        length => {
            write!(out, " {length} bytes")?;
            Ok(())
        }
    }
}
