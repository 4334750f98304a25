//! Rows on streams of requests, which come in pieces.

use crate::fault::{RowsFault, named};
use crate::playing::Asked;
use crate::texts::{put, put_escaped, unescape};
use couch_http::{Cutter, Ending, HttpFault, Request};
use std::alloc::Global;
use std::fmt::Write;

/// Bytes that come in pieces.
#[derive(Drop)]
pub struct Pieces {
    alloc: Global,
    /// All bytes.
    pub bytes: Vec<u8>,
    ends: Vec<usize>,
}

impl Pieces {
    /// Reads the pieces of a question, one a line, with escapes; `cut N TEXT` is the text in pieces of N
    /// bytes.
    pub fn read(asked: Asked<'_>) -> Result<Pieces, RowsFault> {
        let mut pieces = Pieces {
            alloc: asked.alloc,
            bytes: Vec::new(asked.alloc),
            ends: Vec::new(asked.alloc),
        };
        for line in asked.text().split('\n') {
            pieces.put_line(line)?;
        }
        Ok(pieces)
    }

    /// Adds the pieces of a line.
    fn put_line(&mut self, line: &str) -> Result<(), RowsFault> {
        let (size, text) = size_of(line);
        let start = self.bytes.len();
        unescape(text, &mut self.bytes)?;
        if size == 0 {
            self.ends.push(self.bytes.len())?;
            return Ok(());
        }
        let mut end = start;
        for piece in self.bytes.get(start..).unwrap_or(b"").chunks(size) {
            end = end.saturating_add(piece.len());
            self.ends.push(end)?;
        }
        Ok(())
    }

    /// Returns the pieces.
    pub fn slices(&self) -> Result<Vec<&[u8]>, RowsFault> {
        let mut slices = Vec::new(self.alloc);
        let mut start = 0;
        for end in &self.ends {
            slices.push(self.bytes.get(start..*end).unwrap_or(b""))?;
            start = *end;
        }
        Ok(slices)
    }
}

/// Returns the size that `cut N` asks for, and the text behind it; 0 where it isn't asked for.
fn size_of(line: &str) -> (usize, &str) {
    let (size, text) = match line.strip_prefix("cut ") {
        Some(rest) => rest.split_once(' ').unwrap_or(("", line)),
        None => ("", line),
    };
    match size.parse::<usize>() {
        Ok(size) if size > 0 => (size, text),
        _ => (0, line),
    }
}

/// Returns bytes one by one.
pub fn single_bytes(alloc: Global, bytes: &[u8]) -> Result<Vec<&[u8]>, RowsFault> {
    let mut slices = Vec::new(alloc);
    for piece in bytes.chunks(1) {
        slices.push(piece)?;
    }
    Ok(slices)
}

/// Streams of more bytes are not played byte by byte.
const SHORT: usize = 2_000;

/// Bodies of more bytes are told by their length.
const SHOWN: usize = 200;

/// Pieces of a stream, one a line, with escapes; `cut N TEXT` is the text in pieces of N bytes.
/// The answer has a line for each request, `METHOD PATH`, then `? QUERY` where there is one, the
/// count of headers, the body, and `last` where it is; and how the stream ends: `open`, `last`,
/// `Syntax`, `Encoding` or `TooLarge`, then `closed` for each piece behind the end.
/// A short stream is played byte by byte too, which has to come to the same.
pub fn stream(asked: Asked<'_>, out: &mut String) -> Result<(), RowsFault> {
    let pieces = Pieces::read(asked)?;
    let closed = put_stream(asked.alloc, &pieces.slices()?, out)?;
    put_slow(asked.alloc, &pieces.bytes, out)?;
    for _piece in 0..closed {
        out.push_str("\nclosed")?;
    }
    Ok(())
}

/// Adds what bytes come to one by one, where they are few and that is something else.
pub fn put_slow(alloc: Global, bytes: &[u8], out: &mut String) -> Result<(), RowsFault> {
    if bytes.len() > SHORT {
        return Ok(());
    }
    let mut slow = String::new(alloc);
    put_stream(alloc, &single_bytes(alloc, bytes)?, &mut slow)?;
    if slow.as_str() != out.as_str() {
        write!(out, "\nbyte by byte:\n{slow}")?;
    }
    Ok(())
}

/// Plays pieces on a new cutter: adds their requests, and how the stream ends. Returns how many pieces
/// come behind its end.
pub fn put_stream(alloc: Global, pieces: &[&[u8]], out: &mut String) -> Result<usize, RowsFault> {
    let mut cutter = Cutter::new(alloc);
    let mut ending = Ending::Open;
    let mut closed = 0_usize;
    for piece in pieces {
        match cutter.feed(piece) {
            Ok(cut) => {
                put_requests(alloc, &cut.requests, out)?;
                ending = cut.ending;
            }
            Err(HttpFault::Closed) => closed = closed.saturating_add(1),
            Err(_) => return Err(RowsFault::Memory),
        }
    }
    put_ending(ending, out)?;
    Ok(closed)
}

/// Adds the lines of requests.
fn put_requests(alloc: Global, requests: &[Request], out: &mut String) -> Result<(), RowsFault> {
    for request in requests {
        put_request(alloc, request, out)?;
    }
    Ok(())
}

/// Adds the line of a request.
fn put_request(alloc: Global, request: &Request, out: &mut String) -> Result<(), RowsFault> {
    let (method, path) = (request.method.as_str(), request.path.as_str());
    write!(out, "{method} {path}")?;
    if let Some(query) = &request.query {
        write!(out, " ? {query}")?;
    }
    write!(out, ", {} headers", request.headers.len())?;
    match request.body.len() {
        0 => {}
        1..=SHOWN => {
            out.push_str(", ")?;
            put_escaped(alloc, &request.body, out)?;
        }
        length => write!(out, ", {length} bytes")?,
    }
    put(if request.last { ", last\n" } else { "\n" }, out)
}

/// Adds how a stream ends.
fn put_ending(ending: Ending, out: &mut String) -> Result<(), RowsFault> {
    match ending {
        Ending::Open => put("open", out),
        Ending::Last => put("last", out),
        Ending::Fault(fault) => {
            write!(out, "{fault:?}")?;
            Ok(())
        }
    }
}
