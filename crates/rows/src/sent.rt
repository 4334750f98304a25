//! Rows on the bytes of requests that a client sends.

use crate::fault::{RowsFault, named};
use crate::pieces::{put_slow, put_stream};
use crate::playing::Asked;
use crate::texts::{first_word, put_text, spell, text_of, unescape};
use couch_http::{Cutter, Ending, Header, Request, request_bytes};
use http::Method;
use std::alloc::Global;
use std::fmt::Write;

/// `METHOD TARGET`, or `METHOD TARGET last`; the headers, one a line, as `NAME: VALUE`; and behind an
/// empty line the body. Each part may have escapes, and the first `?` parts the target.
/// The answer is the bytes that are sent, and below them `same` where a `Cutter` reads this very
/// request back, with the two headers that are added, else what it reads, as in `.stream`.
pub fn sent(asked: Asked<'_>, out: &mut String) -> Result<(), RowsFault> {
    let mut request = request_of(asked, out)?;
    let bytes = request_bytes(asked.alloc, &request)?;
    spell(&bytes, out)?;
    out.push('\n')?;
    add_headers(asked.alloc, &mut request)?;
    if is_read_back(asked.alloc, &request, &bytes)? {
        out.push_str("same")?;
        return Ok(());
    }
    let mut read = String::new(asked.alloc);
    put_stream(asked.alloc, &[&bytes], &mut read)?;
    put_slow(asked.alloc, &bytes, &mut read)?;
    out.push_str(read.as_str())?;
    Ok(())
}

/// Adds the two headers that are sent with each request: the host, and the length of the body.
fn add_headers(alloc: Global, request: &mut Request) -> Result<(), RowsFault> {
    let host = Header {
        name: Vec::from_slice(alloc, b"Host")?,
        value: Vec::from_slice(alloc, b"couchd")?,
    };
    request.headers.insert(0, host)?;
    let length = request.body.len();
    let length = Header {
        name: Vec::from_slice(alloc, b"Content-Length")?,
        value: format!(in alloc; "{length}")?.into_bytes(),
    };
    request.headers.push(length)?;
    Ok(())
}

/// Tells whether a cutter reads a request of bytes, and nothing else.
fn is_read_back(alloc: Global, request: &Request, bytes: &[u8]) -> Result<bool, RowsFault> {
    let ending = if request.last {
        Ending::Last
    } else {
        Ending::Open
    };
    match Cutter::new(alloc).feed(bytes) {
        Ok(cut) => match cut.requests.as_slice() {
            [read] => Ok(cut.ending == ending && are_same(alloc, request, read)?),
            _ => Ok(false),
        },
        Err(_) => Ok(false),
    }
}

/// Tells whether two requests are the same, part by part: what shows one spells all of its parts.
fn are_same(alloc: Global, one: &Request, other: &Request) -> Result<bool, RowsFault> {
    let mut shown = String::new(alloc);
    write!(shown, "{one:?}")?;
    let mut other_shown = String::new(alloc);
    write!(other_shown, "{other:?}")?;
    Ok(shown.as_str() == other_shown.as_str())
}

/// Returns the request of a question.
fn request_of(asked: Asked<'_>, out: &mut String) -> Result<Request, RowsFault> {
    let question = asked.text();
    let (head, body) = question.split_once("\n\n").unwrap_or((question, ""));
    let (line, lines) = head.split_once('\n').unwrap_or((head, ""));
    let mut request = line_of(asked.alloc, line, out)?;
    for line in lines.lines() {
        request.headers.push(header_of(asked.alloc, line)?)?;
    }
    unescape(body, &mut request.body)?;
    Ok(request)
}

/// Returns the request of a first line, without headers and without a body.
fn line_of(alloc: Global, line: &str, out: &mut String) -> Result<Request, RowsFault> {
    let (method, rest) = first_word(line);
    let (target, last) = first_word(rest);
    let method = named(Method::from_bytes(alloc, method.as_bytes()), out)?;
    let (path, query) = target.split_once('?').unwrap_or((target, ""));
    let mut request = Request {
        method,
        path: String::new(alloc),
        query: None,
        headers: Vec::new(alloc),
        body: Vec::new(alloc),
        last: last == "last",
    };
    put_part(alloc, path, &mut request.path)?;
    if path.len() < target.len() {
        let mut part = String::new(alloc);
        put_part(alloc, query, &mut part)?;
        request.query = Some(part);
    }
    Ok(request)
}

/// Adds the text that a part with escapes spells.
fn put_part(alloc: Global, part: &str, out: &mut String) -> Result<(), RowsFault> {
    let mut bytes = Vec::new(alloc);
    unescape(part, &mut bytes)?;
    put_text(&bytes, out)
}

/// Returns the header of a line: what stands before and behind its first `:` and a space.
fn header_of(alloc: Global, line: &str) -> Result<Header, RowsFault> {
    let Some((name, value)) = line.split_once(':') else {
        return Err(RowsFault::Refused("no header"));
    };
    let mut header = Header {
        name: Vec::new(alloc),
        value: Vec::new(alloc),
    };
    unescape(name, &mut header.name)?;
    unescape(value.strip_prefix(' ').unwrap_or(value), &mut header.value)?;
    Ok(header)
}
