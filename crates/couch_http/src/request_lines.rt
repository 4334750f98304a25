//! The bytes of a request, as a client sends it (RFC 9112, sections 3 and 5).

ghost use Rattle.std.specs.Prelude.{◌≡◌, ◌++◌, IfOk, OnOk, map};
ghost use Rattle.std.specs.Option.{option_map};
ghost use Rattle.std.specs.String.{string_bytes};
ghost use Rattle.couch_http.specs.Message.{header_field, message_of};
ghost use Rattle.couch_http.specs.Reply.{length_line};
ghost use Rattle.couch_http.specs.RequestText.{query_text, request_line, host_line, field_line, field_lines, request_text};

use crate::reply_lines::push_length;
use crate::request::{Header, Request};
use couch_json::Got;
use std::alloc::Global;

/// Returns all bytes of a request: the request line, `Host: couchd`, its headers, `Content-Length`,
/// and its body.
///
/// Nothing is escaped or looked at: path and query are those of the target as it goes over the wire.
/// A `Cutter` reads the request back, with the two headers that are added, where the path is not
/// empty and has no space, control or `?`, the query no space or control, each header's name is a
/// token (RFC 9110, section 5.6.2), its value has no control and no space or tab at its ends, none is
/// named `Content-Length` or `Transfer-Encoding`, there are at most 62, and the head and the body are
/// within the limits. `last` isn't written: a header `Connection: close` says it.
pub fn request_bytes(alloc: Global, request: &Request) -> Got<Vec<u8>>
    ensures { IfOk result (λ bytes. bytes.items ≡ request_text (message_of request.now)) }
{
    let mut bytes = Vec::new(alloc);
    push_request_line(&mut bytes, request)?;
    push_host(&mut bytes)?;
    push_fields(&mut bytes, &request.headers)?;
    push_length_line(alloc, &mut bytes, request.body.len())?;
    bytes.extend_from_slice(b"\r\n")?;
    bytes.extend_from_slice(&request.body)?;
    Ok(bytes)
}

/// Writes the request line.
#[tactic(auto, unfolding(crate::specs::RequestText::request_line))]
fn push_request_line(out: &mut Vec<u8>, request: &Request) -> Got<()>
    ensures { OnOk result (out.new.items ≡ out.old.items
        ++ request_line (message_of request.now).method (message_of request.now).path (message_of request.now).query) }
{
    out.extend_from_slice(request.method.as_str().as_bytes())?;
    out.extend_from_slice(b" ")?;
    out.extend_from_slice(request.path.as_bytes())?;
    push_query(out, &request.query)?;
    out.extend_from_slice(b" HTTP/1.1\r\n")?;
    Ok(())
}

/// Writes the host that the request is for.
#[tactic(auto, unfolding(crate::specs::RequestText::host_line))]
fn push_host(out: &mut Vec<u8>) -> Got<()>
    ensures { OnOk result (out.new.items ≡ out.old.items ++ host_line) }
{
    out.extend_from_slice(b"Host: couchd\r\n")?;
    Ok(())
}

/// Writes `?` and the query, where there is one.
fn push_query(out: &mut Vec<u8>, query: &Option<String>) -> Got<()>
    ensures { OnOk result (out.new.items ≡ out.old.items ++ query_text (option_map string_bytes query.now)) }
{
    if let Some(query) = query {
        out.extend_from_slice(b"?")?;
        out.extend_from_slice(query.as_bytes())?;
    }
    Ok(())
}

/// Writes the headers in order.
fn push_fields(out: &mut Vec<u8>, headers: &[Header]) -> Got<()>
    ensures { OnOk result (out.new.items ≡ out.old.items ++ field_lines (map header_field headers.now)) }
{
    for header in headers {
        push_field(out, header)?;
    }
    Ok(())
}

/// Writes a header.
#[tactic(auto, unfolding(crate::specs::RequestText::field_line))]
fn push_field(out: &mut Vec<u8>, header: &Header) -> Got<()>
    ensures { OnOk result (out.new.items ≡ out.old.items ++ field_line header.now.name.items header.now.value.items) }
{
    out.extend_from_slice(&header.name)?;
    out.extend_from_slice(b": ")?;
    out.extend_from_slice(&header.value)?;
    out.extend_from_slice(b"\r\n")?;
    Ok(())
}

/// Writes how many bytes the body has.
fn push_length_line(alloc: Global, out: &mut Vec<u8>, size: usize) -> Got<()>
    ensures { OnOk result (out.new.items ≡ out.old.items ++ length_line size) }
{
    let mut line = String::new(alloc);
    push_length(&mut line, size)?;
    out.extend_from_slice(line.as_bytes())?;
    Ok(())
}
