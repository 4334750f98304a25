//! One head, whole, as a request without its body.

ghost use Rattle.std.specs.Prelude.{◌≡◌, length, map, All, IsUtf8, IfOk, IfSome, IfNone};
ghost use Rattle.std.specs.Option.{option_map};
ghost use Rattle.std.specs.String.{string_bytes};
ghost use Rattle.http_header.specs.Token.{IsToken};
ghost use Rattle.httparse.specs.Grammar.{RequestHead};
ghost use Rattle.httparse.specs.Spans.{span_bytes, IsWithin, IsHeaderWithin, IsRequestWithin};
ghost use Rattle.couch_http.specs.Message.{header_field};
ghost use Rattle.couch_http.specs.Fields.{target_path, target_query};
ghost use Rattle.couch_http.specs.Beginning.{IsHeadRead, IsReadOf, IsWholeRequest, field_at};
ghost use Rattle.couch_http.specs.Stream.{IsHeadOf, header_limit};

use crate::fault::HttpFault;
use crate::fields::{has_transfer_encoding, is_last, request_length};
use crate::limits::HEADER_LIMIT;
use crate::request::{Header, Request};
use couch_json::{Got, NoMemory};
use http::Method;
use http::method::MethodError;
use httparse::Status;
use httparse::spans::{EMPTY_HEADER_SPAN, HeaderSpan, RequestSpans, Span, parse_request};
use std::alloc::Global;

/// What a head announces.
#[derive(Drop)]
pub enum HeadRead {
    /// No request that is taken.
    Broken(HttpFault),
    /// A request, here without its body, and how many bytes its body has.
    Announced(Request, usize),
}

/// Reads a head that is whole (RFC 9112, sections 3 and 5), by `httparse`'s grammar.
#[tactic(auto, unfolding(crate::specs::Front::header_limit))]
pub fn read_head(alloc: Global, head: &[u8]) -> Got<HeadRead>
    ensures { IfOk result (IsHeadRead head.now) }
{
    let mut spans = [EMPTY_HEADER_SPAN; HEADER_LIMIT];
    match find_parts(head, &mut spans) {
        Some(found) => build_request(alloc, head, found, &spans[..found.headers]),
        None => Ok(HeadRead::Broken(HttpFault::Syntax)),
    }
}

/// Finds where the parts of a request are whose head is all of these bytes.
fn find_parts(head: &[u8], spans: &mut [HeaderSpan]) -> Option<RequestSpans>
    requires { length spans.old ≡ header_limit }
    ensures within { IfSome result (IsRequestWithin head.now spans.new) }
    ensures found { IfSome result (IsWholeRequest head.now spans.new) }
    ensures none { IfNone result ((h : RequestHead) → ¬ (IsHeadOf head.now h)) }
{
    match parse_request(head, spans) {
        Ok(Status::Complete(found)) => {
            if found.len == head.len() {
                return Some(found);
            }
            None
        }
        Ok(Status::Partial) => None,
        Err(_) => None,
    }
}

/// Builds the request whose parts were found in its head.
fn build_request(
    alloc: Global,
    head: &[u8],
    found: RequestSpans,
    spans: &[HeaderSpan],
) -> Got<HeadRead>
    requires method { IsWithin (length head.now) found.method }
    requires path { IsWithin (length head.now) found.path }
    requires headers { All (IsHeaderWithin (length head.now)) spans.now }
    requires method_token { IsToken (span_bytes head.now found.method) }
    requires path_text { IsUtf8 (span_bytes head.now found.path) }
    ensures { IfOk result (IsReadOf head.now found spans.now) }
{
    let headers = headers_at(alloc, head, spans)?;
    if has_transfer_encoding(&headers) {
        return Ok(HeadRead::Broken(HttpFault::Encoding));
    }
    let length = match request_length(&headers) {
        Ok(length) => length,
        Err(fault) => return Ok(HeadRead::Broken(fault)),
    };
    let target = text_of(found.path.of(head));
    let method = method_of(alloc, found.method.of(head))?;
    let path = path_of(alloc, target)?;
    let query = query_of(alloc, target)?;
    let last = is_last(found.version, &headers);
    let body = Vec::new(alloc);
    Ok(HeadRead::Announced(
        Request {
            method,
            path,
            query,
            headers,
            body,
            last,
        },
        length,
    ))
}

/// Returns the headers that the spans cover.
pub fn headers_at(alloc: Global, head: &[u8], spans: &[HeaderSpan]) -> Got<Vec<Header>>
    requires { All (IsHeaderWithin (length head.now)) spans.now }
    ensures { IfOk result (λ headers. map header_field headers.items ≡ map (field_at head.now) spans.now) }
{
    let mut headers = Vec::new(alloc);
    for span in spans {
        let name = Vec::from_slice(alloc, span.name.of(head))?;
        let value = Vec::from_slice(alloc, span.value.of(head))?;
        headers.push(Header { name, value })?;
    }
    Ok(headers)
}

/// Makes the method of a token.
fn method_of(alloc: Global, token: &[u8]) -> Got<Method>
    requires { IsToken token.now }
    ensures { IfOk result (λ method. method ≡ token.now) }
{
    match Method::from_bytes(alloc, token) {
        Ok(method) => Ok(method),
        Err(MethodError::OutOfMemory) => Err(NoMemory),
        Err(MethodError::Invalid) => unreachable!(),
    }
}

/// Bytes that are UTF-8, as a text.
fn text_of(bytes: &[u8]) -> &str
    requires { IsUtf8 bytes.now }
    ensures { result.now ≡ bytes.now }
{
    match str::from_utf8(bytes) {
        Ok(text) => text,
        Err(_) => unreachable!(),
    }
}

/// Returns a target up to its first `?`.
fn path_of(alloc: Global, target: &str) -> Got<String>
    ensures { IfOk result (λ path. string_bytes path ≡ target_path target.now) }
{
    let path = match target.split_once('?') {
        Some((path, _)) => path,
        None => target,
    };
    Ok(String::from_str(alloc, path)?)
}

/// Tells what stands behind the first `?` of a target.
fn query_of(alloc: Global, target: &str) -> Got<Option<String>>
    ensures { IfOk result (λ query. option_map string_bytes query ≡ target_query target.now) }
{
    match target.split_once('?') {
        Some((_, query)) => Ok(Some(String::from_str(alloc, query)?)),
        None => Ok(None),
    }
}
