//! One head of a reply, whole.

ghost use Rattle.std.specs.Prelude.{◌≡◌, [], length, All, IfOk, IfSome, IfNone};
ghost use Rattle.httparse.specs.Grammar.{ResponseHead};
ghost use Rattle.httparse.specs.Spans.{IsHeaderWithin, IsResponseWithin};
ghost use Rattle.couch_http.specs.Front.{header_limit};
ghost use Rattle.couch_http.specs.Head.{head_scan, complete};
ghost use Rattle.couch_http.specs.ReplyStages.{IsReplyBegun, IsReplyHeadRead, IsReplyReadOf, IsSoundRead, IsWholeReplyHead};
ghost use Rattle.couch_http.specs.ReplyStream.{IsReplyHeadOf};

use crate::cutting::is_too_large;
use crate::fault::HttpFault;
use crate::fields::{has_transfer_encoding, reply_length};
use crate::head::headers_at;
use crate::limits::HEADER_LIMIT;
use couch_json::Got;
use httparse::Status;
use httparse::spans::{EMPTY_HEADER_SPAN, HeaderSpan, ResponseSpans, parse_response};
use std::alloc::Global;

/// What the head of a reply announces.
#[derive(Drop)]
pub enum ReplyHeadRead {
    /// No reply that is taken.
    Broken(HttpFault),
    /// A reply of this status, whose body has so many bytes.
    Announced(u16, usize),
}

/// Reads a whole head at the front of a stream of replies.
pub fn read_reply_front(alloc: Global, head: &[u8], lines: usize) -> Got<ReplyHeadRead>
    requires { head_scan head.now ≡ complete lines [] }
    ensures begun { IfOk result (IsReplyBegun head.now) }
    ensures sound { IfOk result IsSoundRead }
{
    if is_too_large(head, lines) {
        return Ok(ReplyHeadRead::Broken(HttpFault::TooLarge));
    }
    let read = read_reply_head(alloc, head)?;
    Ok(read)
}

/// Reads a head that is whole (RFC 9112, sections 4 and 5), by `httparse`'s grammar.
#[tactic(auto, unfolding(crate::specs::Front::header_limit))]
fn read_reply_head(alloc: Global, head: &[u8]) -> Got<ReplyHeadRead>
    ensures read { IfOk result (IsReplyHeadRead head.now) }
    ensures sound { IfOk result IsSoundRead }
{
    let mut spans = [EMPTY_HEADER_SPAN; HEADER_LIMIT];
    match find_reply_parts(head, &mut spans) {
        Some(found) => announce_reply(alloc, head, found, &spans[..found.headers]),
        None => Ok(ReplyHeadRead::Broken(HttpFault::Syntax)),
    }
}

/// Finds where the parts of a reply are whose head is all of these bytes.
fn find_reply_parts(head: &[u8], spans: &mut [HeaderSpan]) -> Option<ResponseSpans>
    requires { length spans.old ≡ header_limit }
    ensures within { IfSome result (IsResponseWithin head.now spans.new) }
    ensures found { IfSome result (IsWholeReplyHead head.now spans.new) }
    ensures none { IfNone result ((h : ResponseHead) → ¬ (IsReplyHeadOf head.now h)) }
{
    match parse_response(head, spans) {
        Ok(Status::Complete(found)) => {
            if found.len == head.len() {
                return Some(found);
            }
            None
        }
        Ok(Status::Partial) => None,
        Err(_) => None,
    }
}

/// Tells what a head announces whose parts were found.
fn announce_reply(
    alloc: Global,
    head: &[u8],
    found: ResponseSpans,
    spans: &[HeaderSpan],
) -> Got<ReplyHeadRead>
    requires { All (IsHeaderWithin (length head.now)) spans.now }
    ensures read { IfOk result (IsReplyReadOf head.now found spans.now) }
    ensures sound { IfOk result IsSoundRead }
{
    let headers = headers_at(alloc, head, spans)?;
    if has_transfer_encoding(&headers) {
        return Ok(ReplyHeadRead::Broken(HttpFault::Encoding));
    }
    match reply_length(&headers) {
        Ok(length) => Ok(ReplyHeadRead::Announced(found.code, length)),
        Err(fault) => Ok(ReplyHeadRead::Broken(fault)),
    }
}
