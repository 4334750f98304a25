//! How requests are cut off a stream of bytes that comes in pieces.
//!
//! A piece first completes the request that is waited for; what comes after it is cut in one loop. A refusal leaves what was
//! kept as it was, so everything that can be refused, the room for replies too, comes before the first request is handed on.

ghost use Rattle.std.specs.Prelude.{◌≡◌, ◌≤◌, ◌+◌, ℕ, List, [], ◌++◌, length, nat_lt, vec_capacity, vec_len, IfOk, IfErr};
ghost use Rattle.couch_http.specs.Head.{head_scan, complete};
ghost use Rattle.couch_http.specs.Message.{message_of};
ghost use Rattle.couch_http.specs.Scanning.{scan_found, IsScanOf};
ghost use Rattle.couch_http.specs.Stages.{IsBegun, IsTaken, IsTakenFrom, IsRefused, IsStage, IsPartialHead, IsPartialRequest, IsHeadKept, IsRequestKept};
ghost use Rattle.couch_http.specs.Stream.{head_limit, Begins, whole, with_body, is_too_large};

use crate::cut::{Cut, Ending};
use crate::fault::HttpFault;
use crate::head::{HeadRead, read_head};
use crate::limits::{HEAD_LIMIT, HEADER_LIMIT};
use crate::request::Request;
use crate::response::Response;
use crate::scan::{Scan, Scanned, WholeHead};
use crate::stage::{Parsed, PartialHead, PartialRequest, Refused, Stage, Taken};
use couch_json::{Got, NoMemory};
use std::alloc::Global;

/// Takes a piece at any stage, and makes room for the replies to its requests and one more.
pub fn take_piece(
    alloc: Global,
    stage: Stage,
    piece: &[u8],
    room: &mut Vec<Response>,
) -> Result<Taken, Refused>
    requires { IsStage stage }
    ensures ok { IfOk result (IsTakenFrom stage piece.now) }
    ensures err { IfErr result (IsRefused stage) }
    ensures items { room.new.items ≡ room.old.items }
    ensures room { IfOk result (λ t. vec_len room.new + length t.cut.requests.items + 1 ≤ vec_capacity room.new) }
{
    match stage {
        Stage::Head(partial) => match take_in_head(alloc, partial, piece, room) {
            Ok(taken) => Ok(taken),
            Err(partial) => Err(Refused {
                fault: HttpFault::Memory,
                stage: Stage::Head(partial),
            }),
        },
        Stage::Body(partial) => match take_in_body(alloc, partial, piece, room) {
            Ok(taken) => Ok(taken),
            Err(partial) => Err(Refused {
                fault: HttpFault::Memory,
                stage: Stage::Body(partial),
            }),
        },
        Stage::Closed => Err(Refused {
            fault: HttpFault::Closed,
            stage: Stage::Closed,
        }),
    }
}

/// Takes a piece while a head isn't whole.
fn take_in_head(
    alloc: Global,
    mut partial: PartialHead,
    piece: &[u8],
    room: &mut Vec<Response>,
) -> Result<Taken, PartialHead>
    requires { IsPartialHead partial }
    ensures ok { IfOk result (IsTaken (partial.bytes.items ++ piece.now)) }
    ensures err { IfErr result (IsHeadKept partial) }
    ensures items { room.new.items ≡ room.old.items }
    ensures room { IfOk result (λ t. vec_len room.new + length t.cut.requests.items + 1 ≤ vec_capacity room.new) }
{
    if room.reserve(1).is_err() {
        return Err(partial);
    }
    let had = partial.bytes.len();
    match partial.scan.run(piece) {
        Scanned::Within(scan) => {
            if !may_go_on(had.saturating_add(piece.len())) {
                return Ok(empty_cut(alloc, Stage::Closed, Ending::Fault(HttpFault::TooLarge)));
            }
            if partial.bytes.extend_from_slice(piece).is_err() {
                return Err(partial);
            }
            partial.scan = scan;
            Ok(empty_cut(alloc, Stage::Head(partial), Ending::Open))
        }
        Scanned::Complete(WholeHead { lines, len }) => {
            let (end, rest) = piece.split_at(len);
            if partial.bytes.extend_from_slice(end).is_err() {
                return Err(partial);
            }
            match cut_at_head(alloc, &partial.bytes, rest, lines, room) {
                Ok(taken) => Ok(taken),
                Err(NoMemory) => {
                    partial.bytes.truncate(had);
                    Err(partial)
                }
            }
        }
    }
}

/// Takes a piece while a body isn't whole.
fn take_in_body(
    alloc: Global,
    partial: PartialRequest,
    piece: &[u8],
    room: &mut Vec<Response>,
) -> Result<Taken, PartialRequest>
    requires { IsPartialRequest partial }
    ensures ok { IfOk result (IsTaken (partial.head.items ++ partial.request.body.items ++ piece.now)) }
    ensures err { IfErr result (IsRequestKept partial) }
    ensures items { room.new.items ≡ room.old.items }
    ensures room { IfOk result (λ t. vec_len room.new + length t.cut.requests.items + 1 ≤ vec_capacity room.new) }
{
    if room.reserve(1).is_err() {
        return Err(partial);
    }
    let PartialRequest {
        head,
        mut request,
        length,
    } = partial;
    let had = request.body.len();
    let missing = length - had;
    if piece.len() < missing {
        let grown = request.body.extend_from_slice(piece);
        let partial = PartialRequest {
            head,
            request,
            length,
        };
        return match grown {
            Ok(()) => Ok(empty_cut(alloc, Stage::Body(partial), Ending::Open)),
            Err(_) => Err(partial),
        };
    }
    let (end, rest) = piece.split_at(missing);
    if request.body.extend_from_slice(end).is_err() {
        return Err(PartialRequest {
            head,
            request,
            length,
        });
    }
    match cut_after(alloc, request, rest, room) {
        Ok(taken) => Ok(taken),
        Err(mut request) => {
            request.body.truncate(had);
            Err(PartialRequest {
                head,
                request,
                length,
            })
        }
    }
}

/// Cuts the requests off a stream that has this head at its front, and then these bytes.
fn cut_at_head(
    alloc: Global,
    head: &[u8],
    rest: &[u8],
    lines: usize,
    room: &mut Vec<Response>,
) -> Got<Taken>
    requires { head_scan head.now ≡ complete lines [] }
    ensures taken { IfOk result (IsTaken (head.now ++ rest.now)) }
    ensures items { room.new.items ≡ room.old.items }
    ensures room { IfOk result (λ t. vec_len room.new + length t.cut.requests.items + 1 ≤ vec_capacity room.new) }
{
    cut_begun(alloc, after_head(alloc, head, rest, lines)?, room)
}

/// Cuts the requests off a stream that begins so.
fn cut_begun(alloc: Global, begun: Parsed, room: &mut Vec<Response>) -> Got<Taken>
    ensures taken { IfOk result (λ t. (bytes : List ℕ) → IsBegun bytes begun.entry → IsTaken bytes t) }
    ensures items { room.new.items ≡ room.old.items }
    ensures room { IfOk result (λ t. vec_len room.new + length t.cut.requests.items + 1 ≤ vec_capacity room.new) }
{
    room.reserve(1)?;
    match begun {
        Parsed::Incomplete(stage) => Ok(empty_cut(alloc, stage, Ending::Open)),
        Parsed::Faulty(fault) => Ok(empty_cut(alloc, Stage::Closed, Ending::Fault(fault))),
        Parsed::Complete(request, rest) => match cut_after(alloc, request, rest, room) {
            Ok(taken) => Ok(taken),
            Err(_request) => Err(NoMemory),
        },
    }
}

/// Cuts the requests off a stream whose first request is this one, with these bytes after it. Where a growth is refused the
/// request comes back.
fn cut_after(
    alloc: Global,
    request: Request,
    rest: &[u8],
    room: &mut Vec<Response>,
) -> Result<Taken, Request>
    ensures ok { IfOk result (λ t. (bytes : List ℕ) → Begins bytes (whole (message_of request) rest.now) → IsTaken bytes t) }
    ensures err { IfErr result (λ back. back ≡ request) }
    ensures items { room.new.items ≡ room.old.items }
    ensures room { IfOk result (λ t. vec_len room.new + length t.cut.requests.items + 1 ≤ vec_capacity room.new) }
{
    let mut taken = if request.last {
        empty_cut(alloc, Stage::Closed, Ending::Last)
    } else {
        let Ok(taken) = cut_all(alloc, rest) else {
            return Err(request);
        };
        taken
    };
    if room.reserve(taken.cut.requests.len() + 2).is_err() {
        return Err(request);
    }
    match taken.cut.requests.insert(0, request) {
        Ok(()) => Ok(taken),
        Err(refused) => Err(refused.value),
    }
}

/// Cuts all requests off the front of a stream.
fn cut_all(alloc: Global, bytes: &[u8]) -> Got<Taken>
    ensures { IfOk result (IsTaken bytes.now) }
{
    let mut requests = Vec::new(alloc);
    let mut rest = bytes;
    loop {
        match begin(alloc, rest)? {
            Parsed::Incomplete(stage) => {
                let ending = Ending::Open;
                return Ok(Taken {
                    cut: Cut { requests, ending },
                    stage,
                });
            }
            Parsed::Faulty(fault) => {
                let ending = Ending::Fault(fault);
                return Ok(Taken {
                    cut: Cut { requests, ending },
                    stage: Stage::Closed,
                });
            }
            Parsed::Complete(request, more) => {
                let last = request.last;
                requests.push(request)?;
                if last {
                    let ending = Ending::Last;
                    return Ok(Taken {
                        cut: Cut { requests, ending },
                        stage: Stage::Closed,
                    });
                }
                rest = more;
            }
        }
    }
}

/// Answers without a request: the stream stands so.
fn empty_cut(alloc: Global, stage: Stage, ending: Ending) -> Taken
    ensures stage { result.stage ≡ stage }
    ensures ending { result.cut.ending ≡ ending }
    ensures requests { result.cut.requests.items ≡ [] }
{
    Taken {
        cut: Cut {
            requests: Vec::new(alloc),
            ending,
        },
        stage,
    }
}

/// Reads how a stream of these bytes begins.
fn begin<'a>(alloc: Global, bytes: &'a [u8]) -> Got<Parsed<'a>>
    ensures { IfOk result (IsBegun bytes.now) }
{
    match search(bytes) {
        Scanned::Within(scan) => {
            if !may_go_on(bytes.len()) {
                return Ok(Parsed::Faulty(HttpFault::TooLarge));
            }
            let bytes = Vec::from_slice(alloc, bytes)?;
            Ok(Parsed::Incomplete(Stage::Head(PartialHead { bytes, scan })))
        }
        Scanned::Complete(WholeHead { lines, len }) => {
            let (head, rest) = bytes.split_at(len);
            after_head(alloc, head, rest, lines)
        }
    }
}

/// Searches for the end of the head at the front of a stream.
fn search(bytes: &[u8]) -> Scanned
    ensures found { scan_found bytes.now result ≡ head_scan bytes.now }
    ensures within { IsScanOf 0 bytes.now result }
{
    Scan::start().run(bytes)
}

/// Reads what a head announces, and how much of it has come.
fn after_head<'a>(alloc: Global, head: &[u8], rest: &'a [u8], lines: usize) -> Got<Parsed<'a>>
    requires { head_scan head.now ≡ complete lines [] }
    ensures { IfOk result (IsBegun (head.now ++ rest.now)) }
{
    if is_too_large(head, lines) {
        return Ok(Parsed::Faulty(HttpFault::TooLarge));
    }
    match read_head(alloc, head)? {
        HeadRead::Broken(fault) => Ok(Parsed::Faulty(fault)),
        HeadRead::Announced(request, length) => with_body(alloc, head, request, length, rest),
    }
}

/// Gives the request the body that `rest` begins with, once that is whole.
fn with_body<'a>(
    alloc: Global,
    head: &[u8],
    mut request: Request,
    length: usize,
    rest: &'a [u8],
) -> Got<Parsed<'a>>
    requires { (more : List ℕ) → Begins (head.now ++ more) (with_body (message_of request) length more) }
    ensures { IfOk result (IsBegun (head.now ++ rest.now)) }
{
    if rest.len() < length {
        request.body = Vec::from_slice(alloc, rest)?;
        let head = Vec::from_slice(alloc, head)?;
        return Ok(Parsed::Incomplete(Stage::Body(PartialRequest {
            head,
            request,
            length,
        })));
    }
    let (body, more) = rest.split_at(length);
    request.body = Vec::from_slice(alloc, body)?;
    Ok(Parsed::Complete(request, more))
}

/// Tests whether a head is too long, or has too many lines.
#[tactic(auto, unfolding(crate::specs::Front::head_limit, crate::specs::Front::header_limit))]
pub fn is_too_large(head: &[u8], lines: usize) -> bool
    ensures { result ≡ is_too_large head.now lines }
{
    head.len() > HEAD_LIMIT || lines.saturating_sub(1) > HEADER_LIMIT
}

/// Tests whether more of a head may come behind so many bytes of it.
#[tactic(auto, unfolding(crate::specs::Front::head_limit))]
pub fn may_go_on(len: usize) -> bool
    ensures { result ≡ nat_lt len head_limit }
{
    len < HEAD_LIMIT
}
