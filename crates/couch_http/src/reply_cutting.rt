//! How a reply is cut off a stream of bytes that comes in pieces.
//!
//! Head and body are kept in one place, which the reply takes over. Where a growth is refused what was kept stays.

ghost use Rattle.std.specs.Prelude.{◌≡◌, ◌≤◌, ◌+◌, [], ◌++◌, length, take, IfOk, IfErr, Some};
ghost use Rattle.couch_http.specs.Head.{head_scan, complete, within};
ghost use Rattle.couch_http.specs.ReplyStages.{IsPartialReply, IsReplyKept, IsReplyRefused, IsReplyStage, IsReplyTaken, IsReplyTakenFrom, reply_rest};
ghost use Rattle.couch_http.specs.Stages.{IsPartialHead};

use crate::cutting::may_go_on;
use crate::fault::HttpFault;
use crate::reply_head::{ReplyHeadRead, read_reply_front};
use crate::reply_stage::{PartialReply, ReplyRefused, ReplyStage, ReplyTaken};
use crate::response::Response;
use crate::scan::{Scan, Scanned, WholeHead};
use crate::stage::PartialHead;
use couch_json::NoMemory;
use std::alloc::Global;

/// Takes a piece at any stage.
pub fn take_reply_piece(
    alloc: Global,
    stage: ReplyStage,
    piece: &[u8],
) -> Result<ReplyTaken, ReplyRefused>
    requires { IsReplyStage stage }
    ensures ok { IfOk result (IsReplyTakenFrom (reply_rest stage) piece.now) }
    ensures err { IfErr result (IsReplyRefused (reply_rest stage) piece.now) }
{
    match stage {
        ReplyStage::Head(partial) => match partial.scan.run(piece) {
            Scanned::Within(scan) => take_in_head(partial, scan, piece),
            Scanned::Complete(whole) => take_at_head(alloc, partial, whole, piece),
        },
        ReplyStage::Body(partial) => match take_in_body(partial, piece) {
            Ok(taken) => Ok(taken),
            Err(partial) => Err(ReplyRefused {
                fault: HttpFault::Memory,
                stage: ReplyStage::Body(partial),
            }),
        },
        ReplyStage::Closed => Err(ReplyRefused {
            fault: HttpFault::Closed,
            stage: ReplyStage::Closed,
        }),
    }
}

/// Takes a piece that doesn't end the head.
fn take_in_head(
    mut partial: PartialHead,
    scan: Scan,
    piece: &[u8],
) -> Result<ReplyTaken, ReplyRefused>
    requires kept { IsPartialHead partial }
    requires scanned { head_scan (partial.bytes.items ++ piece.now) ≡ within scan.lines scan.line }
    requires counted { scan.lines ≤ length partial.bytes.items + length piece.now }
    ensures ok { IfOk result (IsReplyTaken (partial.bytes.items ++ piece.now)) }
    ensures err { IfErr result (IsReplyRefused (Some partial.bytes.items) piece.now) }
{
    if !may_go_on(partial.bytes.len().saturating_add(piece.len())) {
        return Err(ReplyRefused {
            fault: HttpFault::TooLarge,
            stage: ReplyStage::Closed,
        });
    }
    if partial.bytes.extend_from_slice(piece).is_err() {
        return Err(without_room(partial));
    }
    partial.scan = scan;
    Ok(ReplyTaken::Waits(ReplyStage::Head(partial)))
}

/// Takes a piece that ends the head.
fn take_at_head(
    alloc: Global,
    mut partial: PartialHead,
    whole: WholeHead,
    piece: &[u8],
) -> Result<ReplyTaken, ReplyRefused>
    requires kept { IsPartialHead partial }
    requires inside { whole.len ≤ length piece.now }
    requires scanned { head_scan (partial.bytes.items ++ take whole.len piece.now) ≡ complete whole.lines [] }
    ensures ok { IfOk result (IsReplyTaken (partial.bytes.items ++ piece.now)) }
    ensures err { IfErr result (IsReplyRefused (Some partial.bytes.items) piece.now) }
{
    let had = partial.bytes.len();
    let (end, rest) = piece.split_at(whole.len);
    if partial.bytes.extend_from_slice(end).is_err() {
        return Err(without_room(partial));
    }
    let Ok(read) = read_reply_front(alloc, &partial.bytes, whole.lines) else {
        partial.bytes.truncate(had);
        return Err(without_room(partial));
    };
    match read {
        ReplyHeadRead::Broken(fault) => Err(ReplyRefused {
            fault,
            stage: ReplyStage::Closed,
        }),
        ReplyHeadRead::Announced(status, size) => {
            let PartialHead { bytes, scan } = partial;
            let head_len = bytes.len();
            let reply = PartialReply {
                status,
                bytes,
                head_len,
                size,
            };
            match take_in_body(reply, rest) {
                Ok(taken) => Ok(taken),
                Err(reply) => {
                    let mut bytes = reply.bytes;
                    bytes.truncate(had);
                    Err(without_room(PartialHead { bytes, scan }))
                }
            }
        }
    }
}

/// Takes a piece that comes after the head.
fn take_in_body(mut partial: PartialReply, piece: &[u8]) -> Result<ReplyTaken, PartialReply>
    requires { IsPartialReply partial }
    ensures ok { IfOk result (IsReplyTaken (partial.bytes.items ++ piece.now)) }
    ensures err { IfErr result (IsReplyKept partial) }
{
    let missing = partial.size - (partial.bytes.len() - partial.head_len);
    if piece.len() < missing {
        return match partial.bytes.extend_from_slice(piece) {
            Ok(()) => Ok(ReplyTaken::Waits(ReplyStage::Body(partial))),
            Err(_) => Err(partial),
        };
    }
    match partial.bytes.extend_from_slice(&piece[..missing]) {
        Ok(()) => Ok(ReplyTaken::Whole(Response::read(
            partial.status,
            partial.head_len,
            partial.bytes,
        ))),
        Err(_) => Err(partial),
    }
}

/// Refuses a piece for lack of memory, and keeps what had come of the head.
fn without_room(partial: PartialHead) -> ReplyRefused
    ensures fault { result.fault ≡ HttpFault.Memory }
    ensures stage { result.stage ≡ ReplyStage.Head partial }
{
    ReplyRefused {
        fault: HttpFault::Memory,
        stage: ReplyStage::Head(partial),
    }
}
