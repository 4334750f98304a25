use crate::fault::HttpFault;
use crate::reply_cutting::take_reply_piece;
use crate::reply_stage::{ReplyStage, ReplyTaken};
use crate::response::Response;
use crate::scan::Scan;
use crate::stage::PartialHead;
use std::alloc::Global;
use std::marker::Model;
use std::mem;

/// Reads one reply off a stream of bytes, however the stream is cut into pieces.
///
/// Clauses see a reply cutter as what has come of the reply, or as `None` once nothing more is taken. A piece
/// costs time in its own length: what waits is neither copied nor searched again.
pub struct ReplyCutter {
    alloc: Global,
    stage: ReplyStage,
}

// Written out, so that callers do not prove again how each part is dropped.
impl Drop for ReplyCutter {
    fn drop(self) {
        let ReplyCutter { alloc: _, stage: _ } = self;
    }
}

impl Model for ReplyCutter {
    ghost use Rattle.std.specs.Prelude.{ℕ, List, Option};

    ghost Value = { Option (List ℕ) };

    ghost use Rattle.couch_http.specs.ReplyStages.{IsReplyStage, reply_rest};

    ghost view = { λ c. reply_rest c.stage };

    ghost invariant = { λ c. IsReplyStage c.stage };
}

impl ReplyCutter {
    ghost use Rattle.std.specs.Prelude.{◌≡◌, [], Some, IfOk, IfErr};
    ghost use Rattle.couch_http.specs.ReplyStream.{GivesReply, RefusesReply};

    /// Begins at the front of a stream.
    #[tactic(auto, unfolding(crate::specs::Front::head_limit))]
    pub fn new(alloc: Global) -> ReplyCutter
        ensures { result ≡ Some [] }
    {
        ReplyCutter {
            alloc,
            stage: ReplyStage::Head(PartialHead {
                bytes: Vec::new(alloc),
                scan: Scan::start(),
            }),
        }
    }

    /// Takes the next piece of the stream, and answers the reply once it is whole (RFC 9112).
    ///
    /// A head has at most 16,384 bytes and 64 header lines, a body 67,108,864 bytes, and the body's length is
    /// that of `Content-Length`. `Syntax`, `Encoding` and `TooLarge` say that the stream is no such reply. After
    /// them and after the reply each further piece is `Closed`, and bytes after the reply are dropped. `Memory`
    /// leaves the cutter as it was.
    pub fn feed(&mut self, piece: &[u8]) -> Result<Option<Response>, HttpFault>
        ensures reply { IfOk result (λ reply. GivesReply self.old piece.now reply self.new) }
        ensures refusal { IfErr result (λ fault. RefusesReply self.old piece.now fault self.new) }
    {
        let stage = mem::replace(&mut self.stage, ReplyStage::Closed);
        match take_reply_piece(self.alloc, stage, piece) {
            Ok(ReplyTaken::Waits(stage)) => {
                self.stage = stage;
                Ok(None)
            }
            Ok(ReplyTaken::Whole(reply)) => Ok(Some(reply)),
            Err(refused) => {
                self.stage = refused.stage;
                Err(refused.fault)
            }
        }
    }
}
