use crate::cut::Cut;
use crate::cutting::take_piece;
use crate::fault::HttpFault;
use crate::response::Response;
use crate::scan::Scan;
use crate::stage::{PartialHead, Stage};
use std::alloc::Global;
use std::marker::Model;
use std::mem;

/// Cuts a stream of bytes into requests, however the stream is cut into pieces.
///
/// Clauses see a cutter as what has come of the next request, or as `None` once no more are taken. A piece
/// costs time in its own length: what waits is neither copied nor searched again.
pub struct Cutter {
    alloc: Global,
    stage: Stage,
}

// Written out, so that callers do not prove again how each part is dropped.
impl Drop for Cutter {
    fn drop(self) {
        let Cutter { alloc: _, stage: _ } = self;
    }
}

impl Model for Cutter {
    ghost use Rattle.std.specs.Prelude.{ℕ, List, Option};

    ghost Value = { Option (List ℕ) };

    ghost use Rattle.couch_http.specs.Stages.{IsStage, stage_rest};

    ghost view = { λ c. stage_rest c.stage };

    ghost invariant = { λ c. IsStage c.stage };
}

impl Cutter {
    ghost use Rattle.std.specs.Prelude.{◌≡◌, ◌≢◌, ◌↔◌, ◌≤◌, ◌+◌, [], Some, None, length, vec_capacity, vec_len, IfOk, IfErr, OnErr, IsErrOf};
    ghost use Rattle.couch_http.specs.Cutting.{CutsPiece, HasStreamFault};

    /// Begins at the front of a stream.
    #[tactic(auto, unfolding(crate::specs::Front::head_limit))]
    pub fn new(alloc: Global) -> Cutter
        ensures { result ≡ Some [] }
    {
        Cutter {
            alloc,
            stage: Stage::Head(PartialHead {
                bytes: Vec::new(alloc),
                scan: Scan::start(),
            }),
        }
    }

    /// Takes the next piece of the stream, and answers the requests whose last byte is in it and how the
    /// stream then stands (RFC 9112).
    ///
    /// A head has at most 16,384 bytes and 64 header lines, a body 4,194,304 bytes. After `Last` and after a
    /// fault each further piece is `Closed`.
    pub fn feed(&mut self, piece: &[u8]) -> Result<Cut, HttpFault>
        ensures cut { IfOk result (λ cut. CutsPiece self.old piece.now cut self.new) }
        ensures fault { IfOk result (λ cut. HasStreamFault cut.ending) }

        // Nothing changes at a refusal. `Closed` comes exactly on an ended stream, and else memory was refused.
        ensures err { OnErr result (self.new ≡ self.old) }
        ensures closed { IsErrOf result HttpFault.Closed ↔ (self.old ≡ None) }
        ensures refused { IfErr result (λ fault. self.old ≢ None → fault ≡ HttpFault.Memory) }
    {
        let mut room = Vec::new(self.alloc);
        self.feed_with_room(piece, &mut room)
    }

    /// Takes the next piece as `feed` does, and makes room in `room` for a reply to each of the
    /// requests and one more.
    ///
    /// Once a piece is taken its replies can then be kept without a growth that might be refused.
    #[tactic(auto, using(crate::proofs::FaultLemmas::HasStreamFault_answer))]
    pub fn feed_with_room(
        &mut self,
        piece: &[u8],
        room: &mut Vec<Response>,
    ) -> Result<Cut, HttpFault>
        ensures cut { IfOk result (λ cut. CutsPiece self.old piece.now cut self.new) }
        ensures fault { IfOk result (λ cut. HasStreamFault cut.ending) }

        // Nothing changes at a refusal. `Closed` comes exactly on an ended stream, and else memory was refused.
        ensures err { OnErr result (self.new ≡ self.old) }
        ensures closed { IsErrOf result HttpFault.Closed ↔ (self.old ≡ None) }
        ensures refused { IfErr result (λ fault. self.old ≢ None → fault ≡ HttpFault.Memory) }

        // What the room holds stays. There is place for as many replies as there are requests, and one more.
        ensures items { room.new.items ≡ room.old.items }
        ensures room { IfOk result (λ cut. vec_len room.new + length cut.requests.items + 1 ≤ vec_capacity room.new) }
    {
        let stage = mem::replace(&mut self.stage, Stage::Closed);
        match take_piece(self.alloc, stage, piece, room) {
            Ok(taken) => {
                self.stage = taken.stage;
                Ok(taken.cut)
            }
            Err(refused) => {
                self.stage = refused.stage;
                Err(refused.fault)
            }
        }
    }
}
