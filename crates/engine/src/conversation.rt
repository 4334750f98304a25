//! One connection among many.

use crate::backlog::Backlog;
use crate::flow::Flow;
use crate::limits::Limits;
use crate::queues::{Place, Queues};
use crate::sockets::Sockets;
use couch_http::{Fixed, Response};
use hub::{FailureLog, Hub, Replies};
use std::alloc::Global;
use store::Store;

/// How many seconds a client that gets no more replies may be silent.
const LAST_SILENCE: u64 = 2;

/// How many pieces of one request are read in a turn at most.
const PIECES: usize = 64;

/// Where more bytes than these become owed by a piece, the next one is read behind those of others.
const MUCH: usize = 1_048_576;

/// How far a conversation is.
#[derive(Clone, Copy, Debug, PartialEq, Eq)]
pub enum ConversationStage {
    /// Requests come.
    Open,
    /// The last reply is owed.
    Last,
    /// Nothing more is written. What still comes is passed over.
    Ending,
    /// Memory ran out, or too much would be owed, and nothing more is written.
    Lost,
}

/// What came of a turn of a conversation.
#[derive(Clone, Copy, Debug, PartialEq, Eq)]
pub enum Turn {
    /// It may have another at once.
    Again,
    /// Bytes went through, and it waits until it is reported.
    Later,
    /// Nothing went through, and it waits until it is reported.
    Silent,
    /// It is over.
    Over,
}

impl Turn {
    ghost use Rattle.std.specs.Prelude.{◌≢◌};

    /// Returns what comes of a turn in which bytes went through before: it isn't silent.
    fn after_bytes(self) -> Turn
        ensures { result ≢ Turn.Silent }
    {
        match self {
            Turn::Silent | Turn::Later => Turn::Later,
            Turn::Again => Turn::Again,
            Turn::Over => Turn::Over,
        }
    }
}

/// A connection: what it is owed, and how far it is.
#[derive(Drop)]
pub struct Conversation {
    /// What it is still to take.
    pub owed: Backlog,
    /// How far it is.
    pub stage: ConversationStage,
    /// The server's second at which something last went through.
    pub since: u64,
    /// The server's second at which a request began that is not whole, or at which the end began.
    pub begun: Option<u64>,
    /// It has a turn to come.
    pub queued: bool,
    /// More than 1 MiB became owed by its last piece.
    pub owed_much: bool,
}

impl Conversation {
    ghost use Rattle.std.specs.Prelude.{◌≡◌, ◌≢◌, ℕ, List, [], true};
    ghost use Rattle.hub.specs.Service.{bytes_of, farewell};
    ghost use Rattle.engine.specs.Acts.{Logs};
    ghost use Rattle.engine.specs.Conversing.{Converses, IsSilent, standing_of};
    ghost use Rattle.engine.specs.Standing.{Owes, TakesPiece};
    ghost use Rattle.engine.specs.inner.Sending.{Sends, stage_after_finish};

    /// Makes a conversation to which nothing is owed. Takes no memory.
    pub fn new(alloc: Global, now: u64) -> Conversation
        ensures owed { result.owed ≡ [] }
        ensures stage { result.stage ≡ ConversationStage.Open }
    {
        Conversation {
            owed: Backlog::new(alloc),
            stage: ConversationStage::Open,
            since: now,
            begun: None,
            queued: false,
            owed_much: false,
        }
    }

    /// Tells whether nothing has gone through for too long, or a request is not whole for too long.
    ///
    /// Such a connection is ended once it has a turn by which nothing goes through.
    pub fn is_late(&self, now: u64, limits: &Limits) -> bool {
        let silence = match self.stage {
            ConversationStage::Open | ConversationStage::Last => limits.idle,
            ConversationStage::Ending | ConversationStage::Lost => LAST_SILENCE,
        };
        now.saturating_sub(self.since) > silence || self.is_slow(now, limits)
    }

    /// Tells whether a request is not whole for too long, or the end has lasted for as long.
    fn is_slow(&self, now: u64, limits: &Limits) -> bool {
        match self.begun {
            Some(begun) => now.saturating_sub(begun) > limits.request,
            None => false,
        }
    }

    /// Tells whether what comes behind the last reply was passed over for long enough.
    pub fn is_drained(&self, now: u64, limits: &Limits) -> bool {
        self.stage == ConversationStage::Ending && self.is_slow(now, limits)
    }

    /// Joins those that have a turn to come, if it isn't among them. Where memory runs out it doesn't.
    ///
    /// One to which much became owed by its last piece is to read the next one behind the others.
    pub(crate) fn join(&mut self, queues: &mut Queues, conn: u64, place: Place)
        ensures owed { self.new.owed ≡ self.old.owed }
        ensures stage { self.new.stage ≡ self.old.stage }
    {
        if self.queued {
            return;
        }
        self.queued = if self.owed_much && self.owed.len() == 0 {
            queues.push(Place::Behind, conn)
        } else {
            queues.push(place, conn)
        };
    }

    /// Takes a turn: writes what is owed; where nothing is, reads a piece, feeds it, and writes the
    /// replies. The other pieces of the same request may follow.
    pub fn take_turn<S: Store + Drop, L: FailureLog + Drop, W: Sockets>(
        &mut self,
        hub: &mut Hub<S, L>,
        sockets: &mut W,
        conn: u64,
        room: &mut [u8],
        now: u64,
    ) -> Turn
        ensures converses { Converses S.Store conn (record { hub = hub.old; standing = standing_of self.old; log = W.log sockets.old })
            (record { hub = hub.new; standing = standing_of self.new; log = W.log sockets.new }) }

        // Only where nothing was read and nothing written; one that is late is closed behind it.
        ensures silent { result ≡ Turn.Silent → IsSilent (record { hub = hub.old; standing = standing_of self.old; log = W.log sockets.old })
            (record { hub = hub.new; standing = standing_of self.new; log = W.log sockets.new }) }
    {
        match self.stage {
            ConversationStage::Lost => Turn::Over,
            ConversationStage::Open | ConversationStage::Last | ConversationStage::Ending => {
                self.go_on(hub, sockets, conn, room, now)
            }
        }
    }

    /// Takes a turn that is not lost.
    fn go_on<S: Store + Drop, L: FailureLog + Drop, W: Sockets>(
        &mut self,
        hub: &mut Hub<S, L>,
        sockets: &mut W,
        conn: u64,
        room: &mut [u8],
        now: u64,
    ) -> Turn
        requires { self.old.stage ≢ ConversationStage.Lost }
        ensures converses { Converses S.Store conn (record { hub = hub.old; standing = standing_of self.old; log = W.log sockets.old })
            (record { hub = hub.new; standing = standing_of self.new; log = W.log sockets.new }) }
        ensures silent { result ≡ Turn.Silent → IsSilent (record { hub = hub.old; standing = standing_of self.old; log = W.log sockets.old })
            (record { hub = hub.new; standing = standing_of self.new; log = W.log sockets.new }) }
    {
        if self.owed.len() > 0 {
            return self.send(sockets, conn, now);
        }
        self.finish(sockets, conn, now);
        self.take_pieces(hub, sockets, conn, room, now)
    }

    /// Writes what is owed. The answer is `Again` where it was taken, all or a part, and where nothing
    /// is owed.
    fn send<W: Sockets>(&mut self, sockets: &mut W, conn: u64, now: u64) -> Turn
        ensures sent { Sends conn (W.log sockets.old) (W.log sockets.new) self.old.owed self.new.owed }
        ensures stage { self.new.stage ≡ self.old.stage }
        ensures silent { result ≡ Turn.Silent → Logs (W.log sockets.old) (W.log sockets.new) [] }
        ensures kept { result ≡ Turn.Silent → self.new.owed ≡ self.old.owed }
    {
        if self.owed.len() == 0 {
            return Turn::Again;
        }
        match sockets.write(conn, self.owed.bytes()) {
            Flow::Bytes(count, _) => {
                self.since = now;
                self.owed.take(count);
                Turn::Again
            }
            Flow::Later => Turn::Silent,
            Flow::Never => Turn::Over,
        }
    }

    /// Tells the peer that nothing more comes, where the last reply was taken.
    fn finish<W: Sockets>(&mut self, sockets: &mut W, conn: u64, now: u64)
        ensures log { Logs (W.log sockets.old) (W.log sockets.new) [] }
        ensures owed { self.new.owed ≡ self.old.owed }
        ensures stage { self.new.stage ≡ stage_after_finish self.old.stage }
    {
        match self.stage {
            ConversationStage::Last => {
                sockets.finish(conn);
                self.stage = ConversationStage::Ending;
                self.begun = Some(now);
            }
            ConversationStage::Open | ConversationStage::Ending | ConversationStage::Lost => {}
        }
    }

    /// Reads a piece, feeds it, and writes the replies. Pieces that only go on with a request, and with
    /// which no reply comes, are read one after another: a large request has the time that it may take.
    fn take_pieces<S: Store + Drop, L: FailureLog + Drop, W: Sockets>(
        &mut self,
        hub: &mut Hub<S, L>,
        sockets: &mut W,
        conn: u64,
        room: &mut [u8],
        now: u64,
    ) -> Turn
        requires stage { self.old.stage ≢ ConversationStage.Lost }
        requires owed { self.old.owed ≡ [] }
        ensures converses { Converses S.Store conn (record { hub = hub.old; standing = standing_of self.old; log = W.log sockets.old })
            (record { hub = hub.new; standing = standing_of self.new; log = W.log sockets.new }) }
        ensures silent { result ≡ Turn.Silent → IsSilent (record { hub = hub.old; standing = standing_of self.old; log = W.log sockets.old })
            (record { hub = hub.new; standing = standing_of self.new; log = W.log sockets.new }) }
    {
        let turn = self.take_next(hub, sockets, conn, room, now);
        if turn != Turn::Again {
            return turn;
        }
        if !self.is_within_request() {
            return Turn::Again;
        }
        self.take_more(hub, sockets, conn, room, now)
    }

    /// Reads the next pieces of a request, behind one.
    fn take_more<S: Store + Drop, L: FailureLog + Drop, W: Sockets>(
        &mut self,
        hub: &mut Hub<S, L>,
        sockets: &mut W,
        conn: u64,
        room: &mut [u8],
        now: u64,
    ) -> Turn
        requires stage { self.old.stage ≢ ConversationStage.Lost }
        requires owed { self.old.owed ≡ [] }
        ensures converses { Converses S.Store conn (record { hub = hub.old; standing = standing_of self.old; log = W.log sockets.old })
            (record { hub = hub.new; standing = standing_of self.new; log = W.log sockets.new }) }
        ensures bytes { result ≢ Turn.Silent }
    {
        for _number in 1..PIECES {
            let turn = self.take_next(hub, sockets, conn, room, now);
            if turn != Turn::Again {
                return turn.after_bytes();
            }
            if !self.is_within_request() {
                return Turn::Again;
            }
        }
        Turn::Again
    }

    /// Tells whether a request has begun that is not whole, and nothing is owed.
    fn is_within_request(&self) -> bool
        ensures stage { result ≡ true → self.now.stage ≢ ConversationStage.Lost }
        ensures owed { result ≡ true → self.now.owed ≡ [] }
    {
        self.stage == ConversationStage::Open && self.begun.is_some() && self.owed.len() == 0
    }

    /// Reads a piece, feeds it, and writes the replies.
    fn take_next<S: Store + Drop, L: FailureLog + Drop, W: Sockets>(
        &mut self,
        hub: &mut Hub<S, L>,
        sockets: &mut W,
        conn: u64,
        room: &mut [u8],
        now: u64,
    ) -> Turn
        requires stage { self.old.stage ≢ ConversationStage.Lost }
        requires owed { self.old.owed ≡ [] }
        ensures converses { Converses S.Store conn (record { hub = hub.old; standing = standing_of self.old; log = W.log sockets.old })
            (record { hub = hub.new; standing = standing_of self.new; log = W.log sockets.new }) }
        ensures silent { result ≡ Turn.Silent → IsSilent (record { hub = hub.old; standing = standing_of self.old; log = W.log sockets.old })
            (record { hub = hub.new; standing = standing_of self.new; log = W.log sockets.new }) }
    {
        match sockets.read(conn, room) {
            Flow::Bytes(count, more) => {
                self.since = now;
                self.feed_hub(hub, conn, &room[..count], now);
                self.send_replies(sockets, conn, now, more)
            }
            Flow::Later => Turn::Silent,
            Flow::Never => Turn::Over,
        }
    }

    /// Writes the replies to a piece. The answer is `Later` where nothing can go through at once.
    fn send_replies<W: Sockets>(&mut self, sockets: &mut W, conn: u64, now: u64, more: bool) -> Turn
        ensures stage { self.new.stage ≡ self.old.stage }
        ensures lost { self.old.stage ≡ ConversationStage.Lost → W.log sockets.new ≡ W.log sockets.old }
        ensures sent { self.old.stage ≢ ConversationStage.Lost → Sends conn (W.log sockets.old) (W.log sockets.new) self.old.owed self.new.owed }
        ensures bytes { result ≢ Turn.Silent }
    {
        match self.stage {
            ConversationStage::Lost => return Turn::Over,
            ConversationStage::Open | ConversationStage::Last | ConversationStage::Ending => {}
        }
        let sent = self.send(sockets, conn, now).after_bytes();
        if sent == Turn::Again
            && !more
            && self.stage == ConversationStage::Open
            && self.owed.len() == 0
        {
            Turn::Later
        } else {
            sent
        }
    }

    /// Takes a piece: feeds it to the hub and owes the replies, or passes it over.
    fn feed_hub<S: Store + Drop, L: FailureLog + Drop>(
        &mut self,
        hub: &mut Hub<S, L>,
        conn: u64,
        piece: &[u8],
        now: u64,
    )
        requires stage { self.old.stage ≢ ConversationStage.Lost }
        requires owed { self.old.owed ≡ [] }
        ensures { (words : List ℕ) × TakesPiece S.Store (record { hub = hub.old; standing = standing_of self.old })
            (record { conn = conn; bytes = piece.now }) words (record { hub = hub.new; standing = standing_of self.new }) }
    {
        match self.stage {
            ConversationStage::Open => self.feed(hub, conn, piece, now),
            ConversationStage::Last | ConversationStage::Ending | ConversationStage::Lost => {}
        }
    }

    /// Feeds a piece to the hub, and owes the replies.
    fn feed<S: Store + Drop, L: FailureLog + Drop>(
        &mut self,
        hub: &mut Hub<S, L>,
        conn: u64,
        piece: &[u8],
        now: u64,
    )
        requires stage { self.old.stage ≡ ConversationStage.Open }
        requires owed { self.old.owed ≡ [] }
        ensures { (words : List ℕ) × TakesPiece S.Store (record { hub = hub.old; standing = standing_of self.old })
            (record { conn = conn; bytes = piece.now }) words (record { hub = hub.new; standing = standing_of self.new }) }
    {
        match hub.feed(conn, piece) {
            Ok(replies) => {
                self.note_request(replies.list.len() > 0, now);
                self.owe_replies(&replies);
                self.owed_much = self.owed.len() > MUCH;
            }
            Err(_) => {
                hub.close(conn);
                self.owe_farewell();
            }
        }
    }

    /// Notes when a request began that is not whole.
    ///
    /// Where a piece completes a request, what follows in the same piece is not seen: the next request
    /// then counts from the next piece.
    fn note_request(&mut self, whole: bool, now: u64)
        ensures owed { self.new.owed ≡ self.old.owed }
        ensures stage { self.new.stage ≡ self.old.stage }
    {
        if whole {
            self.begun = None;
        } else if self.begun.is_none() {
            self.begun = Some(now);
        }
    }

    /// Owes replies.
    fn owe_replies(&mut self, replies: &Replies)
        requires stage { self.old.stage ≡ ConversationStage.Open }
        requires owed { self.old.owed ≡ [] }
        ensures { Owes (standing_of self.new) replies.now.last (bytes_of replies.now.list.items) }
    {
        if !self.owed.add_all(&replies.list) {
            self.stage = ConversationStage::Lost;
        } else if replies.last {
            self.stage = ConversationStage::Last;
        }
    }

    /// Owes the reply where memory ran out, as the last one.
    fn owe_farewell(&mut self)
        requires owed { self.old.owed ≡ [] }
        ensures { Owes (standing_of self.new) true farewell }
    {
        let farewell = Response::fixed(Fixed::NoRoom { last: true });
        self.stage = if self.owed.add(farewell.bytes()) {
            ConversationStage::Last
        } else {
            ConversationStage::Lost
        };
    }
}
