//! The rounds of a server of many connections.

ghost use Rattle.std.specs.Prelude.{◌≡◌, ◌≤◌, ◌<◌, ◌+◌, ◌-◌, ◌^◌, ℕ, [], ◌∷◌, length, true, false, OnOk};
ghost use Rattle.store.specs.Calls.{GoesOn};
ghost use Rattle.engine.specs.Counts.{ServesWithin};
ghost use Rattle.engine.specs.Desks.{ServesAll};
ghost use Rattle.hub.specs.Service.{hub_without};
ghost use Rattle.engine.specs.Acts.{Logs, closed, opened};
ghost use Rattle.engine.specs.Conversing.{GoesOnWithin};
ghost use Rattle.engine.specs.Standing.{serving};
ghost use Rattle.engine.specs.inner.Rounds.{standings_of, state_of, with_unopened};
ghost use Rattle.std.specs.FinMap.{insert, remove};

use crate::conversation::{Conversation, Turn};
use crate::fault::EngineFault;
use crate::flow::Accepted;
use crate::limits::Limits;
use crate::queues::{Place, Queues};
use crate::sockets::Sockets;
use hub::{FailureLog, Hub};
use std::alloc::Global;
use std::collections::BTreeMap;
use store::Store;

/// How many bytes a piece has at most.
const PIECE: usize = 8_192;

/// How many connections one wait reports at most.
const REPORTS: usize = 1_024;

/// The connections of a server.
#[derive(Drop)]
struct Conversations {
    alloc: Global,
    conversations: BTreeMap<u64, Conversation>,
    queues: Queues,
    // more connections may wait to be accepted
    waiting: bool,
    accepted: u64,
    // what the last wait told
    second: u64,
    // the seconds that count: a round is one at most, so that nobody is charged for a stall
    now: u64,
}

/// Serves many connections of a hub at once, until as many were accepted as the limits say and none is open
/// any more. One that was reset before it was accepted counts.
///
/// Each whole request is handled one after the other, in the order in which their last bytes come. A
/// connection is read only where nothing is owed to it. It is closed where it is silent for too long,
/// or a request of it is not whole for too long, once it has a turn by which nothing goes through.
/// Where memory runs out, its connection has the fixed reply with status 503, and ends; the others go
/// on.
///
/// `Socket`: nothing can be waited for, or a connection not be accepted. `Waits`: it waited 2^64 - 1
/// times.
pub fn serve_all<S: Store + Drop, L: FailureLog + Drop, W: Sockets>(
    alloc: Global,
    hub: &mut Hub<S, L>,
    sockets: &mut W,
    limits: &Limits,
) -> Result<(), EngineFault>
    // All that was done is told by the acts that were logged.
    ensures served { ServesAll S.Store (record { hub = hub.old; log = W.log sockets.old }) (record { hub = hub.new; log = W.log sockets.new }) }
    ensures within { ServesWithin S.Store limits.now result (record { hub = hub.old; log = W.log sockets.old })
        (record { hub = hub.new; log = W.log sockets.new }) }
    ensures configuration { hub.new.node.configuration ≡ hub.old.node.configuration }
    ensures onward { GoesOn S.Store hub.old.node.store hub.new.node.store }
{
    let mut conversations = Conversations::new(alloc);
    conversations.take_rounds(hub, sockets, limits)
}

impl Conversations {
    /// Makes a server without connections.
    fn new(alloc: Global) -> Conversations
        ensures none { result.conversations.entries ≡ [] }
        ensures accepted { result.accepted ≡ 0 }
    {
        Conversations {
            alloc,
            conversations: BTreeMap::new(alloc),
            queues: Queues::new(alloc),
            waiting: true,
            accepted: 0,
            second: 0,
            now: 0,
        }
    }

    /// Goes round until as many connections were served as the limits say.
    fn take_rounds<S: Store + Drop, L: FailureLog + Drop, W: Sockets>(
        &mut self,
        hub: &mut Hub<S, L>,
        sockets: &mut W,
        limits: &Limits,
    ) -> Result<(), EngineFault>
        requires accepted { self.old.accepted ≤ limits.now.conns }
        ensures goes_on { GoesOnWithin S.Store limits.now.at_once
            (state_of hub.old self.old.conversations.entries self.old.accepted (W.log sockets.old))
            (state_of hub.new self.new.conversations.entries self.new.accepted (W.log sockets.new)) }
        ensures accepted { self.new.accepted ≤ limits.now.conns }
        ensures ends { OnOk result ((self.new.accepted ≡ limits.now.conns) × (self.new.conversations.entries ≡ [])) }
    {
        let mut room = [0; PIECE];
        for _number in 0..u64::MAX {
            if self.accepted >= limits.conns && self.conversations.is_empty() {
                return Ok(());
            }
            self.take_round(hub, sockets, &mut room, limits)?;
        }
        Err(EngineFault::Waits)
    }

    /// Waits once, accepts what waits, and gives each connection that may be ready a turn.
    ///
    /// Of those to which much became owed by their last piece only the first one has a turn, behind the
    /// others.
    fn take_round<S: Store + Drop, L: FailureLog + Drop, W: Sockets>(
        &mut self,
        hub: &mut Hub<S, L>,
        sockets: &mut W,
        room: &mut [u8],
        limits: &Limits,
    ) -> Result<(), EngineFault>
        requires accepted { self.old.accepted ≤ limits.now.conns }
        ensures goes_on { GoesOnWithin S.Store limits.now.at_once
            (state_of hub.old self.old.conversations.entries self.old.accepted (W.log sockets.old))
            (state_of hub.new self.new.conversations.entries self.new.accepted (W.log sockets.new)) }
        ensures accepted { self.new.accepted ≤ limits.now.conns }
    {
        let wait = self.queues.is_empty() && !self.can_accept(limits);
        let Ok(second) = sockets.wait(wait) else {
            return Err(EngineFault::Socket);
        };
        self.note_second(second, limits);
        self.note_ready(sockets);
        self.accept_all(hub, sockets, limits)?;
        self.take_turns(hub, sockets, room, limits);
        self.take_behind(hub, sockets, room, limits);
        Ok(())
    }

    /// Notes the second that it is. Where it is another one, each connection that is late has a turn,
    /// behind which it may be closed.
    fn note_second(&mut self, second: u64, limits: &Limits)
        ensures alike { standings_of self.new.conversations.entries ≡ standings_of self.old.conversations.entries }
        ensures accepted { self.new.accepted ≡ self.old.accepted }
    {
        if second == self.second {
            return;
        }
        self.second = second;
        self.now = self.now.saturating_add(1);
        // one that could not be accepted is tried again each second
        self.waiting = true;
        let late = self.late(limits);
        for conn in &late {
            self.note(*conn, Place::Ready);
        }
    }

    /// Tells whether one more connection may be accepted, and one may wait.
    fn can_accept(&self, limits: &Limits) -> bool
        ensures accepted { result ≡ true → self.entry.now.accepted < limits.now.conns }
        ensures room { result ≡ true → length self.entry.now.conversations.entries < limits.now.at_once }
    {
        self.waiting && self.accepted < limits.conns && self.conversations.len() < limits.at_once
    }

    /// Notes what the last wait reported.
    fn note_ready<W: Sockets>(&mut self, sockets: &W)
        ensures alike { standings_of self.new.conversations.entries ≡ standings_of self.old.conversations.entries }
        ensures accepted { self.new.accepted ≡ self.old.accepted }
    {
        for at in 0..REPORTS {
            match sockets.ready(at) {
                None => return,
                Some(0) => self.waiting = true,
                Some(conn) => self.note(conn, Place::Ready),
            }
        }
    }

    /// Gives a connection a turn to come, if it has none yet.
    fn note(&mut self, conn: u64, place: Place)
        ensures alike { standings_of self.new.conversations.entries ≡ standings_of self.old.conversations.entries }
        ensures accepted { self.new.accepted ≡ self.old.accepted }
    {
        let Some(conversation) = self.conversations.get_mut(&conn) else {
            return;
        };
        conversation.join(&mut self.queues, conn, place);
    }

    /// Accepts connections that wait, as many as may be.
    fn accept_all<S: Store + Drop, L: FailureLog + Drop, W: Sockets>(
        &mut self,
        hub: &mut Hub<S, L>,
        sockets: &mut W,
        limits: &Limits,
    ) -> Result<(), EngineFault>
        requires accepted { self.old.accepted ≤ limits.now.conns }
        ensures goes_on { GoesOnWithin S.Store limits.now.at_once
            (state_of hub.old self.old.conversations.entries self.old.accepted (W.log sockets.old))
            (state_of hub.new self.new.conversations.entries self.new.accepted (W.log sockets.new)) }
        ensures accepted { self.new.accepted ≤ limits.now.conns }
    {
        for _number in 0..REPORTS {
            if !self.can_accept(limits) {
                return Ok(());
            }
            self.accept_next(hub, sockets)?;
        }
        Ok(())
    }

    /// Accepts a connection, if one waits.
    fn accept_next<S: Store + Drop, L: FailureLog + Drop, W: Sockets>(
        &mut self,
        hub: &mut Hub<S, L>,
        sockets: &mut W,
    ) -> Result<(), EngineFault>
        requires { self.old.accepted < 2 ^ 64 - 1 }
        ensures goes_on { (most : ℕ) → length self.old.conversations.entries < most → GoesOnWithin S.Store most
            (state_of hub.old self.old.conversations.entries self.old.accepted (W.log sockets.old))
            (state_of hub.new self.new.conversations.entries self.new.accepted (W.log sockets.new)) }
        ensures accepted { self.new.accepted ≤ self.old.accepted + 1 }
    {
        match sockets.accept() {
            Accepted::One => {
                self.accepted += 1;
                self.add(hub, sockets);
            }
            Accepted::Reset => self.accepted += 1,
            Accepted::Later => self.waiting = false,
            Accepted::Never => return Err(EngineFault::Socket),
        }
        Ok(())
    }

    /// Adds the connection that was accepted.
    fn add<S: Store + Drop, L: FailureLog + Drop, W: Sockets>(
        &mut self,
        hub: &mut Hub<S, L>,
        sockets: &mut W,
    )
        ensures goes_on { (most : ℕ) → GoesOnWithin S.Store most
            (with_unopened (state_of hub.old self.old.conversations.entries self.old.accepted (W.log sockets.old)))
            (state_of hub.new self.new.conversations.entries self.new.accepted (W.log sockets.new)) }
        ensures accepted { self.new.accepted ≡ self.old.accepted }
    {
        let Ok(conn) = hub.open() else {
            return;
        };
        if self.begin(sockets, conn) {
            self.note(conn, Place::Ready);
        } else {
            self.end(hub, sockets, conn);
        }
    }

    /// Gives a number to the connection that was accepted, and begins its conversation. The answer is
    /// false where it can't be served, or memory ran out.
    fn begin<W: Sockets>(&mut self, sockets: &mut W, conn: u64) -> bool
        ensures log { Logs (W.log sockets.old) (W.log sockets.new) (opened conn ∷ []) }
        ensures begins { result ≡ true
            → standings_of self.new.conversations.entries ≡ insert (standings_of self.old.conversations.entries) conn (serving []) }
        ensures refused { result ≡ false → standings_of self.new.conversations.entries ≡ standings_of self.old.conversations.entries }
        ensures accepted { self.new.accepted ≡ self.old.accepted }
    {
        if !sockets.name(conn) {
            return false;
        }
        let conversation = Conversation::new(self.alloc, self.now);
        self.conversations.insert(conn, conversation).is_ok()
    }

    /// Gives each connection a turn that has one in this round, those that are newly ready first.
    fn take_turns<S: Store + Drop, L: FailureLog + Drop, W: Sockets>(
        &mut self,
        hub: &mut Hub<S, L>,
        sockets: &mut W,
        room: &mut [u8],
        limits: &Limits,
    )
        ensures goes_on { (most : ℕ) → GoesOnWithin S.Store most
            (state_of hub.old self.old.conversations.entries self.old.accepted (W.log sockets.old))
            (state_of hub.new self.new.conversations.entries self.new.accepted (W.log sockets.new)) }
        ensures accepted { self.new.accepted ≡ self.old.accepted }
    {
        for _number in 0..self.queues.count() {
            let Some(conn) = self.queues.take_next() else {
                return;
            };
            self.take_turn(hub, sockets, conn, room, limits);
        }
    }

    /// Gives the first of those a turn that wait until each other one had one.
    fn take_behind<S: Store + Drop, L: FailureLog + Drop, W: Sockets>(
        &mut self,
        hub: &mut Hub<S, L>,
        sockets: &mut W,
        room: &mut [u8],
        limits: &Limits,
    )
        ensures goes_on { (most : ℕ) → GoesOnWithin S.Store most
            (state_of hub.old self.old.conversations.entries self.old.accepted (W.log sockets.old))
            (state_of hub.new self.new.conversations.entries self.new.accepted (W.log sockets.new)) }
        ensures accepted { self.new.accepted ≡ self.old.accepted }
    {
        let Some(conn) = self.queues.take_behind() else {
            return;
        };
        self.take_turn(hub, sockets, conn, room, limits);
    }

    /// Gives a connection a turn.
    fn take_turn<S: Store + Drop, L: FailureLog + Drop, W: Sockets>(
        &mut self,
        hub: &mut Hub<S, L>,
        sockets: &mut W,
        conn: u64,
        room: &mut [u8],
        limits: &Limits,
    )
        ensures goes_on { (most : ℕ) → GoesOnWithin S.Store most
            (state_of hub.old self.old.conversations.entries self.old.accepted (W.log sockets.old))
            (state_of hub.new self.new.conversations.entries self.new.accepted (W.log sockets.new)) }
        ensures accepted { self.new.accepted ≡ self.old.accepted }
    {
        let turn = self.turn_of(hub, sockets, conn, room, limits);
        self.follow(hub, sockets, conn, turn, limits);
    }

    /// Gives a connection a turn, if it is still there.
    fn turn_of<S: Store + Drop, L: FailureLog + Drop, W: Sockets>(
        &mut self,
        hub: &mut Hub<S, L>,
        sockets: &mut W,
        conn: u64,
        room: &mut [u8],
        limits: &Limits,
    ) -> Turn
        ensures goes_on { (most : ℕ) → GoesOnWithin S.Store most
            (state_of hub.old self.old.conversations.entries self.old.accepted (W.log sockets.old))
            (state_of hub.new self.new.conversations.entries self.new.accepted (W.log sockets.new)) }
        ensures accepted { self.new.accepted ≡ self.old.accepted }
    {
        let Some(conversation) = self.conversations.get_mut(&conn) else {
            return Turn::Later;
        };
        conversation.queued = false;
        if conversation.is_drained(self.now, limits) {
            return Turn::Over;
        }
        conversation.take_turn(hub, sockets, conn, room, self.now)
    }

    /// Does what follows a turn: ends the connection, or gives it another one where it is to have it.
    fn follow<S: Store + Drop, L: FailureLog + Drop, W: Sockets>(
        &mut self,
        hub: &mut Hub<S, L>,
        sockets: &mut W,
        conn: u64,
        turn: Turn,
        limits: &Limits,
    )
        ensures goes_on { (most : ℕ) → GoesOnWithin S.Store most
            (state_of hub.old self.old.conversations.entries self.old.accepted (W.log sockets.old))
            (state_of hub.new self.new.conversations.entries self.new.accepted (W.log sockets.new)) }
        ensures accepted { self.new.accepted ≡ self.old.accepted }
        // Nobody is closed behind a turn by which bytes went through.
        ensures again { turn ≡ Turn.Again → standings_of self.new.conversations.entries ≡ standings_of self.old.conversations.entries }
        ensures later { turn ≡ Turn.Later → standings_of self.new.conversations.entries ≡ standings_of self.old.conversations.entries }
    {
        if self.is_ended(conn, turn, limits) {
            self.end(hub, sockets, conn);
        } else {
            self.note_next(conn, turn, limits);
        }
    }

    /// Tells whether a connection ends behind a turn: where it is over, or where it is late and nothing
    /// went through.
    fn is_ended(&self, conn: u64, turn: Turn, limits: &Limits) -> bool
        ensures again { turn ≡ Turn.Again → result ≡ false }
        ensures later { turn ≡ Turn.Later → result ≡ false }
    {
        match turn {
            Turn::Over => true,
            Turn::Silent => self.is_late(conn, limits),
            Turn::Again => false,
            Turn::Later => false,
        }
    }

    /// Gives a connection another turn where its last one may go on, or where bytes went through and it
    /// is late.
    fn note_next(&mut self, conn: u64, turn: Turn, limits: &Limits)
        ensures alike { standings_of self.new.conversations.entries ≡ standings_of self.old.conversations.entries }
        ensures accepted { self.new.accepted ≡ self.old.accepted }
    {
        if turn == Turn::Again || self.is_late(conn, limits) {
            self.note(conn, Place::Again);
        }
    }

    /// Tells whether a connection is silent, or slow, for too long.
    fn is_late(&self, conn: u64, limits: &Limits) -> bool {
        match self.conversations.get(&conn) {
            Some(conversation) => conversation.is_late(self.now, limits),
            None => false,
        }
    }

    /// Ends a connection.
    fn end<S: Store + Drop, L: FailureLog + Drop, W: Sockets>(
        &mut self,
        hub: &mut Hub<S, L>,
        sockets: &mut W,
        conn: u64,
    )
        ensures ends { standings_of self.new.conversations.entries ≡ remove (standings_of self.old.conversations.entries) conn }
        ensures accepted { self.new.accepted ≡ self.old.accepted }
        ensures hub { hub.new ≡ hub_without conn hub.old }
        ensures log { Logs (W.log sockets.old) (W.log sockets.new) (closed conn ∷ []) }
    {
        self.conversations.remove(&conn);
        hub.close(conn);
        sockets.close(conn);
    }

    /// Returns the connections that are silent, or slow, for too long.
    fn late(&self, limits: &Limits) -> Vec<u64> {
        let mut late = Vec::new(self.alloc);
        for (conn, conversation) in &self.conversations {
            if conversation.is_late(self.now, limits) && late.push(*conn).is_err() {
                break;
            }
        }
        late
    }
}
