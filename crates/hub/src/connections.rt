use crate::answering::{add_refusal, answer_all};
use crate::cutters::{Cutters, add_cutter, cut_piece, remove_cutter};
use crate::failure_log::{FailureLog, NoLog};
use crate::fault::HubFault;
use crate::replies::Replies;
use couch_http::{Cut, Cutter, Ending, Response};
use node::Node;
use std::alloc::Global;
use std::collections::BTreeMap;
use std::marker::Model;
use store::Store;

/// The connections of a node: a cutter for each that has not ended.
///
/// In clauses it is a `ConnectionTable`: what has come of the next request on each open connection,
/// and how many were opened. They are numbered from 1.
pub struct Connections {
    alloc: Global,
    cutters: Cutters,
    opened: u64,
}

// Written out, so that callers do not prove again how each part is dropped.
impl Drop for Connections {
    fn drop(self) {
        let Connections {
            alloc: _,
            cutters: _,
            opened: _,
        } = self;
    }
}

impl Model for Connections {
    ghost use Rattle.hub.specs.Connections.{ConnectionTable, table_code};

    ghost Value = { ConnectionTable };

    ghost coded = { table_code };

    ghost use Rattle.hub.specs.Cutters.{AreOpen, rests_of};

    ghost view = { λ c. record { rests = rests_of c.cutters.entries; opened = c.opened } };

    ghost invariant = { λ c. AreOpen c.cutters.entries };
}

impl Connections {
    ghost use Rattle.std.specs.Prelude.{◌≡◌, ◌≢◌, ◌^◌, ◌-◌, ◌+◌, ◌≤◌, ◌↔◌, true, false, None, length, vec_capacity, vec_len, IfOk, IfErr, OnErr, IsErrOf};
    ghost use Rattle.couch_http.specs.Cutting.{HasStreamFault};
    ghost use Rattle.hub.specs.Connections.{is_open, next_connection, no_connections, rest_on, was_opened, with_connection, without};
    ghost use Rattle.store.specs.Calls.{GoesOn};
    ghost use Rattle.hub.specs.Cutters.{IsCut};
    ghost use Rattle.hub.specs.Feeding.{IsFed};

    /// Makes a table without connections. Takes no memory.
    pub fn new(alloc: Global) -> Connections
        ensures { result ≡ no_connections }
    {
        Connections {
            alloc,
            cutters: BTreeMap::new(alloc),
            opened: 0,
        }
    }

    /// Opens a connection, and returns its number.
    ///
    /// `Full` comes once the number 2^64 - 1 is given, `Memory` where a growth was refused.
    pub fn open(&mut self) -> Result<u64, HubFault>
        ensures number { IfOk result (λ conn. conn ≡ next_connection self.old) }
        ensures ok { IfOk result (λ conn. self.new ≡ with_connection self.old) }

        // Nothing changes at a refusal.
        ensures err { OnErr result (self.new ≡ self.old) }
        ensures full { IsErrOf result HubFault.Full ↔ (self.old.opened ≡ 2 ^ 64 - 1) }
        ensures refused { IfErr result (λ fault. self.old.opened ≢ 2 ^ 64 - 1 → fault ≡ HubFault.Memory) }
    {
        let Some(conn) = self.opened.checked_add(1) else {
            return Err(HubFault::Full);
        };
        add_cutter(&mut self.cutters, conn, Cutter::new(self.alloc))?;
        self.opened = conn;
        Ok(conn)
    }

    /// Tells whether a connection was opened and has not ended.
    pub fn is_open(&self, conn: u64) -> bool
        ensures { result ≡ is_open self.now conn }
    {
        self.was_opened(conn) && self.cutters.contains_key(&conn)
    }

    /// Ends a connection. A number that was never given changes nothing. Takes no memory.
    pub fn close(&mut self, conn: u64)
        ensures { self.new ≡ without self.old conn }
    {
        if self.was_opened(conn) {
            remove_cutter(&mut self.cutters, conn);
        }
    }

    /// Takes a piece of bytes that comes on a connection to this node, and returns the replies to the
    /// requests that it completes.
    ///
    /// `Unknown` comes where the number was never given, `Closed` where the connection has ended, and
    /// `Memory` where a growth was refused; nothing is done then.
    pub fn feed<S: Store + Drop>(
        &mut self,
        node: &mut Node<S>,
        conn: u64,
        piece: &[u8],
    ) -> Result<Replies, HubFault>
        ensures fed { IfOk result (λ replies. IsFed S.Store (record { node = node.old; connections = self.old; failures = None }) conn piece.now
            replies.list.items replies.last (record { node = node.new; connections = self.new; failures = None })) }
        ensures configuration { node.new.configuration ≡ node.old.configuration }
        ensures onward { GoesOn S.Store node.old.store node.new.store }

        // Nothing changes at a refusal.
        ensures err { OnErr result ((self.new ≡ self.old) × (node.new ≡ node.old)) }
        ensures unknown { IsErrOf result HubFault.Unknown ↔ (was_opened self.old conn ≡ false) }
        ensures closed { IsErrOf result HubFault.Closed ↔ ((was_opened self.old conn ≡ true) × (rest_on self.old conn ≡ None)) }
        ensures refused { IfErr result (λ fault. fault ≢ HubFault.Full) }
    {
        self.feed_and_log(node, &mut NoLog, conn, piece)
    }

    /// Takes a piece as `feed` does, and tells the log of each request whose reply is 500.
    pub fn feed_and_log<S: Store + Drop, L: FailureLog>(
        &mut self,
        node: &mut Node<S>,
        log: &mut L,
        conn: u64,
        piece: &[u8],
    ) -> Result<Replies, HubFault>
        ensures fed { IfOk result (λ replies. IsFed S.Store (record { node = node.old; connections = self.old; failures = L.told log.old }) conn piece.now
            replies.list.items replies.last (record { node = node.new; connections = self.new; failures = L.told log.new })) }
        ensures configuration { node.new.configuration ≡ node.old.configuration }
        ensures onward { GoesOn S.Store node.old.store node.new.store }

        // Nothing changes at a refusal.
        ensures err { OnErr result ((self.new ≡ self.old) × (node.new ≡ node.old) × (L.told log.new ≡ L.told log.old)) }
        ensures unknown { IsErrOf result HubFault.Unknown ↔ (was_opened self.old conn ≡ false) }
        ensures closed { IsErrOf result HubFault.Closed ↔ ((was_opened self.old conn ≡ true) × (rest_on self.old conn ≡ None)) }
        ensures refused { IfErr result (λ fault. fault ≢ HubFault.Full) }
    {
        let mut list = Vec::new(self.alloc);
        let cut = self.cut(conn, piece, &mut list)?;
        answer_all(node, log, &cut.requests, &mut list);
        add_refusal(cut.ending, &mut list);
        let last = cut.ending != Ending::Open;
        Ok(Replies { list, last })
    }

    /// Cuts a piece that comes on a connection, and makes room in `room` for a reply to each of its
    /// requests and one more.
    ///
    /// `Unknown` comes where the number was never given, `Closed` where the connection has ended, and
    /// `Memory` where a growth was refused.
    fn cut(&mut self, conn: u64, piece: &[u8], room: &mut Vec<Response>) -> Result<Cut, HubFault>
        ensures cut { IfOk result (λ cut. IsCut self.old conn piece.now cut self.new) }
        ensures fault { IfOk result (λ cut. HasStreamFault cut.ending) }

        // Nothing changes at a refusal.
        ensures err { OnErr result (self.new ≡ self.old) }
        ensures unknown { IsErrOf result HubFault.Unknown ↔ (was_opened self.old conn ≡ false) }
        ensures closed { IsErrOf result HubFault.Closed ↔ ((was_opened self.old conn ≡ true) × (rest_on self.old conn ≡ None)) }
        ensures refused { IfErr result (λ fault. fault ≢ HubFault.Full) }

        // What the room holds stays.
        ensures items { room.new.items ≡ room.old.items }
        ensures room { IfOk result (λ cut. vec_len room.new + length cut.requests.items + 1 ≤ vec_capacity room.new) }
    {
        if !self.was_opened(conn) {
            return Err(HubFault::Unknown);
        }
        cut_piece(&mut self.cutters, conn, piece, room)
    }

    /// Tells whether a connection was ever given this number.
    pub fn was_opened(&self, conn: u64) -> bool
        ensures { result ≡ was_opened self.now conn }
    {
        conn >= 1 && conn <= self.opened
    }
}
