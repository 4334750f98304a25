use crate::answering::answer;
use crate::connections::Connections;
use crate::failure_log::{FailureLog, NoLog};
use crate::fault::HubFault;
use crate::replies::Replies;
use couch_http::{Request, Response};
use node::Node;
use std::alloc::Global;
use std::marker::Model;
use store::Store;

/// A node with its connections, and a log of its replies of 500.
///
/// In clauses it is a `HubState`: the node, what has come of the next request on each connection, and what
/// the log was told.
pub struct Hub<S: Store + Drop, L: FailureLog + Drop> {
    node: Node<S>,
    connections: Connections,
    log: L,
}

// Written out, so that callers do not prove again how each part is dropped.
impl<S: Store + Drop, L: FailureLog + Drop> Drop for Hub<S, L> {
    fn drop(self) {
        let Hub {
            node: _,
            connections: _,
            log: _,
        } = self;
    }
}

impl<S: Store + Drop, L: FailureLog + Drop> Model for Hub<S, L> {
    ghost use Rattle.hub.specs.Feeding.{HubState};
    ghost use Rattle.hub.specs.Codes.{state_code};

    ghost Value = { HubState S };

    ghost coded = { state_code S.code };

    ghost view = { λ h. record { node = h.node; connections = h.connections; failures = L.told h.log } };
}

impl<S: Store + Drop> Hub<S, NoLog> {
    ghost use Rattle.std.specs.Prelude.{◌≡◌, None};
    ghost use Rattle.hub.specs.Connections.{no_connections};

    /// Makes a hub of a node, without connections, and with a log that keeps nothing. Takes no memory.
    pub fn new(alloc: Global, node: Node<S>) -> Hub<S, NoLog>
        ensures node { result.node ≡ node }
        ensures connections { result.connections ≡ no_connections }
    {
        Hub::with_log(alloc, node, NoLog)
    }
}

impl<S: Store + Drop, L: FailureLog + Drop> Hub<S, L> {
    ghost use Rattle.std.specs.Prelude.{◌≡◌, ◌≢◌, ◌^◌, ◌-◌, ◌↔◌, true, false, None, IfOk, IfErr, OnOk, OnErr, IsErrOf};
    ghost use Rattle.couch_http.specs.Message.{message_of};
    ghost use Rattle.store.specs.Calls.{GoesOn};
    ghost use Rattle.node.specs.Causes.{HasCause};
    ghost use Rattle.node.specs.Step.{IsStep};
    ghost use Rattle.hub.specs.Connections.{is_open, next_connection, no_connections, rest_on, was_opened, with_connection, without};
    ghost use Rattle.hub.specs.Failing.{Tells, failure_at};
    ghost use Rattle.hub.specs.Feeding.{IsFed};

    /// Makes a hub of a node, without connections, and with this log. Takes no memory.
    pub fn with_log(alloc: Global, node: Node<S>, log: L) -> Hub<S, L>
        ensures node { result.node ≡ node }
        ensures connections { result.connections ≡ no_connections }
        ensures failures { result.failures ≡ L.told log }
    {
        Hub {
            node,
            connections: Connections::new(alloc),
            log,
        }
    }

    /// Opens a connection, and returns its number. They are numbered from 1.
    ///
    /// `Full` comes once the number 2^64 - 1 is given, `Memory` where a growth was refused.
    pub fn open(&mut self) -> Result<u64, HubFault>
        ensures number { IfOk result (λ conn. conn ≡ next_connection self.old.connections) }
        ensures ok { OnOk result (self.new ≡ record self.old { connections = with_connection self.old.connections }) }

        // Nothing changes at a refusal.
        ensures err { OnErr result (self.new ≡ self.old) }
        ensures full { IsErrOf result HubFault.Full ↔ (self.old.connections.opened ≡ 2 ^ 64 - 1) }
        ensures refused { IfErr result (λ fault. self.old.connections.opened ≢ 2 ^ 64 - 1 → fault ≡ HubFault.Memory) }
    {
        self.connections.open()
    }

    /// Tells whether a connection was opened and has not ended.
    pub fn is_open(&self, conn: u64) -> bool
        ensures { result ≡ is_open self.now.connections conn }
    {
        self.connections.is_open(conn)
    }

    /// Takes a piece of bytes that comes on a connection, and returns the replies to the requests that it
    /// completes.
    ///
    /// `Unknown` comes where the number was never given, `Closed` where the connection has ended, and `Memory`
    /// where a growth was refused; nothing is done then.
    pub fn feed(&mut self, conn: u64, piece: &[u8]) -> Result<Replies, HubFault>
        ensures fed { IfOk result (λ replies. IsFed S.Store self.old conn piece.now replies.list.items replies.last self.new) }
        ensures configuration { self.new.node.configuration ≡ self.old.node.configuration }
        ensures onward { GoesOn S.Store self.old.node.store self.new.node.store }

        // Nothing changes at a refusal.
        ensures err { OnErr result (self.new ≡ self.old) }
        ensures unknown { IsErrOf result HubFault.Unknown ↔ (was_opened self.old.connections conn ≡ false) }
        ensures closed { IsErrOf result HubFault.Closed
            ↔ ((was_opened self.old.connections conn ≡ true) × (rest_on self.old.connections conn ≡ None)) }
        ensures refused { IfErr result (λ fault. fault ≢ HubFault.Full) }
    {
        self.connections
            .feed_and_log(&mut self.node, &mut self.log, conn, piece)
    }

    /// Ends a connection. A number that was never given changes nothing. Takes no memory.
    pub fn close(&mut self, conn: u64)
        ensures { self.new ≡ record self.old { connections = without self.old.connections conn } }
    {
        self.connections.close(conn)
    }

    /// Handles one request that came on no connection, as the node does. The log is told where the reply
    /// is 500.
    pub fn handle(&mut self, request: &Request) -> Response
        ensures step { S.is_honest self.new.node.store → IsStep self.old.node.configuration (S.contents self.old.node.store) (message_of request.now)
            (HasCause S.Store self.old.node.store self.new.node.store) result (S.contents self.new.node.store) }
        ensures configuration { self.new.node.configuration ≡ self.old.node.configuration }
        ensures onward { GoesOn S.Store self.old.node.store self.new.node.store }
        ensures connections { self.new.connections ≡ self.old.connections }
        ensures tells { Tells self.old.failures self.new.failures (failure_at (message_of request.now) result) }
    {
        answer(&mut self.node, &mut self.log, request)
    }
}
