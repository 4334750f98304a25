//! Connections in memory, which try what a server of many does.

ghost use Rattle.std.specs.Prelude.{◌≡◌, [], ◌∷◌, ◌++◌, Some, true, false, length};
ghost use Rattle.engine.specs.Flows.{FlowsAtMost};
ghost use Rattle.engine.specs.Memory.{act_of, acts_of, PassesInOrder};

use crate::backlog::Backlog;
use crate::fault::EngineFault;
use crate::flow::{Accepted, Flow};
use crate::limits::Limits;
use crate::log_entry::LogEntry;
use crate::memory_client::MemoryClient;
use crate::serving::serve_all;
use crate::sockets::Sockets;
use http_server::Log;
use hub::{FailureLog, Hub};
use std::alloc::Global;
use std::io;
use store::Store;

/// Connections of clients in memory. Its log is known.
///
/// Clients are accepted in their order. Each wait reports all of them, and takes a second where it may.
pub struct MemorySockets {
    alloc: Global,
    clients: Vec<MemoryClient>,
    accepted: usize,
    second: u64,
    // for clauses alone, since a close has to be logged where memory has run out
    entries: Log<LogEntry, Backlog>,
}

// Written out, so that callers do not prove again how each part is dropped.
impl Drop for MemorySockets {
    fn drop(self) {
        let MemorySockets {
            alloc: _,
            clients: _,
            accepted: _,
            second: _,
            entries: _,
        } = self;
    }
}

impl MemorySockets {
    /// Makes connections of these clients, of which none is accepted yet.
    pub fn new(alloc: Global, clients: Vec<MemoryClient>) -> MemorySockets
        ensures entries { result.entries.items ≡ [] }
    {
        MemorySockets {
            alloc,
            clients,
            accepted: 0,
            second: 0,
            entries: Log::new(),
        }
    }

    /// Serves the clients, as `serve_all` does.
    pub fn serve<S: Store + Drop, L: FailureLog + Drop>(
        &mut self,
        hub: &mut Hub<S, L>,
        limits: &Limits,
    ) -> Result<(), EngineFault>
        ensures { PassesInOrder S.Store hub.old (acts_of self.old.entries.items) hub.new (acts_of self.new.entries.items) }
    {
        serve_all(self.alloc, hub, self, limits)
    }

    /// Returns the clients.
    pub fn clients(&self) -> &[MemoryClient] {
        &self.clients
    }
}

/// Returns the client that has this number.
fn client_at(clients: &mut [MemoryClient], conn: u64) -> Option<&mut MemoryClient> {
    let place = clients.iter().position(|client| client.conn == Some(conn))?;
    clients.get_mut(place)
}

/// Logs an entry without bytes.
fn note(alloc: Global, entries: &mut Log<LogEntry, Backlog>, entry: LogEntry)
    ensures { acts_of entries.new.items ≡ acts_of entries.old.items ++ act_of (entry, []) ∷ [] }
{
    *entries = entries.and(&entry, &Backlog::new(alloc));
}

/// Logs an entry of bytes. Where memory runs out nothing is logged, and the answer is false.
fn note_bytes(
    alloc: Global,
    entries: &mut Log<LogEntry, Backlog>,
    entry: LogEntry,
    bytes: &[u8],
) -> bool
    ensures logged { result ≡ true → acts_of entries.new.items ≡ acts_of entries.old.items ++ act_of (entry, bytes.now) ∷ [] }
    ensures refused { result ≡ false → entries.new ≡ entries.old }
{
    let mut copy = Backlog::new(alloc);
    if !copy.add(bytes) {
        return false;
    }
    *entries = entries.and(&entry, &copy);
    true
}

impl Sockets for MemorySockets {
    ghost log = { λ s. Some (acts_of s.entries.items) };

    fn wait(&mut self, wait: bool) -> io::Result<u64> {
        if wait {
            self.second = self.second.saturating_add(1);
        }
        Ok(self.second)
    }

    fn ready(&self, at: usize) -> Option<u64> {
        if at == 0 {
            Some(0)
        } else {
            self.clients.get(at - 1)?.conn
        }
    }

    fn accept(&mut self) -> Accepted {
        if self.accepted < self.clients.len() {
            self.accepted += 1;
            note(self.alloc, &mut self.entries, LogEntry::Accepted);
            Accepted::One
        } else {
            Accepted::Later
        }
    }

    fn name(&mut self, conn: u64) -> bool {
        note(self.alloc, &mut self.entries, LogEntry::Opened(conn));
        if self.accepted == 0 {
            return false;
        }
        let Some(client) = self.clients.get_mut(self.accepted - 1) else {
            return false;
        };
        client.conn = Some(conn);
        true
    }

    fn read(&mut self, conn: u64, room: &mut [u8]) -> Flow {
        let Some(client) = client_at(&mut self.clients, conn) else {
            return Flow::Never;
        };
        match client.send(room) {
            Flow::Bytes(count, more) => {
                if note_bytes(
                    self.alloc,
                    &mut self.entries,
                    LogEntry::Brought(conn),
                    &room[..count],
                ) {
                    Flow::Bytes(count, more)
                } else {
                    Flow::Never
                }
            }
            Flow::Later => Flow::Later,
            Flow::Never => Flow::Never,
        }
    }

    fn write(&mut self, conn: u64, bytes: &[u8]) -> Flow {
        let Some(client) = client_at(&mut self.clients, conn) else {
            return Flow::Never;
        };
        match client.take(bytes) {
            Flow::Bytes(count, more) => {
                if note_bytes(
                    self.alloc,
                    &mut self.entries,
                    LogEntry::Took(conn),
                    &bytes[..count],
                ) {
                    Flow::Bytes(count, more)
                } else {
                    Flow::Never
                }
            }
            Flow::Later => Flow::Later,
            Flow::Never => Flow::Never,
        }
    }

    fn finish(&mut self, conn: u64) {
        if let Some(client) = client_at(&mut self.clients, conn) {
            client.finished = true;
        }
    }

    fn close(&mut self, conn: u64) {
        note(self.alloc, &mut self.entries, LogEntry::Closed(conn));
        if let Some(client) = client_at(&mut self.clients, conn) {
            client.conn = None;
        }
    }
}
