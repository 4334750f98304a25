//! The connections of a port, which are told when they are ready.

ghost use Rattle.std.specs.Prelude.{length};
ghost use Rattle.engine.specs.Flows.{FlowsAtMost, ReadsPart};

use couch_http::{read_some, write_some};
use engine::{Accepted, Backlog, Flow, Sockets};
use hub::measure_part;
use mio::net::{TcpListener, TcpStream};
use mio::{Events, Interest, Poll, Token};
use std::alloc::Global;
use std::collections::BTreeMap;
use std::io;
use std::io::ErrorKind;
use std::net::{Ipv4Addr, Net, Shutdown, SocketAddr};
use std::time::{Clock, Duration};

/// How many connections one wait reports at most.
const REPORTS: usize = 1_024;

/// The system's error where no process can have a file more.
const ENFILE: i32 = 23;

/// The system's error where this process can have no file more.
const EMFILE: i32 = 24;

/// The system's error where it has no room for a connection.
const ENOBUFS: i32 = 105;

/// A connection. Where its peer has ended, reads go on to the end of what came.
#[derive(Drop)]
struct Socket {
    stream: TcpStream,
    ended: bool,
    /// What was read of it, and is still to be handed over.
    kept: Backlog,
    /// Its stream may give more at once.
    more: bool,
}

impl Socket {
    /// Reads what came, hands its first part over, and keeps the rest.
    fn read_stream(&mut self, room: &mut [u8]) -> Flow
        ensures bound { FlowsAtMost result (length room.new) }
        ensures part { ReadsPart result room.new }
    {
        match read_some(&mut self.stream, room) {
            Ok(0) => Flow::Never,
            Ok(count) => {
                self.more = self.ended || count == room.len();
                let part = measure_part(&room[..count]);
                if self.kept.add(&room[part..count]) {
                    Flow::Bytes(part, self.more || part < count)
                } else {
                    Flow::Never
                }
            }
            Err(error) if error.kind() == ErrorKind::WouldBlock => Flow::Later,
            Err(_) => Flow::Never,
        }
    }

    /// Hands over the next part of what was kept.
    fn take_part(&mut self, room: &mut [u8]) -> Flow
        ensures bound { FlowsAtMost result (length room.new) }
        ensures part { ReadsPart result room.new }
    {
        let bytes = self.kept.bytes();
        let count = bytes.len().min(room.len());
        let part = measure_part(&bytes[..count]);
        room[..part].copy_from_slice(&bytes[..part]);
        self.kept.take(part);
        Flow::Bytes(part, self.more || self.kept.len() > 0)
    }
}

/// A port of 127.0.0.1 and its connections.
pub struct Port<'a, R: Clock> {
    rt: &'a R,
    alloc: Global,
    poll: Poll,
    events: Events<Global>,
    listener: TcpListener,
    ready: Vec<u64>,
    sockets: BTreeMap<u64, Socket>,
    newest: Option<TcpStream>,
}

// Written out, so that callers do not prove again how each part is dropped.
impl<R: Clock> Drop for Port<'_, R> {
    fn drop(self) {
        let Port {
            rt: _,
            alloc: _,
            poll: _,
            events: _,
            listener: _,
            ready: _,
            sockets: _,
            newest: _,
        } = self;
    }
}

impl<'a, R: Clock + Net> Port<'a, R> {
    /// Binds a port of 127.0.0.1, or a free one where the port is 0.
    pub fn open(rt: &'a R, alloc: Global, port: u16) -> io::Result<Port<'a, R>> {
        let poll = Poll::new(rt)?;
        let mut listener = TcpListener::bind(rt, SocketAddr::from((Ipv4Addr::LOCALHOST, port)))?;
        poll.registry()
            .register(&mut listener, Token(0), Interest::READABLE)?;
        Ok(Port {
            rt,
            alloc,
            poll,
            events: Events::with_capacity(alloc, REPORTS)?,
            listener,
            ready: Vec::with_capacity(alloc, REPORTS)?,
            sockets: BTreeMap::new(alloc),
            newest: None,
        })
    }

    /// Returns where it listens.
    pub fn address(&self) -> io::Result<SocketAddr> {
        self.listener.local_addr()
    }
}

/// Tells what came of an accept that failed. Where the system is short of something, others that end make
/// room.
fn accept_fault(error: &io::Error) -> Accepted {
    match error.kind() {
        ErrorKind::WouldBlock | ErrorKind::OutOfMemory => Accepted::Later,
        ErrorKind::ConnectionAborted => Accepted::Reset,
        _ => match error.raw_os_error() {
            Some(ENFILE | EMFILE | ENOBUFS) => Accepted::Later,
            _ => Accepted::Never,
        },
    }
}

impl<R: Clock> Sockets for Port<'_, R> {
    fn wait(&mut self, wait: bool) -> io::Result<u64> {
        let timeout = if wait {
            Duration::from_secs(1)
        } else {
            Duration::from_secs(0)
        };
        // one that was accepted and had no number is let go
        self.newest = None;
        self.ready.clear();
        self.poll.poll(&mut self.events, Some(timeout))?;
        for event in &self.events {
            let conn = event.token().0 as u64;
            if let Some(socket) = self.sockets.get_mut(&conn) {
                socket.ended |= event.is_read_closed();
                // a report comes once, and what it tells of may be read behind what is kept
                socket.more = true;
            }
            self.ready.push(conn)?;
        }
        Ok(self.rt.monotonic()?.as_secs())
    }

    fn ready(&self, at: usize) -> Option<u64> {
        self.ready.get(at).copied()
    }

    fn accept(&mut self) -> Accepted {
        match self.listener.accept() {
            Ok((stream, _peer)) => {
                let _ = stream.set_nodelay(true);
                self.newest = Some(stream);
                Accepted::One
            }
            Err(error) => accept_fault(&error),
        }
    }

    fn name(&mut self, conn: u64) -> bool {
        let Some(mut stream) = self.newest.take() else {
            return false;
        };
        let both = Interest::READABLE | Interest::WRITABLE;
        let token = Token(conn as usize);
        if self
            .poll
            .registry()
            .register(&mut stream, token, both)
            .is_err()
        {
            return false;
        }
        let socket = Socket {
            stream,
            ended: false,
            kept: Backlog::new(self.alloc),
            more: false,
        };
        self.sockets.insert(conn, socket).is_ok()
    }

    fn read(&mut self, conn: u64, room: &mut [u8]) -> Flow {
        let Some(socket) = self.sockets.get_mut(&conn) else {
            return Flow::Never;
        };
        if socket.kept.len() > 0 {
            socket.take_part(room)
        } else {
            socket.read_stream(room)
        }
    }

    fn write(&mut self, conn: u64, bytes: &[u8]) -> Flow {
        let Some(socket) = self.sockets.get_mut(&conn) else {
            return Flow::Never;
        };
        match write_some(&mut socket.stream, bytes) {
            Ok(0) => Flow::Never,
            Ok(count) => Flow::Bytes(count, true),
            Err(error) if error.kind() == ErrorKind::WouldBlock => Flow::Later,
            Err(_) => Flow::Never,
        }
    }

    fn finish(&mut self, conn: u64) {
        if let Some(socket) = self.sockets.get_mut(&conn) {
            let _ = socket.stream.shutdown(Shutdown::Write);
        }
    }

    fn close(&mut self, conn: u64) {
        self.sockets.remove(&conn);
    }
}
