//! Connections as they are served many at once, of which a read or a write fails.

use crate::local_client::{node, store};
use engine::{Backlog, Limits, MemoryClient, MemorySockets};
use hub::Hub;
use std::alloc::Global;
use std::test::Fail;
use store::PlainStore;

/// A write, a read, and a request that is the last one.
const SENT: &[u8] =
    b"PUT /db/a HTTP/1.1\r\nContent-Length: 8\r\n\r\n{\"by\":2}GET /db/a HTTP/1.1\r\n\r\nGET / HTTP/1.1\r\nConnection: close\r\n\r\nGET";

/// The replies to them. The digits are python's hashlib: MD5 of `[false,0,"",{"by":2}]`.
const REPLIES: &[u8] =
    b"HTTP/1.1 201 Created\r\nContent-Type: application/json\r\nContent-Length: 63\r\n\r\n{\"id\":\"a\",\"ok\":true,\
      \"rev\":\"1-2d7a80213a8d8f3c3b9505fc74d6ba3f\"}HTTP/1.1 200 OK\r\nContent-Type: application/json\r\nContent-Length: 62\r\n\r\n\
      {\"_id\":\"a\",\"_rev\":\"1-2d7a80213a8d8f3c3b9505fc74d6ba3f\",\"by\":2}HTTP/1.1 200 OK\r\nContent-Type: application/json\r\n\
      Content-Length: 43\r\nConnection: close\r\n\r\n{\"couchdb\":\"Welcome\",\"version\":\"3-profile\"}";

/// Serves a client of a new hub, of whose reads and writes so many succeed, and returns what it took. No
/// connection is open at the end.
fn serve_one(alloc: Global, calls: u64) -> Result<Vec<u8>, Fail> {
    let mut hub = Hub::new(alloc, node(alloc, store(alloc)?)?);
    let client = MemoryClient {
        sends: Vec::from_slice(alloc, SENT)?,
        read_size: 13,
        write_size: 17,
        calls,
        ends: true,
        taken: Vec::new(alloc),
        finished: false,
        conn: None,
    };
    let mut clients = Vec::new(alloc);
    clients.push(client)?;
    let limits = Limits {
        at_once: 2,
        idle: 60,
        request: 30,
        conns: 1,
    };
    let mut sockets = MemorySockets::new(alloc, clients);
    sockets.serve(&mut hub, &limits)?;
    let client = sockets.clients().first().ok_or("no client")?;
    if hub.is_open(1) || client.conn.is_some() {
        return Err(Fail::from("a connection is open"));
    }
    Ok(Vec::from_slice(alloc, &client.taken)?)
}

/// Whichever read or write fails, what was taken begins the replies.
#[test]
fn replies_are_cut_where_a_read_or_a_write_fails(rt: HostRuntime) -> Result<(), Fail> {
    let mut length = 0;
    for calls in 0..1_000 {
        let taken = serve_one(rt.alloc(), calls)?;
        assert!(rt; REPLIES.starts_with(&taken), "after {calls} calls");
        assert!(rt; taken.len() >= length, "after {calls} calls");
        length = taken.len();
        if length == REPLIES.len() {
            return Ok(());
        }
    }
    Err(Fail::from("the replies were never whole"))
}

/// A backlog takes 64 MiB, and not a byte more until all of them were taken away.
#[test]
fn a_backlog_has_a_bound(rt: HostRuntime) -> Result<(), Fail> {
    let piece = vec![in rt.alloc(); 7; 1_048_576]?;
    let mut backlog = Backlog::new(rt.alloc());
    for _number in 0..64 {
        assert!(rt; backlog.add(&piece));
    }
    assert!(rt; !backlog.add(&[7]));
    let count = backlog.len();
    assert_eq!(rt; count, 67_108_864);
    backlog.take(count);
    assert!(rt; backlog.add(&piece));
    Ok(())
}
