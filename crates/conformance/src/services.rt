//! Connections that are served from readers and to writers that fail, or are interrupted.

use crate::broken_streams::{Breaking, Broken, Halting, Slow, SlowHalting, Stopped};
use crate::local_client::{node, request, store};
use hub::{Hub, ServiceEnd, serve_connection};
use std::alloc::Global;
use std::test::Fail;

/// What a client sends.
const SENT: &str = "PUT /db/a HTTP/1.1\r\nContent-Length: 8\r\n\r\n{\"by\":2}";

/// The reply to it. The digits are python's hashlib: MD5 of `[false,0,"",{"by":2}]`.
const REPLY: &str =
    "HTTP/1.1 201 Created\r\nContent-Type: application/json\r\nContent-Length: 63\r\n\r\n{\"id\":\"a\",\"ok\":true,\
     \"rev\":\"1-2d7a80213a8d8f3c3b9505fc74d6ba3f\"}";

/// Where the first read fails, nothing goes out.
#[test]
fn a_read_that_fails_ends_a_connection(rt: HostRuntime) -> Result<(), Fail> {
    let alloc = rt.alloc();
    let mut hub = Hub::new(alloc, node(alloc, store(alloc)?)?);
    let mut written = Vec::new(alloc);
    let end = serve_connection(&mut hub, &mut Broken, &mut written);
    assert_eq!(rt; end, ServiceEnd::ReadFailed);
    assert!(rt; written.is_empty());
    assert!(rt; !hub.is_open(1));
    Ok(())
}

/// Whichever read fails, a request that came whole is answered, and of another nothing is done.
#[test]
fn each_read_that_fails_ends_a_connection(rt: HostRuntime) -> Result<(), Fail> {
    let alloc = rt.alloc();
    for length in 0..=SENT.len() {
        let is_whole = length == SENT.len();
        let mut hub = Hub::new(alloc, node(alloc, store(alloc)?)?);
        let mut reader = Breaking {
            bytes: &SENT.as_bytes()[..length],
        };
        let mut written = Vec::new(alloc);
        let end = serve_connection(&mut hub, &mut reader, &mut written);
        assert_eq!(rt; end, ServiceEnd::ReadFailed);
        let wanted = if is_whole { REPLY } else { "" };
        assert_eq!(rt; written.as_slice(), wanted.as_bytes());
        let reply = hub.handle(&request(alloc, "GET /db/a", "")?);
        assert_eq!(rt; reply.status(), if is_whole { 200 } else { 404 });
    }
    Ok(())
}

/// Serves a connection whose writer takes so many bytes. Returns these, and why the service ended.
fn serve_slow(alloc: Global, taken: usize) -> Result<(Vec<u8>, ServiceEnd), Fail> {
    let mut hub = Hub::new(alloc, node(alloc, store(alloc)?)?);
    let mut writer = Slow::new(alloc, taken);
    let end = serve_connection(&mut hub, &mut SENT.as_bytes(), &mut writer);
    Ok((writer.bytes, end))
}

/// Whichever write fails, what went out begins the reply, and the connection ends.
#[test]
fn a_write_that_fails_ends_a_connection(rt: HostRuntime) -> Result<(), Fail> {
    let alloc = rt.alloc();
    for taken in 0..REPLY.len() {
        let (bytes, end) = serve_slow(alloc, taken)?;
        assert_eq!(rt; end, ServiceEnd::WriteFailed);
        assert_eq!(rt; bytes.len(), taken);
        assert!(rt; REPLY.as_bytes().starts_with(&bytes));
    }
    let (bytes, end) = serve_slow(alloc, REPLY.len())?;
    assert_eq!(rt; end, ServiceEnd::EndOfInput);
    assert_eq!(rt; bytes.as_slice(), REPLY.as_bytes());
    Ok(())
}

/// Interrupted reads and writes are made again: each request is answered, and the connection ends as it does
/// without them.
#[test]
fn interrupted_reads_and_writes_are_made_again(rt: HostRuntime) -> Result<(), Fail> {
    let alloc = rt.alloc();
    let mut hub = Hub::new(alloc, node(alloc, store(alloc)?)?);
    let mut writer = SlowHalting::new(alloc, REPLY.len());
    let end = serve_connection(&mut hub, &mut Halting::new(SENT.as_bytes()), &mut writer);
    assert_eq!(rt; end, ServiceEnd::EndOfInput);
    assert_eq!(rt; writer.bytes(), REPLY.as_bytes());
    Ok(())
}

/// A read or a write that is interrupted without end has failed.
#[test]
fn interruptions_without_end_end_a_connection(rt: HostRuntime) -> Result<(), Fail> {
    let alloc = rt.alloc();
    let mut hub = Hub::new(alloc, node(alloc, store(alloc)?)?);
    let mut written = Vec::new(alloc);
    let end = serve_connection(&mut hub, &mut Stopped, &mut written);
    assert_eq!(rt; end, ServiceEnd::ReadFailed);
    assert!(rt; written.is_empty());
    let end = serve_connection(&mut hub, &mut SENT.as_bytes(), &mut Stopped);
    assert_eq!(rt; end, ServiceEnd::WriteFailed);
    Ok(())
}
