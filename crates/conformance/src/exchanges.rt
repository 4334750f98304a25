//! Exchanges whose request isn't taken whole, and whose reply doesn't come whole.

use crate::broken_streams::{Breaking, Broken, Halting, Slow, SlowHalting};
use crate::local_client::request;
use couch_http::Request;
use std::alloc::Global;
use std::test::Fail;
use sync::{Answer, Logged, exchange};

/// The bytes of a request as they go out (RFC 9112, sections 3 and 6.2).
const SENT: &str = "PUT /db/a HTTP/1.1\r\nHost: couchd\r\nContent-Length: 8\r\n\r\n{\"by\":2}";

/// A reply to it, and the start of another.
const RECEIVED: &str =
    "HTTP/1.1 201 Created\r\nContent-Length: 11\r\n\r\n{\"ok\":true}HTTP/1.1 200";

/// How many bytes the reply has.
const LENGTH: usize = 55;

/// Makes the request, which has no headers of its own.
fn put(alloc: Global) -> Result<Request, Fail> {
    let mut put = request(alloc, "PUT /db/a", "{\"by\":2}")?;
    put.headers = Vec::new(alloc);
    Ok(put)
}

/// A reply that is cut before its last byte is lost, and one that came whole is told.
#[test]
fn a_reply_is_told_if_and_only_if_it_came_whole(rt: HostRuntime) -> Result<(), Fail> {
    let alloc = rt.alloc();
    let put = put(alloc)?;
    for length in 0..=RECEIVED.len() {
        let mut reader = Logged::new(&RECEIVED.as_bytes()[..length]);
        let mut written = Vec::new(alloc);
        let reply = exchange(
            alloc,
            &put,
            &mut reader,
            &mut Logged::new(&mut written),
        )?.into_reply();
        assert_eq!(rt; written.as_slice(), SENT.as_bytes());
        assert_eq!(rt; reply.is_some(), length >= LENGTH);
        let Some(reply) = reply else {
            continue;
        };
        assert_eq!(rt; reply.status(), 201);
        assert_eq!(rt; reply.body(), b"{\"ok\":true}".as_slice());
    }
    Ok(())
}

/// A request that isn't taken whole has no reply, and nothing is read.
#[test]
fn nothing_is_read_behind_a_write_that_fails(rt: HostRuntime) -> Result<(), Fail> {
    let alloc = rt.alloc();
    let put = put(alloc)?;
    for taken in 0..SENT.len() {
        let mut reader = Logged::new(RECEIVED.as_bytes());
        let mut writer = Slow::new(alloc, taken);
        let reply = exchange(alloc, &put, &mut reader, &mut Logged::new(&mut writer))?;
        assert!(rt; matches!(reply, Answer::Lost));
        assert_eq!(rt; writer.bytes.as_slice(), &SENT.as_bytes()[..taken]);
        assert_eq!(rt; reader.stream.len(), RECEIVED.len());
    }
    Ok(())
}

/// Whichever read fails, a reply that came whole before is told, and another is lost.
#[test]
fn each_read_that_fails_ends_an_exchange(rt: HostRuntime) -> Result<(), Fail> {
    let alloc = rt.alloc();
    let put = put(alloc)?;
    for length in 0..=RECEIVED.len() {
        let mut reader = Logged::new(Breaking {
            bytes: &RECEIVED.as_bytes()[..length],
        });
        let mut written = Vec::new(alloc);
        let reply = exchange(alloc, &put, &mut reader, &mut Logged::new(&mut written))?;
        assert_eq!(rt; reply.into_reply().is_some(), length >= LENGTH);
        assert_eq!(rt; written.as_slice(), SENT.as_bytes());
    }
    Ok(())
}

/// A read or a write that is interrupted is made again, before each byte and at the end.
#[test]
fn an_interrupted_call_is_made_again(rt: HostRuntime) -> Result<(), Fail> {
    let alloc = rt.alloc();
    let put = put(alloc)?;
    for length in 0..=RECEIVED.len() {
        let mut reader = Logged::new(Halting::new(&RECEIVED.as_bytes()[..length]));
        let mut writer = SlowHalting::new(alloc, SENT.len());
        let reply = exchange(alloc, &put, &mut reader, &mut Logged::new(&mut writer))?;
        assert_eq!(rt; reply.into_reply().is_some(), length >= LENGTH);
        assert_eq!(rt; writer.bytes(), SENT.as_bytes());
    }
    Ok(())
}

/// A read that fails loses the reply; bytes that are none can't be read.
#[test]
fn a_reply_is_lost_where_reading_fails(rt: HostRuntime) -> Result<(), Fail> {
    let alloc = rt.alloc();
    let put = put(alloc)?;
    let mut written = Vec::new(alloc);
    let mut writer = Logged::new(&mut written);
    let reply = exchange(alloc, &put, &mut Logged::new(Broken), &mut writer)?;
    assert!(rt; matches!(reply, Answer::Lost));
    let mut reader = Logged::new(SENT.as_bytes());
    let reply = exchange(alloc, &put, &mut reader, &mut writer)?;
    assert!(rt; matches!(reply, Answer::Unreadable));
    Ok(())
}
