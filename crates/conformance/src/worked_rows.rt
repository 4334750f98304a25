//! Stories whose replies are known from outside, in which an allocation is refused, whichever it is:
//! `tools/allocations` runs each of these tests once for each of its allocations. Revisions are python's
//! hashlib.

use crate::allocations::{feed_again, feed_request, handle_again, open_again, tell};
use crate::local_client::{BOB, NOBODY, ROOT, node, request_with, store, store_in_tables};
use couch_http::Request;
use hub::{Hub, NoLog};
use std::alloc::Global;
use std::process::Abort;
use std::test::Fail;
use store::Store;

/// A document, an edit of it without a revision, which is a conflict, and one with its revision. In each
/// step stand who asks, the request, its body, and the status and the body of the reply.
const EDITS: [(&str, &str, &str, u16, &[u8]); 3] = [
    (
        NOBODY,
        "PUT /db/a",
        "{}",
        201,
        br#"{"id":"a","ok":true,"rev":"1-d2422118a02a398f9502ebcbaa7b90bd"}"#,
    ),
    (
        NOBODY,
        "PUT /db/a",
        "{}",
        409,
        br#"{"error":"conflict","reason":"Document update conflict."}"#,
    ),
    (
        NOBODY,
        "PUT /db/a",
        r#"{"_rev":"1-d2422118a02a398f9502ebcbaa7b90bd","v":1}"#,
        201,
        br#"{"id":"a","ok":true,"rev":"2-55d6e7c83729e85c9a26e07f20af0eb5"}"#,
    ),
];

/// A bulk under an update rule: a document, one that the rule refuses, one with an unknown revision, and
/// the first id once more.
pub const BULK: [(&str, &str, &str, u16, &[u8]); 3] = [
    (
        ROOT,
        "PUT /db/_design/k",
        r#"{"validate_doc_update":{"newDoc.ok":true}}"#,
        201,
        br#"{"id":"_design/k","ok":true,"rev":"1-05a0dae107f01dac5dd3f4cc539eaa86"}"#,
    ),
    (
        BOB,
        "POST /db/_bulk_docs",
        r#"{"docs":[{"_id":"a","ok":true},{"_id":"b"},{"_id":"c","_rev":"1-zz","ok":true},{"_id":"a","ok":true}]}"#,
        201,
        b"[{\"id\":\"a\",\"ok\":true,\"rev\":\"1-45896966375c706497b47bb25026742d\"},{\"error\":\"forbidden\",\"id\":\"b\",\
          \"reason\":\"Refused by an update rule.\",\"rule\":\"_design/k\"},{\"error\":\"conflict\",\"id\":\"c\",\
          \"reason\":\"Document update conflict.\"},{\"error\":\"conflict\",\"id\":\"a\",\"reason\":\"Document update conflict.\"}]",
    ),
    (
        NOBODY,
        "GET /db",
        "",
        200,
        br#"{"db_name":"db","doc_count":2,"doc_del_count":0,"update_seq":2}"#,
    ),
];

/// A design document whose winner changes and is deleted: the rows of its index, and its update rule.
const DESIGNS: [(&str, &str, &str, u16, &[u8]); 13] = [
    (
        ROOT,
        "POST /db/_bulk_docs",
        r#"{"docs":[{"_id":"_design/i","_rev":"1-m","indexes":{"p":{"fields":["a"]}}}],"new_edits":false}"#,
        201,
        b"[]",
    ),
    (
        NOBODY,
        "PUT /db/x",
        r#"{"a":1,"b":9}"#,
        201,
        br#"{"id":"x","ok":true,"rev":"1-1c1388022af177389682bf60b6f31b9b"}"#,
    ),
    (
        NOBODY,
        "PUT /db/y",
        r#"{"b":2}"#,
        201,
        br#"{"id":"y","ok":true,"rev":"1-7e9966270570b2ee1f1f1d84d8ae3921"}"#,
    ),
    (
        NOBODY,
        "GET /db/_design/i/_view/p",
        "",
        200,
        br#"{"offset":0,"rows":[{"id":"x","key":[1],"value":null}],"total_rows":1}"#,
    ),
    (
        ROOT,
        "POST /db/_bulk_docs",
        r#"{"docs":[{"_id":"_design/i","_rev":"1-z","indexes":{"p":{"fields":["b"]}},"validate_doc_update":{"newDoc.a":{"$exists":true}}}],"new_edits":false}"#,
        201,
        b"[]",
    ),
    (
        NOBODY,
        "GET /db/_design/i/_view/p",
        "",
        200,
        br#"{"offset":0,"rows":[{"id":"y","key":[2],"value":null},{"id":"x","key":[9],"value":null}],"total_rows":2}"#,
    ),
    (
        NOBODY,
        "PUT /db/q",
        "{}",
        401,
        br#"{"error":"unauthorized","reason":"Refused by an update rule.","rule":"_design/i"}"#,
    ),
    (
        ROOT,
        "POST /db/_bulk_docs",
        r#"{"docs":[{"_id":"_design/i","_rev":"1-c"}],"new_edits":false}"#,
        201,
        b"[]",
    ),
    (
        NOBODY,
        "GET /db/_design/i/_view/p",
        "",
        200,
        br#"{"offset":0,"rows":[{"id":"y","key":[2],"value":null},{"id":"x","key":[9],"value":null}],"total_rows":2}"#,
    ),
    (
        NOBODY,
        "PUT /db/q",
        "{}",
        401,
        br#"{"error":"unauthorized","reason":"Refused by an update rule.","rule":"_design/i"}"#,
    ),
    (
        ROOT,
        "DELETE /db/_design/i?rev=1-z",
        "",
        200,
        br#"{"id":"_design/i","ok":true,"rev":"2-ca978a9fb35fa025d79b70242f1ad40a"}"#,
    ),
    (
        NOBODY,
        "GET /db/_design/i/_view/p",
        "",
        200,
        br#"{"offset":0,"rows":[{"id":"x","key":[1],"value":null}],"total_rows":1}"#,
    ),
    (
        NOBODY,
        "PUT /db/q",
        "{}",
        201,
        br#"{"id":"q","ok":true,"rev":"1-d2422118a02a398f9502ebcbaa7b90bd"}"#,
    ),
];

/// What the first of two connections sends byte by byte, and its reply, which comes behind the second's.
const FIRST: (&[u8], &[u8]) = (
    b"PUT /db/a HTTP/1.1\r\nContent-Length: 8\r\n\r\n{\"by\":1}",
    b"HTTP/1.1 409 Conflict\r\nContent-Type: application/json\r\nContent-Length: 57\r\n\r\n\
{\"error\":\"conflict\",\"reason\":\"Document update conflict.\"}",
);

/// What the second connection sends, and its reply.
const SECOND: (&[u8], &[u8]) = (
    b"PUT /db/a HTTP/1.1\r\nContent-Length: 8\r\n\r\n{\"by\":2}",
    b"HTTP/1.1 201 Created\r\nContent-Type: application/json\r\nContent-Length: 63\r\n\r\n\
{\"id\":\"a\",\"ok\":true,\"rev\":\"1-2d7a80213a8d8f3c3b9505fc74d6ba3f\"}",
);

/// Makes a hub over a store, and the requests of a story.
fn start<S: Store + Drop>(
    alloc: Global,
    store: Result<S, Fail>,
    steps: &[(&str, &str, &str, u16, &[u8])],
) -> Result<(Hub<S, NoLog>, Vec<Request>), Fail> {
    let hub = Hub::new(alloc, node(alloc, store?)?);
    let mut requests = Vec::new(alloc);
    for (user, line, body, _status, _wanted) in steps {
        requests.push(request_with(alloc, line, user, body)?)?;
    }
    Ok((hub, requests))
}

/// Asks for each step, and compares the replies.
fn play<S: Store + Drop>(
    rt: &impl Abort,
    hub: &mut Hub<S, NoLog>,
    requests: &[Request],
    steps: &[(&str, &str, &str, u16, &[u8])],
) {
    for (request, (_user, line, _body, status, wanted)) in requests.iter().zip(steps) {
        let reply = handle_again(hub, request);
        assert_eq!(rt; reply.status(), *status, "{line}");
        assert_eq!(rt; reply.body(), *wanted, "{line}");
    }
}

/// Plays a story over a store. Where there is no first step, what failed is returned.
fn try_story<S: Store + Drop>(
    rt: &impl Abort,
    alloc: Global,
    store: Result<S, Fail>,
    steps: &[(&str, &str, &str, u16, &[u8])],
) -> Option<Fail> {
    match start(alloc, store, steps) {
        Ok((mut hub, requests)) => {
            play(rt, &mut hub, &requests, steps);
            None
        }
        Err(fail) => Some(fail),
    }
}

/// Prints why there was no first step, where there was none, and fails.
fn tell_early(rt: &HostRuntime, early: Option<Fail>) -> Result<(), Fail> {
    match early {
        Some(fail) => tell(rt, fail),
        None => Ok(()),
    }
}

/// Feeds bytes one by one, to which nothing is replied.
fn feed_bytewise<S: Store + Drop>(
    rt: &impl Abort,
    hub: &mut Hub<S, NoLog>,
    conn: u64,
    bytes: &[u8],
) -> Result<(), Fail> {
    for byte in bytes {
        assert!(rt; feed_again(hub, conn, &[*byte])?.list.is_empty());
    }
    Ok(())
}

/// Feeds the end of a request, and compares the bytes of the one reply.
fn feed_last<S: Store + Drop>(
    rt: &impl Abort,
    hub: &mut Hub<S, NoLog>,
    conn: u64,
    end: &[u8],
    told: (&[u8], &[u8]),
) -> Result<(), Fail> {
    let (whole, wanted) = told;
    let replies = feed_request(hub, conn, end, whole)?;
    assert_eq!(rt; replies.list.len(), 1);
    for reply in &replies.list {
        assert_eq!(rt; reply.bytes(), wanted);
    }
    Ok(())
}

/// Feeds two connections of a hub: what ends first is handled first.
fn play_connections<S: Store + Drop>(rt: &impl Abort, hub: &mut Hub<S, NoLog>) -> Result<(), Fail> {
    for _connection in 0..2 {
        let _number = open_again(hub)?;
    }
    let (bytes, _reply) = FIRST;
    let Some((last, front)) = bytes.split_last() else {
        return Err(Fail::from("no bytes"));
    };
    feed_bytewise(rt, hub, 1, front)?;
    feed_last(rt, hub, 2, SECOND.0, SECOND)?;
    feed_last(rt, hub, 1, &[*last], FIRST)
}

/// Each reply is the story's or the 503, and the same step again has the story's reply.
#[test]
fn each_allocation_of_edits(rt: HostRuntime) -> Result<(), Fail> {
    let alloc = rt.alloc();
    tell_early(&rt, try_story(&rt, alloc, store(alloc), &EDITS))
}

/// The same over tables in memory.
#[test]
fn each_allocation_of_edits_over_tables(rt: HostRuntime) -> Result<(), Fail> {
    let alloc = rt.alloc();
    tell_early(&rt, try_story(&rt, alloc, store_in_tables(alloc), &EDITS))
}

/// A bulk, in the same way.
#[test]
fn each_allocation_of_a_bulk(rt: HostRuntime) -> Result<(), Fail> {
    let alloc = rt.alloc();
    tell_early(&rt, try_story(&rt, alloc, store(alloc), &BULK))
}

/// The same over tables in memory.
#[test]
fn each_allocation_of_a_bulk_over_tables(rt: HostRuntime) -> Result<(), Fail> {
    let alloc = rt.alloc();
    tell_early(&rt, try_story(&rt, alloc, store_in_tables(alloc), &BULK))
}

/// A design document whose winner changes in a store that lives on.
#[test]
fn each_allocation_of_design_documents(rt: HostRuntime) -> Result<(), Fail> {
    let alloc = rt.alloc();
    tell_early(&rt, try_story(&rt, alloc, store(alloc), &DESIGNS))
}

/// The same over tables in memory.
#[test]
fn each_allocation_of_design_documents_over_tables(rt: HostRuntime) -> Result<(), Fail> {
    let alloc = rt.alloc();
    tell_early(&rt, try_story(&rt, alloc, store_in_tables(alloc), &DESIGNS))
}

/// Two connections, one of them fed byte by byte.
#[test]
fn each_allocation_of_two_connections(rt: HostRuntime) -> Result<(), Fail> {
    let alloc = rt.alloc();
    match start(alloc, store(alloc), &[]) {
        Ok((mut hub, _requests)) => play_connections(&rt, &mut hub),
        Err(fail) => tell(&rt, fail),
    }
}

/// The same over tables in memory.
#[test]
fn each_allocation_of_two_connections_over_tables(rt: HostRuntime) -> Result<(), Fail> {
    let alloc = rt.alloc();
    match start(alloc, store_in_tables(alloc), &[]) {
        Ok((mut hub, _requests)) => play_connections(&rt, &mut hub),
        Err(fail) => tell(&rt, fail),
    }
}
