//! A refused allocation, whichever it is. `tools/allocations` runs these tests once for each; where none is
//! refused, as in the gate, they say that all is set up, and that the replies are the wanted ones.

use crate::local_client::{DESIGN, node, request, root_request, store, store_in_tables};
use couch_http::{Request, Response};
use hub::{Hub, HubFault, NoLog, Replies};
use std::alloc::Global;
use std::process::{Abort, Termination};
use std::test::Fail;
use store::Store;

/// The reply where memory ran out.
const MEMORY: &[u8] = br#"{"error":"service_unavailable","reason":"memory"}"#;

/// What is asked of a node with the design document and the document a, and the reply. A document and
/// its successor; a bulk with a refusal, a conflict, and two documents that are written; a conflict that is
/// pushed; the index; a page from the middle, a document before it, and the page again; the index from a
/// key on, documents before and behind it, and the index again. The revisions are python's hashlib.
const STEPS: [(&str, &str, u16, &[u8]); 12] = [
    (
        "PUT /db/e",
        r#"{"v":1}"#,
        201,
        br#"{"id":"e","ok":true,"rev":"1-16dd5aa7b10d32bc038d45f5c7f9f929"}"#,
    ),
    (
        "PUT /db/e?rev=1-16dd5aa7b10d32bc038d45f5c7f9f929",
        r#"{"v":2}"#,
        201,
        br#"{"id":"e","ok":true,"rev":"2-ee473fb29866c46a0300b68bd4d6a4cc"}"#,
    ),
    (
        "POST /db/_bulk_docs",
        r#"{"docs":[{"_id":"b","bad":1},{"_id":"a","v":9},{"_id":"c","v":1},{"_id":"f","v":2}]}"#,
        201,
        b"[{\"error\":\"unauthorized\",\"id\":\"b\",\"reason\":\"Refused by an update rule.\",\"rule\":\"_design/d\"},\
          {\"error\":\"conflict\",\"id\":\"a\",\"reason\":\"Document update conflict.\"},{\"id\":\"c\",\"ok\":true,\
          \"rev\":\"1-16dd5aa7b10d32bc038d45f5c7f9f929\"},{\"id\":\"f\",\"ok\":true,\"rev\":\"1-d04dee28564c4bc58752cca93ab2ecf9\"}]",
    ),
    (
        "POST /db/_bulk_docs",
        r#"{"docs":[{"_id":"a","_rev":"1-x","v":7}],"new_edits":false}"#,
        201,
        b"[]",
    ),
    (
        "GET /db/_design/d/_view/v",
        "",
        200,
        b"{\"offset\":0,\"rows\":[{\"id\":\"c\",\"key\":[1],\"value\":null},{\"id\":\"e\",\"key\":[2],\"value\":null},{\"id\":\"f\",\
          \"key\":[2],\"value\":null},{\"id\":\"a\",\"key\":[7],\"value\":null}],\"total_rows\":4}",
    ),
    (
        "GET /db/_all_docs?startkey=%22b%22&skip=1&limit=1",
        "",
        200,
        br#"{"offset":3,"rows":[{"id":"e","key":"e","value":{"rev":"2-ee473fb29866c46a0300b68bd4d6a4cc"}}],"total_rows":5}"#,
    ),
    (
        "PUT /db/bb",
        r#"{"v":1}"#,
        201,
        br#"{"id":"bb","ok":true,"rev":"1-16dd5aa7b10d32bc038d45f5c7f9f929"}"#,
    ),
    (
        "GET /db/_all_docs?startkey=%22b%22&skip=1&limit=1",
        "",
        200,
        br#"{"offset":3,"rows":[{"id":"c","key":"c","value":{"rev":"1-16dd5aa7b10d32bc038d45f5c7f9f929"}}],"total_rows":6}"#,
    ),
    (
        "GET /db/_design/d/_view/v?startkey=%5B2%5D&limit=1",
        "",
        200,
        br#"{"offset":2,"rows":[{"id":"e","key":[2],"value":null}],"total_rows":5}"#,
    ),
    (
        "POST /db/_bulk_docs",
        r#"{"docs":[{"_id":"h","_rev":"1-x","v":1},{"_id":"i","_rev":"1-x","v":1},{"_id":"j","_rev":"1-x","v":1},
        {"_id":"k","_rev":"1-x","v":3},{"_id":"l","_rev":"1-x","v":1},
        {"_id":"m","_rev":"1-x","v":1},{"_id":"n","_rev":"1-x","v":1}],"new_edits":false}"#,
        201,
        b"[]",
    ),
    (
        "GET /db/_design/d/_view/v?startkey=%5B3%5D&limit=1",
        "",
        200,
        br#"{"offset":10,"rows":[{"id":"k","key":[3],"value":null}],"total_rows":12}"#,
    ),
    (
        "GET /db/_design/d/_view/v?startkey=%5B2%5D&descending=true&limit=1",
        "",
        200,
        br#"{"offset":2,"rows":[{"id":"f","key":[2],"value":null}],"total_rows":12}"#,
    ),
];

/// What comes in turn on two connections: the number of the connection, a piece, and the request that
/// it completes, whole, with the body of the reply.
const PIECES: [(u64, &[u8], Option<(&[u8], &[u8])>); 7] = [
    (1, b"PUT /db/g HTTP/1.1\r\nContent-Le", None),
    (2, b"GET /db/a HT", None),
    (1, b"ngth: 7\r\n\r\n{\"v\":", None),
    (
        2,
        b"TP/1.1\r\n\r\n",
        Some((
            b"GET /db/a HTTP/1.1\r\n\r\n",
            br#"{"_id":"a","_rev":"1-x","v":7}"#,
        )),
    ),
    (
        1,
        b"1}",
        Some((
            b"PUT /db/g HTTP/1.1\r\nContent-Length: 7\r\n\r\n{\"v\":1}",
            br#"{"id":"g","ok":true,"rev":"1-16dd5aa7b10d32bc038d45f5c7f9f929"}"#,
        )),
    ),
    (2, b"GET /db/e HTTP/1.1\r\n\r", None),
    (
        2,
        b"\n",
        Some((
            b"GET /db/e HTTP/1.1\r\n\r\n",
            br#"{"_id":"e","_rev":"2-ee473fb29866c46a0300b68bd4d6a4cc","v":2}"#,
        )),
    ),
];

/// Makes a hub over a store with the design document and the document a, and the requests of the steps.
fn prepare<S: Store + Drop>(
    alloc: Global,
    store: S,
) -> Result<(Hub<S, NoLog>, Vec<Request>), Fail> {
    let mut hub = Hub::new(alloc, node(alloc, store)?);
    let design = root_request(alloc, "PUT /db/_design/d", DESIGN)?;
    let document = request(alloc, "PUT /db/a", r#"{"v":1}"#)?;
    for request in [&design, &document] {
        if hub.handle(request).status() != 201 {
            return Err(Fail::from("not written"));
        }
    }
    let mut requests = Vec::new(alloc);
    for (line, body, _status, _wanted) in STEPS {
        requests.push(request(alloc, line, body)?)?;
    }
    Ok((hub, requests))
}

/// Asks for something, and once more where memory ran out.
pub fn handle_again<S: Store + Drop>(hub: &mut Hub<S, NoLog>, request: &Request) -> Response {
    let reply = hub.handle(request);
    if reply.status() == 503 && reply.body() == MEMORY {
        return hub.handle(request);
    }
    reply
}

/// Opens a connection, and once more where memory ran out.
pub fn open_again<S: Store + Drop>(hub: &mut Hub<S, NoLog>) -> Result<u64, HubFault> {
    match hub.open() {
        Err(HubFault::Memory) => hub.open(),
        opened => opened,
    }
}

/// Feeds a piece, and once more where memory ran out.
pub fn feed_again<S: Store + Drop>(
    hub: &mut Hub<S, NoLog>,
    conn: u64,
    piece: &[u8],
) -> Result<Replies, HubFault> {
    match hub.feed(conn, piece) {
        Err(HubFault::Memory) => hub.feed(conn, piece),
        fed => fed,
    }
}

/// Feeds a piece that completes a request, and the whole request where that was answered by the 503.
pub fn feed_request<S: Store + Drop>(
    hub: &mut Hub<S, NoLog>,
    conn: u64,
    piece: &[u8],
    whole: &[u8],
) -> Result<Replies, HubFault> {
    let replies = feed_again(hub, conn, piece)?;
    match replies.list.first() {
        Some(reply) if reply.status() == 503 && reply.body() == MEMORY => hub.feed(conn, whole),
        _ => Ok(replies),
    }
}

/// Plays all steps and pieces, and compares the replies.
fn play<S: Store + Drop>(
    rt: &impl Abort,
    hub: &mut Hub<S, NoLog>,
    requests: &[Request],
) -> Result<(), Fail> {
    for (request, (line, _body, status, wanted)) in requests.iter().zip(STEPS) {
        let reply = handle_again(hub, request);
        assert_eq!(rt; reply.status(), status, "{line}");
        assert_eq!(rt; reply.body(), wanted, "{line}");
    }
    for _connection in 0..2 {
        let _number = open_again(hub)?;
    }
    for (conn, piece, completes) in PIECES {
        let Some((whole, wanted)) = completes else {
            assert!(rt; feed_again(hub, conn, piece)?.list.is_empty());
            continue;
        };
        let replies = feed_request(hub, conn, piece, whole)?;
        assert_eq!(rt; replies.list.len(), 1);
        for reply in &replies.list {
            assert_eq!(rt; reply.body(), wanted);
        }
    }
    Ok(())
}

/// Prints why there is no first step, and fails.
pub fn tell(rt: &HostRuntime, fail: Fail) -> Result<(), Fail> {
    let failed: Result<(), Fail> = Err(fail);
    let _status = failed.report(rt);
    Err(Fail::from("no first step"))
}

/// Each reply is the wanted one or the 503, `feed` may answer `Memory`, and the same step again has the
/// wanted reply. Where there is no first step, the test fails: only an allocation that is refused before it
/// may be the cause.
#[test]
fn each_allocation(rt: HostRuntime) -> Result<(), Fail> {
    let alloc = rt.alloc();
    match store(alloc).and_then(|store| prepare(alloc, store)) {
        Ok((mut hub, requests)) => play(&rt, &mut hub, &requests),
        Err(fail) => tell(&rt, fail),
    }
}

/// The same over tables in memory.
#[test]
fn each_allocation_over_tables(rt: HostRuntime) -> Result<(), Fail> {
    let alloc = rt.alloc();
    match store_in_tables(alloc).and_then(|store| prepare(alloc, store)) {
        Ok((mut hub, requests)) => play(&rt, &mut hub, &requests),
        Err(fail) => tell(&rt, fail),
    }
}
