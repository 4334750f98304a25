use crate::local_client::{node, reply_to, root_request, store_in_tables};
use sqlstore::MemoryStore;
use std::alloc::Global;
use std::process::Abort;
use std::test::Fail;

/// A design document with one index, as another node pushes it.
const DESIGN: &str =
    r#"{"docs":[{"_id":"_design/i","_rev":"1-1","indexes":{"a":{"fields":["a"]}}}],"new_edits":false}"#;

/// The first page with a start, which shows nothing, and its reply. It makes the ranks of the ids: it takes a row
/// for each segment but the last, which are 249, as a store in memory has segments of four ids; and two counts.
const FIRST: (&str, &str, &str) = (
    "GET /db/_all_docs?startkey=%22d%22&limit=0",
    "",
    r#"200 {"offset":1,"rows":[],"total_rows":1001}"#,
);

/// How many rows that page takes at most.
const MOST_FIRST: u64 = 251;

/// Requests that show one document of a thousand, and their replies.
const REQUESTS: [(&str, &str, &str); 12] = [
    (
        "GET /db",
        "",
        r#"200 {"db_name":"db","doc_count":1001,"doc_del_count":0,"update_seq":1001}"#,
    ),
    (
        "GET /db/_all_docs?limit=1",
        "",
        r#"200 {"offset":0,"rows":[{"id":"_design/i","key":"_design/i","value":{"rev":"1-1"}}],"total_rows":1001}"#,
    ),
    (
        "GET /db/_all_docs?startkey=%22d0500%22&limit=1",
        "",
        r#"200 {"offset":501,"rows":[{"id":"d0500","key":"d0500","value":{"rev":"1-a"}}],"total_rows":1001}"#,
    ),
    (
        "GET /db/_all_docs?startkey=%22d0500%22&limit=1&descending=true",
        "",
        r#"200 {"offset":499,"rows":[{"id":"d0500","key":"d0500","value":{"rev":"1-a"}}],"total_rows":1001}"#,
    ),
    (
        "GET /db/_changes?limit=1",
        "",
        r#"200 {"last_seq":1,"results":[{"changes":[{"rev":"1-1"}],"id":"_design/i","seq":1}]}"#,
    ),
    (
        "GET /db/_design/i/_view/a?limit=1",
        "",
        r#"200 {"offset":0,"rows":[{"id":"d0000","key":[0],"value":null}],"total_rows":1000}"#,
    ),
    (
        "GET /db/_design/i/_view/a?startkey=%5B500%5D&limit=1",
        "",
        r#"200 {"offset":500,"rows":[{"id":"d0500","key":[500],"value":null}],"total_rows":1000}"#,
    ),
    (
        "GET /db/_design/i/_view/a?startkey=%5B500%5D&limit=1&descending=true",
        "",
        r#"200 {"offset":499,"rows":[{"id":"d0500","key":[500],"value":null}],"total_rows":1000}"#,
    ),
    (
        "POST /db/_find",
        r#"{"selector":{"a":500},"limit":1}"#,
        r#"200 {"bookmark":"nil","docs":[{"_id":"d0500","_rev":"1-a","a":500}]}"#,
    ),
    (
        "POST /db/_find",
        r#"{"selector":{"a":{"$gte":500}},"sort":[{"a":"asc"}],"limit":1}"#,
        r#"200 {"bookmark":"nil","docs":[{"_id":"d0500","_rev":"1-a","a":500}]}"#,
    ),
    (
        "POST /db/_find",
        r#"{"selector":{},"sort":[{"a":"desc"}],"limit":1}"#,
        r#"200 {"bookmark":"nil","docs":[{"_id":"d0999","_rev":"1-a","a":999}]}"#,
    ),
    (
        "POST /db/_find",
        r#"{"selector":{},"limit":1}"#,
        r#"200 {"bookmark":"nil","docs":[{"_id":"d0000","_rev":"1-a","a":0}]}"#,
    ),
];

/// Builds the body that pushes a thousand documents.
fn thousand(alloc: Global) -> Result<String, Fail> {
    let mut body = String::from_str(alloc, r#"{"new_edits":false,"docs":["#)?;
    for n in 0..1_000 {
        if n > 0 {
            body.push(',')?;
        }
        let document = format!(in alloc; "{{\"_id\":\"d{n:04}\",\"_rev\":\"1-a\",\"a\":{n}}}")?;
        body.push_str(document.as_str())?;
    }
    body.push_str("]}")?;
    Ok(body)
}

/// Returns the reply to a request, and the store.
fn ask(
    alloc: Global,
    store: MemoryStore,
    line: &str,
    body: &str,
) -> Result<(String, MemoryStore), Fail> {
    let mut node = node(alloc, store)?;
    let told = reply_to(alloc, &mut node, &root_request(alloc, line, body)?)?;
    Ok((told, node.into_store()))
}

/// How many rows each of them takes at most.
const MOST: u64 = 40;

/// Asks for something, and compares the reply, and how many rows of the tables were taken for it.
fn ask_counted(
    rt: &impl Abort,
    alloc: Global,
    store: MemoryStore,
    request: (&str, &str, &str),
    most: u64,
) -> Result<MemoryStore, Fail> {
    let (line, body, wanted) = request;
    let before = store.fetched();
    let (told, after) = ask(alloc, store, line, body)?;
    assert_eq!(rt; told.as_str(), wanted, "{line}");
    let taken = after.fetched().saturating_sub(before);
    assert!(rt; taken <= most, "{line}: {taken} rows");
    Ok(after)
}

/// A request that shows one document of a thousand takes few rows of the tables, and the page that makes ranks one
/// for each segment.
#[test]
fn few_rows(rt: HostRuntime) -> Result<(), Fail> {
    let alloc = rt.alloc();
    let (told, store) = ask(
        alloc,
        store_in_tables(alloc)?,
        "POST /db/_bulk_docs",
        DESIGN,
    )?;
    assert_eq!(rt; told.as_str(), "201 []");
    let pushed = thousand(alloc)?;
    let (told, store) = ask(alloc, store, "POST /db/_bulk_docs", pushed.as_str())?;
    assert_eq!(rt; told.as_str(), "201 []");
    let mut store = ask_counted(&rt, alloc, store, FIRST, MOST_FIRST)?;
    for request in REQUESTS {
        store = ask_counted(&rt, alloc, store, request, MOST)?;
    }
    Ok(())
}
