//! A client of one node in memory.

use auth::Auth;
use couch_http::{Cutter, Request};
use couch_json::read;
use node::{Node, Routes};
use policy::Security;
use sqlstore::MemoryStore;
use std::alloc::Global;
use std::test::Fail;
use store::{DbName, PlainStore, Store};

/// Returns a store with the databases `db` and `other`, whose security objects are `{}`.
pub fn store(alloc: Global) -> Result<PlainStore, Fail> {
    let mut store = PlainStore::new(alloc);
    add_databases(alloc, &mut store)?;
    Ok(store)
}

/// Returns the same over tables in memory.
pub fn store_in_tables(alloc: Global) -> Result<MemoryStore, Fail> {
    let mut store = MemoryStore::new(alloc)?;
    add_databases(alloc, &mut store)?;
    Ok(store)
}

fn add_databases<S: Store>(alloc: Global, store: &mut S) -> Result<(), Fail> {
    let public = Security::read(alloc, &read(alloc, b"{}")?)?;
    for name in ["db", "other"] {
        let name = DbName::new(alloc, name)?;
        store.create(&name)?;
        store.set_security(&name, &public)?;
    }
    Ok(())
}

/// A design document that takes no document with a member `bad`, and declares an index.
pub const DESIGN: &str =
    r#"{"validate_doc_update":{"newDoc.bad":{"$exists":false}},"indexes":{"v":{"fields":["v"]}}}"#;

/// The reply where the store failed.
pub const FAILED: &str = r#"500 {"error":"internal_server_error","reason":"store"}"#;

/// No header lines: nobody asks.
pub const NOBODY: &str = "";

/// The header lines of the user `bob`. The token is python's hmac.
pub const BOB: &str = "X-Auth-CouchDB-UserName: bob\r\nX-Auth-CouchDB-Token: \
a533821c1f94927364966e03c15c31c4814908a8e60237b2c1a574dbfa77b52c\r\n";

/// The header lines of the admin `root`. The token is python's hmac.
pub const ROOT: &str = "X-Auth-CouchDB-UserName: root\r\nX-Auth-CouchDB-Token: \
160a499b3e61e4772a8874ed075f1ae84e9c342ac24d75151e0bd3cd76e1b6fb\r\n";

/// Returns a node over a store, with the secret `Jefe` and the admin `root`.
pub fn node<S: Store + Drop>(alloc: Global, store: S) -> Result<Node<S>, Fail> {
    let auth = Auth::new(alloc, b"Jefe", &[String::from_str(alloc, "root")?])?;
    Ok(Node::new(alloc, store, auth, Routes::new(alloc)?))
}

/// Returns the reply to one request of nobody: its status, a space, and its body.
pub fn reply<S: Store + Drop>(
    alloc: Global,
    node: &mut Node<S>,
    line: &str,
    body: &str,
) -> Result<String, Fail> {
    reply_to(alloc, node, &request(alloc, line, body)?)
}

/// Returns the reply to one request: its status, a space, and its body.
pub fn reply_to<S: Store + Drop>(
    alloc: Global,
    node: &mut Node<S>,
    request: &Request,
) -> Result<String, Fail> {
    let reply = node.handle(request);
    let status = reply.status();
    let mut text = format!(in alloc; "{status} ")?;
    let body = String::from_utf8(Vec::from_slice(alloc, reply.body())?)?;
    text.push_str(body.as_str())?;
    Ok(text)
}

/// What shows a store: the names of databases, and of `db` the information, the changes, the security
/// object, a local document, the rows of an index, and the documents with their paths.
const SHOWN: [&str; 14] = [
    "GET /_all_dbs",
    "GET /db",
    "GET /db/_changes?style=all_docs",
    "GET /db/_security",
    "GET /db/_local/l",
    "GET /db/_design/d/_view/v",
    "GET /db/_design/d?open_revs=all&revs=true",
    "GET /db/_design/e?open_revs=all&revs=true",
    "GET /db/a?open_revs=all&revs=true",
    "GET /db/b?open_revs=all&revs=true",
    "GET /db/c?open_revs=all&revs=true",
    "GET /db/d?open_revs=all&revs=true",
    "GET /db/e?open_revs=all&revs=true",
    "GET /db/m?open_revs=all&revs=true",
];

/// Returns all that requests of the admin show, which are good requests.
pub fn show_all<S: Store + Drop>(alloc: Global, node: &mut Node<S>) -> Result<String, Fail> {
    let mut all = String::new(alloc);
    for line in SHOWN {
        let text = reply_to(alloc, node, &root_request(alloc, line, "")?)?;
        if !text.as_str().starts_with("200 ") && !text.as_str().starts_with("404 ") {
            return Err(Fail::from("a bad request"));
        }
        all.push_str(text.as_str())?;
        all.push('\n')?;
    }
    Ok(all)
}

/// Returns a request of nobody, as it is cut from its bytes.
pub fn request(alloc: Global, line: &str, body: &str) -> Result<Request, Fail> {
    request_with(alloc, line, NOBODY, body)
}

/// Returns a request of the admin `root`.
pub fn root_request(alloc: Global, line: &str, body: &str) -> Result<Request, Fail> {
    request_with(alloc, line, ROOT, body)
}

/// Returns a request with these header lines, as it is cut from its bytes.
pub fn request_with(alloc: Global, line: &str, headers: &str, body: &str) -> Result<Request, Fail> {
    let length = body.len();
    let bytes = format!(in alloc;
        "{line} HTTP/1.1\r\n{headers}Content-Length: {length}\r\n\r\n{body}"
    )?;
    let mut cutter = Cutter::new(alloc);
    let mut cut = cutter.feed(bytes.as_bytes())?;
    Ok(cut.requests.pop().ok_or("no request")?)
}
