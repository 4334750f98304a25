//! Files of version 1, which are carried over where they are opened.

use crate::allocations::tell;
use crate::local_client::{node, reply_to, root_request};
use sqlite::{Alter, Connection, MemStore};
use sqlstore::{OpenFault, SqlStore};
use std::alloc::Global;
use std::test::Fail;

/// What the admin `root` writes: a declared index, and a document that has a row in it, of the key `[5]`.
pub const FILLING: [(&str, &str); 4] = [
    ("PUT /db", ""),
    (
        "POST /db/_bulk_docs",
        r#"{"docs":[{"_id":"_design/d","_rev":"1-d","indexes":{"v":{"fields":["v"]}}}],"new_edits":false}"#,
    ),
    ("PUT /db/m", r#"{"v":5,"w":6}"#),
    ("PUT /db/_local/l", r#"{"at":1}"#),
];

/// What the index shows, and its reply.
pub const VIEW: (&str, &str) = (
    "GET /db/_design/d/_view/v",
    r#"200 {"offset":0,"rows":[{"id":"m","key":[5],"value":null}],"total_rows":1}"#,
);

/// Makes the tables that hold the filling those of version 1: a number in a key takes eight bytes.
pub fn turn_back<S: Alter + Drop>(conn: &mut Connection<S>) -> Result<(), Fail> {
    let entries = conn.execute("UPDATE entries SET k = X'0604800000000000000500'", &[])?;
    let versions = conn.execute("UPDATE meta SET version = 1", &[])?;
    if entries != 1 || versions != 1 {
        return Err(Fail::from("not turned back"));
    }
    Ok(())
}

/// Returns tables of version 1 in memory.
fn first_version(alloc: Global) -> Result<Connection<MemStore>, Fail> {
    let conn = Connection::open_in_memory(alloc)?;
    let Ok(store) = SqlStore::open(alloc, conn) else {
        return Err(Fail::from("not opened"));
    };
    let mut node = node(alloc, store)?;
    for (line, body) in FILLING {
        let told = reply_to(alloc, &mut node, &root_request(alloc, line, body)?)?;
        if !told.as_str().starts_with("201") {
            return Err(Fail::from("not written"));
        }
    }
    let mut conn = node.into_store().close();
    turn_back(&mut conn)?;
    Ok(conn)
}

/// Opens a store, and once more where memory ran out.
fn open_again(alloc: Global, conn: Connection<MemStore>) -> Result<SqlStore<MemStore>, Fail> {
    let conn = match SqlStore::open(alloc, conn) {
        Ok(store) => return Ok(store),
        Err((OpenFault::Memory, conn)) => conn,
        Err((fault, _conn)) => return Err(Fail::from(fault)),
    };
    match SqlStore::open(alloc, conn) {
        Ok(store) => Ok(store),
        Err((fault, _conn)) => Err(Fail::from(fault)),
    }
}

/// Returns what the index of a store shows, asked once more where memory ran out.
fn view_again(alloc: Global, store: SqlStore<MemStore>) -> Result<String, Fail> {
    let request = root_request(alloc, VIEW.0, "")?;
    let mut node = node(alloc, store)?;
    let told = reply_to(alloc, &mut node, &request)?;
    if told.as_str().starts_with("503") {
        return reply_to(alloc, &mut node, &request);
    }
    Ok(told)
}

/// Tables of version 1 are carried over as they are opened, or memory runs out and they are as they were.
#[test]
fn each_allocation_of_carrying_over(rt: HostRuntime) -> Result<(), Fail> {
    let alloc = rt.alloc();
    let conn = match first_version(alloc) {
        Ok(conn) => conn,
        Err(fail) => return tell(&rt, fail),
    };
    let store = open_again(alloc, conn)?;
    match view_again(alloc, store) {
        Ok(told) => {
            assert_eq!(rt; told.as_str(), VIEW.1);
            Ok(())
        }
        Err(fail) => tell(&rt, fail),
    }
}
