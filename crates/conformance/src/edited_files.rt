//! Files in which somebody edited a row, or took one out.

use crate::first_version::turn_back;
use crate::local_client::{DESIGN, FAILED, node, reply, reply_to, root_request};
use sqlite::{Connection, MemStore};
use sqlstore::{OpenFault, SqlStore};
use std::alloc::Global;
use std::test::Fail;

/// What the admin `root` writes: a public database with a rule and an index, and a document in it, and a
/// document in a database without them.
const FILLING: [(&str, &str); 6] = [
    ("PUT /db", ""),
    ("PUT /db/_security", "{}"),
    ("PUT /db/_design/d", DESIGN),
    ("PUT /db/a", r#"{"v":1}"#),
    ("PUT /plain", ""),
    ("PUT /plain/b", "{}"),
];

/// The row of the one revision of `a` names another.
const LOST: &str = "UPDATE revs SET hash = '-' WHERE id = X'61'";

/// That of the design document does.
const UNRULED: &str = "UPDATE revs SET hash = '-' WHERE id = X'5F64657369676E2F64'";

/// Statements that edit one row or two, each with a request of nobody, and the reply to it.
const EDITS: [(&str, &str, &str, &str); 32] = [
    (
        "UPDATE meta SET version = 2",
        "GET /db/a",
        "",
        r#"200 {"_id":"a","_rev":"1-16dd5aa7b10d32bc038d45f5c7f9f929","v":1}"#,
    ),
    (
        "UPDATE meta SET version = 2",
        "PUT /db/b",
        r#"{"bad":1}"#,
        r#"401 {"error":"unauthorized","reason":"Refused by an update rule.","rule":"_design/d"}"#,
    ),
    (LOST, "GET /db/a", "", FAILED),
    (
        LOST,
        "GET /db/_all_docs",
        "",
        "200 {\"offset\":0,\"rows\":[{\"id\":\"_design/d\",\"key\":\"_design/d\",\
         \"value\":{\"rev\":\"1-4a114e824011d01f256fd0c1b103c330\"}},{\"id\":\"a\",\"key\":\"a\",\
         \"value\":{\"rev\":\"1-16dd5aa7b10d32bc038d45f5c7f9f929\"}}],\"total_rows\":2}",
    ),
    (
        LOST,
        "GET /db/a?rev=1-16dd5aa7b10d32bc038d45f5c7f9f929",
        "",
        FAILED,
    ),
    (
        LOST,
        "GET /db/a?rev=1-x",
        "",
        r#"404 {"error":"not_found","reason":"missing"}"#,
    ),
    (
        LOST,
        "GET /db/z",
        "",
        r#"404 {"error":"not_found","reason":"missing"}"#,
    ),
    (LOST, "GET /db/a?open_revs=all", "", FAILED),
    (LOST, "GET /db/a?revs=true", "", FAILED),
    (LOST, "POST /db/_revs_diff", r#"{"a":["1-x"]}"#, FAILED),
    (LOST, "POST /db/_find", r#"{"selector":{"v":1}}"#, FAILED),
    (LOST, "POST /db/_find", r#"{"selector":{}}"#, FAILED),
    (
        LOST,
        "PUT /db/a?rev=1-16dd5aa7b10d32bc038d45f5c7f9f929",
        r#"{"v":2}"#,
        FAILED,
    ),
    (
        LOST,
        "DELETE /db/a?rev=1-16dd5aa7b10d32bc038d45f5c7f9f929",
        "",
        FAILED,
    ),
    (
        LOST,
        "POST /db/_bulk_docs",
        r#"{"docs":[{"_id":"a","_rev":"1-y"}],"new_edits":false}"#,
        FAILED,
    ),
    (
        "UPDATE revs SET hash = 'x' WHERE id = X'61'",
        "GET /db/a?open_revs=all",
        "",
        FAILED,
    ),
    (
        "UPDATE revs SET hash = 'x' WHERE id = X'61'",
        "POST /db/_bulk_docs",
        r#"{"docs":[{"_id":"a","_rev":"1-y"}],"new_edits":false}"#,
        FAILED,
    ),
    ("DELETE FROM revs WHERE id = X'61'", "GET /db/a", "", FAILED),
    (
        "DELETE FROM revs WHERE id = X'61'",
        "GET /db/a?open_revs=all",
        "",
        FAILED,
    ),
    (
        "DELETE FROM revs WHERE id = X'61'",
        "PUT /db/a?rev=1-16dd5aa7b10d32bc038d45f5c7f9f929",
        r#"{"v":2}"#,
        FAILED,
    ),
    (
        "UPDATE revs SET held = 0 WHERE id = X'61'",
        "GET /db/a",
        "",
        FAILED,
    ),
    (
        "UPDATE revs SET held = 0 WHERE id = X'61'",
        "GET /db/a?rev=1-16dd5aa7b10d32bc038d45f5c7f9f929",
        "",
        FAILED,
    ),
    (
        "UPDATE revs SET del = 1 WHERE id = X'61'",
        "GET /db/a",
        "",
        FAILED,
    ),
    (
        "UPDATE docs SET del = 1 WHERE id = X'61'",
        "GET /db/a",
        "",
        FAILED,
    ),
    (
        "UPDATE docs SET winner = '1-x' WHERE id = X'61'",
        "GET /db/a",
        "",
        FAILED,
    ),
    (UNRULED, "PUT /db/b", r#"{"bad":1}"#, FAILED),
    (UNRULED, "PUT /db/b", "{}", FAILED),
    (UNRULED, "GET /db/_design/d", "", FAILED),
    (UNRULED, "GET /db/_design/d/_view/v", "", FAILED),
    (
        "UPDATE revs SET held = 0 WHERE id = X'5F64657369676E2F64'",
        "PUT /db/b",
        r#"{"bad":1}"#,
        FAILED,
    ),
    (
        "UPDATE revs SET del = 1 WHERE id = X'5F64657369676E2F64'",
        "PUT /db/b",
        r#"{"bad":1}"#,
        FAILED,
    ),
    (
        "DELETE FROM revs WHERE id = X'5F64657369676E2F64'",
        "PUT /db/b",
        r#"{"bad":1}"#,
        FAILED,
    ),
];

/// Requests of the admin `root`, after the row of the design document, or of `a`, was edited so.
const ADMIN_EDITS: [(&str, &str, &str); 3] = [
    (
        UNRULED,
        "POST /db/_index",
        r#"{"ddoc":"d","index":{"fields":["w"]},"name":"w"}"#,
    ),
    (
        "UPDATE revs SET held = 0 WHERE id = X'5F64657369676E2F64'",
        "POST /db/_index",
        r#"{"ddoc":"d","index":{"fields":["w"]},"name":"w"}"#,
    ),
    (
        LOST,
        "PUT /db/_design/e",
        r#"{"indexes":{"w":{"fields":["w"]}}}"#,
    ),
];

/// Statements after which the tables are not a store.
const REFUSED: [&str; 5] = [
    "UPDATE meta SET version = 7",
    "DELETE FROM meta",
    "INSERT INTO meta (version) VALUES (2)",
    "DROP TABLE entries",
    "BEGIN",
];

/// Returns tables in memory that hold the filling.
fn fill_tables(alloc: Global) -> Result<Connection<MemStore>, Fail> {
    let store = open_store(alloc, Connection::open_in_memory(alloc)?)?;
    let mut node = node(alloc, store)?;
    for (line, body) in FILLING {
        let told = reply_to(alloc, &mut node, &root_request(alloc, line, body)?)?;
        if !told.as_str().starts_with("20") {
            return Err(Fail::from("not written"));
        }
    }
    Ok(node.into_store().close())
}

/// Returns the same after a statement.
fn edit_tables(alloc: Global, sql: &str) -> Result<Connection<MemStore>, Fail> {
    let mut conn = fill_tables(alloc)?;
    let _count = conn.execute(sql, &[])?;
    Ok(conn)
}

/// Opens a store.
fn open_store(alloc: Global, conn: Connection<MemStore>) -> Result<SqlStore<MemStore>, Fail> {
    match SqlStore::open(alloc, conn) {
        Ok(store) => Ok(store),
        Err((fault, _conn)) => Err(Fail::from(fault)),
    }
}

/// Returns why a store is not opened, if it isn't.
fn refusal(alloc: Global, conn: Connection<MemStore>) -> Option<OpenFault> {
    match SqlStore::open(alloc, conn) {
        Ok(_store) => None,
        Err((fault, _conn)) => Some(fault),
    }
}

/// A row that is gone is told as a failure of the store, and never as missing; a rule whose design document
/// lost its row takes no write. The store is opened all the same.
#[test]
fn edited_file(rt: HostRuntime) -> Result<(), Fail> {
    let alloc = rt.alloc();
    for (sql, line, body, wanted) in EDITS {
        let mut node = node(alloc, open_store(alloc, edit_tables(alloc, sql)?)?)?;
        assert_eq!(rt;
            reply(alloc, &mut node, line, body)?.as_str(),
            wanted,
            "{sql}: {line} {body}"
        );
    }
    for (sql, line, body) in ADMIN_EDITS {
        let mut node = node(alloc, open_store(alloc, edit_tables(alloc, sql)?)?)?;
        let request = root_request(alloc, line, body)?;
        assert_eq!(rt;
            reply_to(alloc, &mut node, &request)?.as_str(),
            FAILED,
            "{sql}: {line}"
        );
    }
    Ok(())
}

/// Tables that are not a store, of either version, are told not to be ours; others are given those of a store.
#[test]
fn tables_of_others(rt: HostRuntime) -> Result<(), Fail> {
    let alloc = rt.alloc();
    for sql in REFUSED {
        assert_eq!(rt;
            refusal(alloc, edit_tables(alloc, sql)?),
            Some(OpenFault::NotOurs),
            "{sql}"
        );
    }
    let mut conn = fill_tables(alloc)?;
    turn_back(&mut conn)?;
    assert_eq!(rt; refusal(alloc, conn), None);
    for sql in [
        LOST,
        UNRULED,
        "DELETE FROM revs WHERE id = X'61'",
        "UPDATE revs SET held = 0 WHERE id = X'61'",
        "UPDATE docs SET winner = '-' WHERE id = X'61'",
        "UPDATE revs SET hash = '-' WHERE id = X'62'",
        "DELETE FROM revs WHERE id = X'62'",
    ] {
        let mut conn = edit_tables(alloc, sql)?;
        turn_back(&mut conn)?;
        assert_eq!(rt; refusal(alloc, conn), Some(OpenFault::NotOurs), "{sql}");
    }
    let mut conn = Connection::open_in_memory(alloc)?;
    let _count = conn.execute("CREATE TABLE other (x INTEGER)", &[])?;
    let mut node = node(alloc, open_store(alloc, conn)?)?;
    let request = root_request(alloc, "GET /_all_dbs", "")?;
    assert_eq!(rt; reply_to(alloc, &mut node, &request)?.as_str(), "200 []");
    Ok(())
}
