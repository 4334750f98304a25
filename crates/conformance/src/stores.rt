use crate::local_client::{
    DESIGN, FAILED, node, reply, reply_to, request_with, root_request, show_all, store,
};
use crate::worked_rows::BULK;
use std::alloc::Global;
use std::test::Fail;
use store::{DbName, FailStore, FullStore, PlainStore, Store};

/// Requests of the admin `root`, and their replies, said by `tools/model.py`. The first is a bulk with a
/// refusal, a conflict, and two documents that are written.
const REQUESTS: [(&str, &str, &str); 16] = [
    (
        "POST /db/_bulk_docs",
        r#"{"docs":[{"_id":"b","bad":1},{"_id":"a","v":9},{"_id":"c","v":1},{"_id":"d","v":2}]}"#,
        "201 [{\"error\":\"forbidden\",\"id\":\"b\",\"reason\":\"Refused by an update rule.\",\"rule\":\"_design/d\"},\
         {\"error\":\"conflict\",\"id\":\"a\",\"reason\":\"Document update conflict.\"},{\"id\":\"c\",\"ok\":true,\
         \"rev\":\"1-16dd5aa7b10d32bc038d45f5c7f9f929\"},{\"id\":\"d\",\"ok\":true,\"rev\":\"1-d04dee28564c4bc58752cca93ab2ecf9\"}]",
    ),
    (
        "POST /db/_bulk_docs",
        r#"{"docs":[{"_id":"a","_rev":"1-x","v":7},{"_id":"e","_rev":"1-y","bad":1}],"new_edits":false}"#,
        r#"201 [{"error":"forbidden","id":"e","reason":"Refused by an update rule.","rev":"1-y","rule":"_design/d"}]"#,
    ),
    (
        "PUT /db/c",
        r#"{"v":1}"#,
        r#"201 {"id":"c","ok":true,"rev":"1-16dd5aa7b10d32bc038d45f5c7f9f929"}"#,
    ),
    (
        "DELETE /db/a?rev=1-16dd5aa7b10d32bc038d45f5c7f9f929",
        "",
        r#"200 {"id":"a","ok":true,"rev":"2-53e6c157d673d4e7929da524e4eb7dc6"}"#,
    ),
    (
        "PUT /db/_design/e",
        r#"{"indexes":{"w":{"fields":["w"]}}}"#,
        r#"201 {"id":"_design/e","ok":true,"rev":"1-139eff99f3d1ccf36dc6ef2e8ed3e656"}"#,
    ),
    (
        "PUT /db/_local/l",
        r#"{"at":1}"#,
        r#"201 {"id":"_local/l","ok":true,"rev":"0-1"}"#,
    ),
    (
        "PUT /db/_security",
        r#"{"members":{"names":["bob"]}}"#,
        r#"200 {"ok":true}"#,
    ),
    ("PUT /new", "", r#"201 {"ok":true}"#),
    ("DELETE /other", "", r#"200 {"ok":true}"#),
    (
        "GET /db/a?revs=true",
        "",
        r#"200 {"_id":"a","_rev":"1-16dd5aa7b10d32bc038d45f5c7f9f929","_revisions":{"ids":["16dd5aa7b10d32bc038d45f5c7f9f929"],"start":1},"v":1}"#,
    ),
    (
        "GET /db/a?open_revs=all",
        "",
        r#"200 [{"ok":{"_id":"a","_rev":"1-16dd5aa7b10d32bc038d45f5c7f9f929","v":1}}]"#,
    ),
    (
        "GET /db/_changes?style=all_docs",
        "",
        "200 {\"last_seq\":2,\"results\":[{\"changes\":[{\"rev\":\"1-4a114e824011d01f256fd0c1b103c330\"}],\"id\":\"_design/d\",\
         \"seq\":1},{\"changes\":[{\"rev\":\"1-16dd5aa7b10d32bc038d45f5c7f9f929\"}],\"id\":\"a\",\"seq\":2}]}",
    ),
    (
        "GET /db/_all_docs",
        "",
        "200 {\"offset\":0,\"rows\":[{\"id\":\"_design/d\",\"key\":\"_design/d\",\
         \"value\":{\"rev\":\"1-4a114e824011d01f256fd0c1b103c330\"}},{\"id\":\"a\",\"key\":\"a\",\
         \"value\":{\"rev\":\"1-16dd5aa7b10d32bc038d45f5c7f9f929\"}}],\"total_rows\":2}",
    ),
    (
        "GET /db/_design/d/_view/v",
        "",
        r#"200 {"offset":0,"rows":[{"id":"a","key":[1],"value":null}],"total_rows":1}"#,
    ),
    (
        "POST /db/_find",
        r#"{"selector":{"v":{"$gt":0}},"sort":["v"]}"#,
        r#"200 {"bookmark":"nil","docs":[{"_id":"a","_rev":"1-16dd5aa7b10d32bc038d45f5c7f9f929","v":1}]}"#,
    ),
    (
        "POST /db/_revs_diff",
        r#"{"a":["1-x"]}"#,
        r#"200 {"a":{"missing":["1-x"]}}"#,
    ),
];

/// Returns a store with a design document and a document.
fn fill_store(alloc: Global) -> Result<PlainStore, Fail> {
    let mut node = node(alloc, store(alloc)?)?;
    for (line, body) in [("PUT /db/_design/d", DESIGN), ("PUT /db/a", r#"{"v":1}"#)] {
        if node.handle(&root_request(alloc, line, body)?).status() != 201 {
            return Err(Fail::from("not written"));
        }
    }
    Ok(node.into_store())
}

/// Whichever call of the store fails: the reply is the wanted one, or 500. After a 500 nothing has
/// changed, and the same request has the wanted reply.
#[test]
fn each_store_call(rt: HostRuntime) -> Result<(), Fail> {
    let alloc = rt.alloc();
    for (line, body, wanted) in REQUESTS {
        let request = root_request(alloc, line, body)?;
        let mut whole = node(alloc, fill_store(alloc)?)?;
        let before = show_all(alloc, &mut whole)?;
        assert_eq!(rt;
            reply_to(alloc, &mut whole, &request)?.as_str(),
            wanted,
            "{line}"
        );
        let after = show_all(alloc, &mut whole)?;
        let mut failures = 0;
        for k in 1..1_000 {
            let mut failing = node(alloc, FailStore::new(fill_store(alloc)?, k))?;
            let mut told = reply_to(alloc, &mut failing, &request)?;
            let store = failing.into_store();
            if store.faults() == 0 {
                break;
            }
            failures = k;
            let mut failing = node(alloc, store)?;
            if told.as_str() == FAILED {
                assert_eq!(rt; show_all(alloc, &mut failing)?, before, "{line}, call {k}");
                told = reply_to(alloc, &mut failing, &request)?;
            }
            assert_eq!(rt; told.as_str(), wanted, "{line}, call {k}");
            assert_eq!(rt; show_all(alloc, &mut failing)?, after, "{line}, call {k}");
            assert_eq!(rt; failing.into_store().faults(), 1);
        }
        assert!(rt;
            failures > 0 && failures < 900,
            "{line}: {failures} failures"
        );
    }
    Ok(())
}

/// A write to the full database is refused, and changes nothing; another database takes writes.
#[test]
fn a_full_database_refuses_writes_to_it_alone(rt: HostRuntime) -> Result<(), Fail> {
    let alloc = rt.alloc();
    let full = DbName::new(alloc, "db")?;
    let mut node = node(alloc, FullStore::new(store(alloc)?, full))?;
    for (line, body, expected) in [
        ("PUT /db/a", "{}", FAILED),
        ("POST /db/_bulk_docs", r#"{"docs":[{"_id":"b"}]}"#, FAILED),
        (
            "GET /db",
            "",
            r#"200 {"db_name":"db","doc_count":0,"doc_del_count":0,"update_seq":0}"#,
        ),
        (
            "PUT /other/a",
            "{}",
            r#"201 {"id":"a","ok":true,"rev":"1-d2422118a02a398f9502ebcbaa7b90bd"}"#,
        ),
    ] {
        assert_eq!(rt;
            reply(alloc, &mut node, line, body)?.as_str(),
            expected,
            "{line}"
        );
    }
    Ok(())
}

/// Returns a store with the design document of the bulk of `worked_rows`.
fn store_before_bulk(alloc: Global) -> Result<PlainStore, Fail> {
    let mut node = node(alloc, store(alloc)?)?;
    let (user, line, body, status, _wanted) = BULK[0];
    if node
        .handle(&request_with(alloc, line, user, body)?)
        .status()
        != status
    {
        return Err(Fail::from("not written"));
    }
    Ok(node.into_store())
}

/// Whichever call of the store fails in a bulk: its reply is the wanted one, or 500. After a 500 the
/// database has its one document, and the same bulk has the wanted reply.
#[test]
fn each_store_call_of_a_bulk(rt: HostRuntime) -> Result<(), Fail> {
    let alloc = rt.alloc();
    let (user, line, body, _status, wanted) = BULK[1];
    let bulk = request_with(alloc, line, user, body)?;
    let mut failures = 0;
    for k in 1..1_000 {
        let mut failing = node(alloc, FailStore::new(store_before_bulk(alloc)?, k))?;
        let told = reply_to(alloc, &mut failing, &bulk)?;
        let store = failing.into_store();
        if store.faults() == 0 {
            break;
        }
        failures = k;
        let mut failing = node(alloc, store)?;
        if told.as_str() == FAILED {
            assert_eq!(rt;
                reply(alloc, &mut failing, "GET /db", "")?.as_str(),
                r#"200 {"db_name":"db","doc_count":1,"doc_del_count":0,"update_seq":1}"#,
                "call {k}"
            );
            let again = failing.handle(&bulk);
            assert_eq!(rt; again.body(), wanted, "call {k}");
        } else {
            assert_eq!(rt;
                told.as_bytes().strip_prefix(b"201 "),
                Some(wanted),
                "call {k}"
            );
        }
    }
    assert!(rt; failures > 0 && failures < 900, "{failures} failures");
    Ok(())
}
