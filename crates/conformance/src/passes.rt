//! Passes as `couchd sync` plays them.

use crate::local_client::{node, reply, store};
use auth::Auth;
use couch_http::{Cutter, Request};
use couch_json::Got;
use node::{Node, Routes};
use repl::{Batch, Config, Replication};
use std::alloc::Global;
use std::test::Fail;
use store::PlainStore;
use sync::{Answer, Remote, Side, Unwatched, sync_pass, sync_sides};
use world::World;

/// A design document that takes no document with a member `bad`, as an admin puts it.
const RULE: &[u8] =
    b"PUT /db/_design/g HTTP/1.1\r\nX-Auth-CouchDB-UserName: root\r\nX-Auth-CouchDB-Token: \
160a499b3e61e4772a8874ed075f1ae84e9c342ac24d75151e0bd3cd76e1b6fb\r\nContent-Length: 56\r\n\r\n\
{\"validate_doc_update\":{\"newDoc.bad\":{\"$exists\":false}}}";

/// Returns what a pass from `from` to `db` is told.
fn config(alloc: Global, from: &str) -> Result<Config, Fail> {
    Ok(Config {
        source: String::from_str(alloc, "A")?,
        source_db: String::from_str(alloc, from)?,
        target: String::from_str(alloc, "B")?,
        target_db: String::from_str(alloc, "db")?,
        user: None,
        session: String::from_str(alloc, "S1")?,
        batch: Batch::new(2),
        is_from_start: false,
    })
}

/// Returns a node with the documents a, b and c in `db`, of which b has a member `bad`.
fn source(alloc: Global) -> Result<Node<PlainStore>, Fail> {
    let mut source = node(alloc, store(alloc)?)?;
    for (line, body) in [
        ("PUT /db/a", "{}"),
        ("PUT /db/b", r#"{"bad":1}"#),
        ("PUT /db/c", "{}"),
    ] {
        let _ = reply(alloc, &mut source, line, body)?;
    }
    Ok(source)
}

/// Returns a node whose `db` has the rule.
fn target_with_rule(alloc: Global) -> Result<Node<PlainStore>, Fail> {
    let auth = Auth::new(alloc, b"Jefe", &[String::from_str(alloc, "root")?])?;
    let mut target = Node::new(alloc, store(alloc)?, auth, Routes::new(alloc)?);
    let mut cutter = Cutter::new(alloc);
    let mut cut = cutter.feed(RULE)?;
    let request = cut.requests.pop().ok_or("no request")?;
    if target.handle(&request).status() == 201 {
        Ok(target)
    } else {
        Err(Fail::from("no rule"))
    }
}

/// Plays a pass between two nodes, and returns its status and what it printed.
fn pass_between(
    alloc: Global,
    source: Node<PlainStore>,
    target: Node<PlainStore>,
    from: &str,
) -> Result<(u8, String), Fail> {
    let mut nodes = Vec::new(alloc);
    nodes.push(source)?;
    nodes.push(target)?;
    let mut world = World::new(alloc, nodes);
    let repl = world.start(config(alloc, from)?, 0, 1)?;
    let mut out = Vec::new(alloc);
    let status = sync_pass(alloc, &mut world, repl, &mut out)?;
    Ok((status, String::from_utf8(out)?))
}

/// All three documents come over, in two rounds.
#[test]
fn a_pass_that_refuses_nothing_has_status_0(rt: HostRuntime) -> Result<(), Fail> {
    let alloc = rt.alloc();
    let (status, said) = pass_between(alloc, source(alloc)?, node(alloc, store(alloc)?)?, "db")?;
    assert_eq!(rt; status, 0);
    assert_eq!(rt;
        said.as_str(),
        "{\"last_seq\":3,\"refused\":[],\"sent\":3,\"start_seq\":0}\n"
    );
    Ok(())
}

/// The target's rule refuses one of them.
#[test]
fn a_pass_with_a_document_refused_has_status_3(rt: HostRuntime) -> Result<(), Fail> {
    let alloc = rt.alloc();
    let (status, said) = pass_between(alloc, source(alloc)?, target_with_rule(alloc)?, "db")?;
    assert_eq!(rt; status, 3);
    assert!(rt;
        said.as_str().starts_with(
            "{\"last_seq\":3,\"refused\":[{\"error\":\"unauthorized\",\"id\":\"b\","
        ),
        "{said}"
    );
    Ok(())
}

/// There is no source database.
#[test]
fn a_pass_that_stops_has_status_4(rt: HostRuntime) -> Result<(), Fail> {
    let alloc = rt.alloc();
    let (status, said) = pass_between(alloc, source(alloc)?, node(alloc, store(alloc)?)?, "none")?;
    assert_eq!(rt; status, 4);
    assert_eq!(rt;
        said.as_str(),
        "stopped status 404 {\"last_seq\":0,\"refused\":[],\"sent\":0,\"start_seq\":0}\n"
    );
    Ok(())
}

/// A server in memory, of whose replies one is lost, or all from it on.
#[derive(Drop)]
struct Losing {
    node: Node<PlainStore>,
    left: u32,
    is_gone: bool,
}

impl Side for Losing {
    fn foresees(&self) -> bool {
        false
    }

    fn answer(&mut self, _alloc: Global, request: &Request, _next: &[Request]) -> Got<Answer> {
        let response = self.node.handle(request);
        if self.left == 0 {
            if !self.is_gone {
                self.left = 1_000;
            }
            return Ok(Answer::Lost);
        }
        self.left -= 1;
        Ok(Answer::Reply(response))
    }
}

/// Plays a pass to a server that loses replies, and returns its status and what it printed.
fn pass_to(alloc: Global, left: u32, is_gone: bool) -> Result<(u8, String), Fail> {
    let mut server = Remote::new(Losing {
        node: node(alloc, store(alloc)?)?,
        left,
        is_gone,
    });
    let mut source = source(alloc)?;
    let mut pass = Replication::new(alloc, config(alloc, "db")?)?;
    let mut out = Vec::new(alloc);
    let status = sync_sides(
        alloc,
        &mut source,
        &mut server,
        &mut pass,
        &mut out,
        &mut Unwatched,
    )?;
    Ok((status, String::from_utf8(out)?))
}

/// Whichever reply of the server is lost, the same comes of the pass.
#[test]
fn a_lost_reply_is_asked_for_again(rt: HostRuntime) -> Result<(), Fail> {
    let alloc = rt.alloc();
    for left in 0..8 {
        let (status, said) = pass_to(alloc, left, false)?;
        assert_eq!(rt; status, 0);
        let sent = said.as_str();
        assert!(rt;
            sent.starts_with("{\"last_seq\":3,\"refused\":[],"),
            "{sent}"
        );
    }
    Ok(())
}

/// A server that replies no more ends the pass at the 101st loss.
#[test]
fn a_server_that_is_gone_stops_the_pass(rt: HostRuntime) -> Result<(), Fail> {
    let alloc = rt.alloc();
    let (status, said) = pass_to(alloc, 3, true)?;
    assert_eq!(rt; status, 4);
    assert!(rt; said.as_str().starts_with("stopped lost "), "{said}");
    Ok(())
}
