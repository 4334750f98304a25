//! Rows on nodes in memory: requests, and bytes on connections.

use crate::callers::{NO_USER, auth_of};
use crate::fault::{RowsFault, named};
use crate::pages::tell_store;
use crate::pieces::single_bytes;
use crate::playing::Asked;
use crate::texts::{first_word, put_escaped, put_text, unescape};
use couch_json::{Json, NameMap};
use hub::{Connections, Replies};
use lab::LabStore;
use node::{Node, Routes};
use policy::Security;
use std::alloc::Global;
use std::fmt::Write;
use store::{DbName, Store};

/// The nodes of a table, and the connections to them. Each is made at its first use.
///
/// Lines of the head say how each begins. `secret TEXT`, `admin NAME`: its configuration.
/// `public NAME`: a database whose security object is `{}`. `closed NAME`: one with the security object
/// of a new one. `user LABEL | NAME | TOKEN | ROLES`: a user; parts may be missing from the right.
#[derive(Drop)]
pub struct Nodes<S: LabStore> {
    alloc: Global,
    nodes: Vec<Node<S>>,
    connections: Connections,
    opened: u64,
}

impl<S: LabStore> Nodes<S> {
    /// Returns a network without nodes.
    pub fn new(alloc: Global) -> Nodes<S> {
        Nodes {
            alloc,
            nodes: Vec::new(alloc),
            connections: Connections::new(alloc),
            opened: 0,
        }
    }

    /// Begins a table: whatever the tables before it made is gone.
    pub fn begin(&mut self) {
        self.nodes.clear();
        self.connections = Connections::new(self.alloc);
        self.opened = 0;
    }

    /// `USER METHOD TARGET BODY`: the reply's status and body. `B:USER ..` asks node B; the node without
    /// a name is A. The first words that `tell_store` knows ask the store of node A.
    pub fn ask(&mut self, asked: Asked<'_>, out: &mut String) -> Result<(), RowsFault> {
        let (who, rest) = first_word(asked.text());
        if matches!(who, "store" | "seq" | "id" | "key") {
            return self.ask_store(asked, out);
        }
        let (name, user) = who.split_once(':').unwrap_or(("A", who));
        let Some(place) = "ABCDEF".find(name) else {
            return Err(RowsFault::Refused("no such node"));
        };
        let mut request = String::new(asked.alloc);
        put_request(asked.head, user, rest, &mut request)?;
        self.opened = named(self.connections.open(), out)?;
        let replies = self.feed(asked, place, self.opened, request.as_bytes(), out)?;
        for reply in &replies.list {
            write!(out, "{} ", reply.status())?;
            put_text(reply.body(), out)?;
        }
        Ok(())
    }

    /// `N whole PIECE`, `N bytewise PIECE`: bytes on connection N of node A, in one piece or one after
    /// another. The answer is the bytes of all replies, `nothing` where there are none, or the fault.
    pub fn feed_row(&mut self, asked: Asked<'_>, out: &mut String) -> Result<(), RowsFault> {
        let (number, rest) = first_word(asked.text());
        let (way, text) = first_word(rest);
        let Ok(conn) = number.parse::<u64>() else {
            return Err(RowsFault::Refused("no number of a connection"));
        };
        let mut bytes = Vec::new(asked.alloc);
        unescape(text, &mut bytes)?;
        for _number in self.opened..conn {
            self.opened = named(self.connections.open(), out)?;
        }
        match way {
            "whole" => self.feed_shown(asked, conn, &[&bytes], out),
            "bytewise" => {
                let pieces = single_bytes(asked.alloc, &bytes)?;
                self.feed_shown(asked, conn, &pieces, out)
            }
            _ => Err(RowsFault::Refused("neither whole nor bytewise")),
        }
    }

    /// Feeds pieces to node A, and adds the bytes of the replies, with escapes.
    fn feed_shown(
        &mut self,
        asked: Asked<'_>,
        conn: u64,
        pieces: &[&[u8]],
        out: &mut String,
    ) -> Result<(), RowsFault> {
        for piece in pieces {
            for reply in &self.feed(asked, 0, conn, piece, out)?.list {
                put_escaped(asked.alloc, reply.bytes(), out)?;
            }
        }
        if out.is_empty() {
            out.push_str("nothing")?;
        }
        Ok(())
    }

    /// Feeds a piece to the node at a place, and returns what is replied.
    fn feed(
        &mut self,
        asked: Asked<'_>,
        place: usize,
        conn: u64,
        piece: &[u8],
        out: &mut String,
    ) -> Result<Replies, RowsFault> {
        self.add_nodes(asked, place.saturating_add(1), out)?;
        match self.nodes.get_mut(place) {
            Some(node) => named(self.connections.feed(node, conn, piece), out),
            None => Err(RowsFault::Refused("no such node")),
        }
    }

    /// Makes sure that there are so many nodes.
    fn add_nodes(
        &mut self,
        asked: Asked<'_>,
        count: usize,
        out: &mut String,
    ) -> Result<(), RowsFault> {
        for _node in self.nodes.len()..count {
            let mut store = named(S::make(self.alloc), out)?;
            put_databases(asked, &mut store, out)?;
            self.nodes.push(node_over(asked, store)?)?;
        }
        Ok(())
    }

    /// Takes the store out of node A, asks it, and puts a node over it back.
    fn ask_store(&mut self, asked: Asked<'_>, out: &mut String) -> Result<(), RowsFault> {
        self.add_nodes(asked, 1, out)?;
        let Some(node) = self.nodes.pop() else {
            return Err(RowsFault::Refused("no node"));
        };
        if !self.nodes.is_empty() {
            return Err(RowsFault::Refused("several nodes"));
        }
        let mut store = node.into_store();
        let told = tell_store(asked, &mut store, out);
        if asked.text() == "store reopened" {
            store = named(store.reopen(), out)?;
        }
        self.nodes.push(node_over(asked, store)?)?;
        told
    }
}

/// Returns a node over a store.
fn node_over<S: Store + Drop>(asked: Asked<'_>, store: S) -> Result<Node<S>, RowsFault> {
    let auth = auth_of(asked.alloc, asked.head)?;
    let routes = Routes::new(asked.alloc)?;
    Ok(Node::new(asked.alloc, store, auth, routes))
}

/// Makes the databases that each node begins with.
fn put_databases<S: Store>(
    asked: Asked<'_>,
    store: &mut S,
    out: &mut String,
) -> Result<(), RowsFault> {
    for line in asked.head {
        let (word, name) = first_word(line.as_str());
        if matches!(word, "public" | "closed") {
            let name = named(DbName::new(asked.alloc, name), out)?;
            named(store.create(&name), out)?;
            if word == "public" {
                let open = Json::Object(NameMap::new(asked.alloc));
                let open = named(Security::read(asked.alloc, &open), out)?;
                named(store.set_security(&name, &open), out)?;
            }
        }
    }
    Ok(())
}

/// Adds the bytes of a request, in words `METHOD TARGET BODY`.
fn put_request(
    head: &[String],
    user: &str,
    words: &str,
    out: &mut String,
) -> Result<(), RowsFault> {
    let (method, rest) = first_word(words);
    let (target, body) = first_word(rest);
    write!(out, "{method} {target} HTTP/1.1\r\n")?;
    put_user(head, user, out)?;
    let length = body.len();
    write!(out, "Content-Length: {length}\r\n\r\n{body}")?;
    Ok(())
}

/// Adds the header lines of a user; `anybody` has none.
fn put_user(head: &[String], label: &str, out: &mut String) -> Result<(), RowsFault> {
    if label == "anybody" {
        return Ok(());
    }
    for line in head {
        if let Some(user) = line.as_str().strip_prefix("user ") {
            let (known, parts) = user.split_once('|').unwrap_or((user, ""));
            if known.trim_ascii() == label {
                return put_headers(parts, out);
            }
        }
    }
    Err(NO_USER)
}

/// Adds the header lines of `NAME | TOKEN | ROLES`.
fn put_headers(parts: &str, out: &mut String) -> Result<(), RowsFault> {
    let mut parts = parts.split('|');
    for name in ["UserName", "Token", "Roles"] {
        let Some(value) = parts.next() else {
            break;
        };
        let value = value.trim_ascii();
        write!(out, "X-Auth-CouchDB-{name}: {value}\r\n")?;
    }
    Ok(())
}
