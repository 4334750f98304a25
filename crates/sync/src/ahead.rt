//! Requests that are sent over a connection ahead of their turn (RFC 9112, section 9.3.2).

ghost use Rattle.std.specs.Prelude.{◌≡◌, ◌++◌, ◌∷◌, [], ℕ, List, IfOk, OnOk, drop, map, true};
ghost use Rattle.couch_http.specs.Message.{message_of};
ghost use Rattle.couch_http.specs.RequestText.{request_text};
ghost use Rattle.sync.specs.Sending.{IsQueued, awaited_of};

use couch_http::{Request, request_bytes};
use couch_json::Got;
use std::alloc::Global;
use std::collections::VecDeque;

/// How many requests are sent ahead at most, behind the one that is asked.
pub const MOST_AHEAD: usize = 15;

/// How many bytes are sent at most with requests ahead of their turn. A server takes in as many while nobody
/// reads its replies.
const MOST_BYTES: usize = 32_768;

/// The requests that were sent over a connection and whose replies weren't read yet.
#[derive(Drop)]
pub struct Ahead {
    requests: VecDeque<Vec<u8>>,
}

impl Ahead {
    /// Makes a queue without requests.
    pub fn new(alloc: Global) -> Ahead
        ensures { awaited_of result ≡ [] }
    {
        Ahead {
            requests: VecDeque::new(alloc),
        }
    }

    /// Tells whether no reply is awaited.
    pub fn is_empty(&self) -> bool
        ensures { result ≡ true → awaited_of self.now ≡ [] }
    {
        self.requests.is_empty()
    }

    /// Tells whether the reply that comes next is that to a request.
    pub fn awaits(&self, request: &[u8]) -> bool
        ensures { result ≡ true → (rest : List (List ℕ)) × (awaited_of self.now ≡ request.now ∷ rest) }
    {
        match self.requests.front() {
            Some(first) => first.as_slice() == request,
            None => false,
        }
    }

    /// Takes out the request whose reply comes next.
    pub fn begin_reply(&mut self)
        ensures { awaited_of self.new ≡ drop 1 (awaited_of self.old) }
    {
        drop(self.requests.pop_front());
    }

    /// Returns the bytes of a request and of those that come next, one behind another, and awaits the replies to
    /// the latter. These are left out from where they have over 32,768 bytes in all.
    pub fn queue(&mut self, alloc: Global, first: &Request, next: &[Request]) -> Got<Vec<u8>>
        ensures { IfOk result (λ bytes. IsQueued (request_text (message_of first.now)) (map (λ r. request_text (message_of r)) next.now)
            (awaited_of self.old) (awaited_of self.new) bytes.items) }
    {
        let mut bytes = request_bytes(alloc, first)?;
        for request in next {
            let text = request_bytes(alloc, request)?;
            if bytes.len().saturating_add(text.len()) > MOST_BYTES {
                return Ok(bytes);
            }
            self.push(&mut bytes, text)?;
        }
        Ok(bytes)
    }

    /// Adds a request, and its bytes behind those of others.
    fn push(&mut self, bytes: &mut Vec<u8>, request: Vec<u8>) -> Got<()>
        ensures awaited { OnOk result (awaited_of self.new ≡ awaited_of self.old ++ request.items ∷ []) }
        ensures bytes { OnOk result (bytes.new.items ≡ bytes.old.items ++ request.items) }
    {
        bytes.extend_from_slice(&request)?;
        self.requests.push_back(request)?;
        Ok(())
    }
}
