use couch_http::Response;
use std::alloc::Global;
use std::marker::Model;

/// How many bytes a connection may be owed at most.
const MOST: usize = 67_108_864;

/// How much room is kept once all were taken.
const KEPT: usize = 8_192;

/// The bytes that a connection is still to take: 64 MiB at most.
///
/// In clauses it is their list.
#[derive(Drop)]
pub struct Backlog {
    bytes: Vec<u8>,
    taken: usize,
}

impl Model for Backlog {
    ghost use Rattle.std.specs.Prelude.{ℕ, List, ◌≤◌, drop, vec_len};
    ghost use Rattle.engine.specs.Standing.{greatest_owed};

    ghost Value = { List ℕ };

    ghost view = { λ o. drop o.taken o.bytes.items };

    ghost invariant = { λ o. (o.taken ≤ vec_len o.bytes) × (vec_len o.bytes ≤ greatest_owed) };
}

impl Backlog {
    ghost use Rattle.std.specs.Prelude.{◌≡◌, ◌≤◌, [], ◌++◌, true, false, length, drop};
    ghost use Rattle.hub.specs.Service.{bytes_of};
    ghost use Rattle.engine.specs.Standing.{greatest_owed};

    /// Makes an empty backlog. Takes no memory.
    pub fn new(alloc: Global) -> Backlog
        ensures { result ≡ [] }
    {
        Backlog {
            bytes: Vec::new(alloc),
            taken: 0,
        }
    }

    /// Returns how many bytes are left.
    pub fn len(&self) -> usize
        ensures count { result ≡ length self.now }
        ensures bound { result ≤ greatest_owed }
    {
        self.bytes.len() - self.taken
    }

    /// Returns the bytes that are left.
    pub fn bytes(&self) -> &[u8]
        ensures { result.now ≡ self.now }
    {
        &self.bytes[self.taken..]
    }

    /// Adds bytes. Where there would be too many, or memory runs out, nothing changes, and the answer is
    /// false.
    pub fn add(&mut self, bytes: &[u8]) -> bool
        ensures added { result ≡ true → self.new ≡ self.old ++ bytes.now }
        ensures refused { result ≡ false → self.new ≡ self.old }
        ensures bound { length self.new ≤ greatest_owed }
    {
        if bytes.len() > MOST - self.bytes.len() {
            return false;
        }
        self.bytes.extend_from_slice(bytes).is_ok()
    }

    /// Adds the bytes of replies. Where there would be too many, or memory runs out, the answer is false,
    /// and some may be added.
    pub fn add_all(&mut self, replies: &[Response]) -> bool
        ensures bound { length self.old ≤ greatest_owed → length self.new ≤ greatest_owed }
        ensures added { result ≡ true → self.new ≡ self.old ++ bytes_of replies.now }
    {
        for reply in replies {
            if !self.add(reply.bytes()) {
                return false;
            }
        }
        true
    }

    /// Takes the first of them away.
    pub fn take(&mut self, count: usize)
        requires { count ≤ length self.old }
        ensures { self.new ≡ drop count self.old }
    {
        let taken = self.taken + count;
        if taken == self.bytes.len() {
            self.bytes.clear();
            self.bytes.shrink_to(KEPT);
            self.taken = 0;
        } else {
            self.taken = taken;
        }
    }
}
