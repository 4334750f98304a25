//! Who has the next turn.

use std::alloc::Global;
use std::collections::VecDeque;

/// Where a connection waits for its turn.
#[derive(Clone, Copy)]
pub(crate) enum Place {
    /// With those that are newly ready, which go first.
    Ready,
    /// With those whose last turn may go on.
    Again,
    /// Behind the others, where much became owed by its last piece.
    Behind,
}

/// The connections that have a turn to come, by their numbers, each where it joined.
#[derive(Drop)]
pub(crate) struct Queues {
    ready: VecDeque<u64>,
    again: VecDeque<u64>,
    behind: VecDeque<u64>,
}

impl Queues {
    /// Makes queues without connections. Takes no memory.
    pub(crate) fn new(alloc: Global) -> Queues {
        Queues {
            ready: VecDeque::new(alloc),
            again: VecDeque::new(alloc),
            behind: VecDeque::new(alloc),
        }
    }

    /// Tells whether no connection has a turn to come.
    pub(crate) fn is_empty(&self) -> bool {
        self.ready.is_empty() && self.again.is_empty() && self.behind.is_empty()
    }

    /// Returns how many have a turn in the next round, but for those behind the others.
    pub(crate) fn count(&self) -> usize {
        self.ready.len().saturating_add(self.again.len())
    }

    /// Adds a connection. The answer is false where memory runs out.
    pub(crate) fn push(&mut self, place: Place, conn: u64) -> bool {
        match place {
            Place::Ready => self.ready.push_back(conn).is_ok(),
            Place::Again => self.again.push_back(conn).is_ok(),
            Place::Behind => self.behind.push_back(conn).is_ok(),
        }
    }

    /// Takes the next one out, but for those behind the others.
    pub(crate) fn take_next(&mut self) -> Option<u64> {
        match self.ready.pop_front() {
            Some(conn) => Some(conn),
            None => self.again.pop_front(),
        }
    }

    /// Takes the first one out of those behind the others.
    pub(crate) fn take_behind(&mut self) -> Option<u64> {
        self.behind.pop_front()
    }
}
