//! A stream of which some bytes were read too far.

use couch_json::Got;
use std::alloc::Global;
use std::collections::VecDeque;
use std::io::Read;
use std::{io, mem};

/// A stream that gives first the bytes that were held back, and keeps what it gave last.
#[derive(Drop)]
pub struct Resumed<S> {
    pub stream: S,
    held: VecDeque<u8>,
    last: Vec<u8>,
}

impl<S> Resumed<S> {
    /// Goes on with a stream behind the bytes that were held back.
    pub fn new(alloc: Global, stream: S, held: VecDeque<u8>) -> Resumed<S> {
        Resumed {
            stream,
            held,
            last: Vec::new(alloc),
        }
    }

    /// Takes out what is to be held back of so many of the bytes that were given last, and what is held still.
    pub fn take_back(&mut self, alloc: Global, count: u64) -> Got<VecDeque<u8>> {
        let given = self.last.len() as u64;
        let rest = self.last.split_off(given.saturating_sub(count) as usize)?;
        let mut rest = VecDeque::from_vec(rest);
        let mut held = mem::replace(&mut self.held, VecDeque::new(alloc));
        rest.append(&mut held)?;
        Ok(rest)
    }
}

impl<S: Read> Read for Resumed<S> {
    fn read(&mut self, buf: &mut [u8]) -> io::Result<usize> {
        let count = if self.held.is_empty() {
            self.stream.read(buf)?
        } else {
            self.held.read(buf)?
        };
        self.last.clear();
        self.last.extend_from_slice(&buf[..count])?;
        Ok(count)
    }
}
