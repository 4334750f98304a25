//! What a client in memory does.

ghost use Rattle.std.specs.Prelude.{length};
ghost use Rattle.engine.specs.Flows.{FlowsAtMost, ReadsPart};

use crate::flow::Flow;
use hub::measure_part;

/// A client in memory: what it sends, and how it takes the replies.
#[derive(Drop)]
pub struct MemoryClient {
    /// What it is still to send.
    pub sends: Vec<u8>,
    /// It sends so many bytes at a time.
    pub read_size: usize,
    /// It takes so many bytes at a time, and none where that is 0.
    pub write_size: usize,
    /// So many reads and writes pass, and then each one fails.
    pub calls: u64,
    /// It ends once it has sent all; else it is silent then.
    pub ends: bool,
    /// What it has taken.
    pub taken: Vec<u8>,
    /// It was told that no more comes.
    pub finished: bool,
    /// Its number, while it is open.
    pub conn: Option<u64>,
}

impl MemoryClient {
    /// Sends some bytes: one part.
    pub(crate) fn send(&mut self, room: &mut [u8]) -> Flow
        ensures bound { FlowsAtMost result (length room.new) }
        ensures part { ReadsPart result room.new }
    {
        if !self.may_pass() {
            return Flow::Never;
        }
        if self.sends.is_empty() {
            return if self.ends { Flow::Never } else { Flow::Later };
        }
        let count = self.read_size.min(self.sends.len()).min(room.len());
        let part = measure_part(&self.sends[..count]);
        room[..part].copy_from_slice(&self.sends[..part]);
        self.sends.drain(..part);
        Flow::Bytes(part, self.ends)
    }

    /// Takes some bytes.
    pub(crate) fn take(&mut self, bytes: &[u8]) -> Flow
        ensures { FlowsAtMost result (length bytes.now) }
    {
        if !self.may_pass() {
            return Flow::Never;
        }
        let count = self.write_size.min(bytes.len());
        if count == 0 {
            return Flow::Later;
        }
        match self.taken.extend_from_slice(&bytes[..count]) {
            Ok(()) => Flow::Bytes(count, true),
            Err(_) => Flow::Never,
        }
    }

    /// Counts a read or a write off, and tells whether it passes.
    fn may_pass(&mut self) -> bool {
        if self.calls == 0 {
            return false;
        }
        self.calls -= 1;
        true
    }
}
