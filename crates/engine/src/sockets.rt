//! What brings connections and their bytes.

ghost use Rattle.std.specs.Prelude.{List, [], ◌∷◌, length, Option, None};
ghost use Rattle.engine.specs.Acts.{Act, accept_acts, closed, opened, Logs, read_acts, write_acts};
ghost use Rattle.engine.specs.Flows.{FlowsAtMost, ReadsPart};

use crate::flow::{Accepted, Flow};
use std::io;

/// Connections by their numbers, and what goes through them.
///
/// An accepted connection has the number that it is given at `name`, from 1.
pub trait Sockets {
    // All that went through, in order, where it is known.
    ghost log: { Self → Option (List Act) } = { λ _. None };

    /// Waits until something may be ready, for a second at most; or only asks, where `wait` is false.
    /// Returns the second that it is.
    fn wait(&mut self, wait: bool) -> io::Result<u64>
        ensures { Logs (log self.old) (log self.new) [] };

    /// Returns the connection that the last wait reported at this place; 0 stands for new ones.
    fn ready(&self, at: usize) -> Option<u64>;

    /// Accepts a connection.
    fn accept(&mut self) -> Accepted
        ensures { Logs (log self.old) (log self.new) (accept_acts result) };

    /// Gives a number to the connection that was accepted last. The answer is false where it can't be
    /// served.
    fn name(&mut self, conn: u64) -> bool
        ensures { Logs (log self.old) (log self.new) (opened conn ∷ []) };

    /// Reads from a connection: no more than the first part of what came (see `hub::measure_part`), so that
    /// two requests end in it at most. What came behind it is for the next reads.
    fn read(&mut self, conn: u64, room: &mut [u8]) -> Flow
        ensures bound { FlowsAtMost result (length room.new) }
        ensures part { ReadsPart result room.new }
        ensures log { Logs (log self.old) (log self.new) (read_acts conn result room.new) };

    /// Writes to a connection.
    fn write(&mut self, conn: u64, bytes: &[u8]) -> Flow
        ensures bound { FlowsAtMost result (length bytes.now) }
        ensures log { Logs (log self.old) (log self.new) (write_acts conn result bytes.now) };

    /// Tells the peer that nothing more is written.
    fn finish(&mut self, conn: u64)
        ensures { Logs (log self.old) (log self.new) [] };

    /// Closes a connection.
    fn close(&mut self, conn: u64)
        ensures { Logs (log self.old) (log self.new) (closed conn ∷ []) };
}
