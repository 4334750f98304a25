//! Bytes that are written to a stream with a log.

ghost use Rattle.std.specs.Prelude.{◌≡◌, ◌≤◌, drop, length};
ghost use Rattle.sync.specs.Exchange.{Writes};
ghost use Rattle.sync.specs.Streams.{outcomes_of};

use crate::logged::Logged;
use crate::outcome::Outcome;
use std::io::Write;

/// Writes bytes, up to a write that fails or takes none. Returns whether all were
/// written. An interrupted write is made again, up to 2^64 - 1 writes.
pub fn write_logged<W: Write>(writer: &mut Logged<W>, bytes: &[u8]) -> bool
    ensures { Writes bytes.now
        (record { bytes = W.contents writer.old.stream; log = outcomes_of writer.old.log.items })
        (record { bytes = W.contents writer.new.stream; log = outcomes_of writer.new.log.items }) result }
{
    let mut rest = bytes;
    for _number in 0..u64::MAX {
        if rest.is_empty() {
            return true;
        }
        match writer.write(rest) {
            Outcome::Bytes(0) => return false,
            Outcome::Bytes(count) => rest = skip(rest, count),
            Outcome::Interrupted => {}
            Outcome::Failed => return false,
        }
    }
    false
}

/// Returns the bytes behind the first ones.
fn skip(bytes: &[u8], count: usize) -> &[u8]
    requires { count ≤ length bytes.now }
    ensures { result.now ≡ drop count bytes.now }
{
    &bytes[count..]
}
