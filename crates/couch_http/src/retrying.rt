ghost use Rattle.std.specs.Prelude.{◌≢◌, IfErr};
ghost use Rattle.std.specs.IoError.{error_kind};
ghost use Rattle.std.specs.Io.{ReadsAtMost, WritesAtMost};
ghost use Rattle.std.specs.Io.KnownBytes.{ReadConsumes, WriteAppends};

use std::io;
use std::io::{Error, ErrorKind, Read, Write};

/// How often an interrupted read or write is made, the first time among them.
const TRIES: u64 = 1_048_576;

/// Reads once, and again where the read is interrupted, as where the process is stopped and goes on.
/// `TimedOut`: it was interrupted 1,048,576 times on end.
pub fn read_some<R: Read>(reader: &mut R, room: &mut [u8]) -> io::Result<usize>
    ensures bound { ReadsAtMost result room.new }
    ensures bytes { ReadConsumes (R.remaining reader.old) (R.remaining reader.new) result room.new }
    ensures retried { IfErr result (λ e. error_kind e ≢ ErrorKind.Interrupted) }
{
    for _number in 0..TRIES {
        match reader.read(room) {
            Ok(count) => return Ok(count),
            Err(error) => {
                if error.kind() != ErrorKind::Interrupted {
                    return Err(error);
                }
            }
        }
    }
    Err(Error::from(ErrorKind::TimedOut))
}

/// Writes once, and again where the write is interrupted.
/// `TimedOut`: it was interrupted 1,048,576 times on end.
pub fn write_some<W: Write>(writer: &mut W, bytes: &[u8]) -> io::Result<usize>
    ensures bound { WritesAtMost result bytes.now }
    ensures bytes { WriteAppends (W.contents writer.old) (W.contents writer.new) result bytes.now }
    ensures retried { IfErr result (λ e. error_kind e ≢ ErrorKind.Interrupted) }
{
    for _number in 0..TRIES {
        match writer.write(bytes) {
            Ok(count) => return Ok(count),
            Err(error) => {
                if error.kind() != ErrorKind::Interrupted {
                    return Err(error);
                }
            }
        }
    }
    Err(Error::from(ErrorKind::TimedOut))
}
