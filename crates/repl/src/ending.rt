//! How the end of a pass is written.

ghost use Rattle.std.specs.Prelude.{OnOk};
ghost use Rattle.std.specs.Io.KnownBytes.{Appends};
ghost use Rattle.repl.specs.Ending.{why_text};

use crate::why::Why;
use std::io;
use std::io::Write;

/// Prints why a pass stopped: `status NNN`, `reply` or `lost`.
pub fn print_why<W: Write>(out: &mut W, why: Why) -> io::Result<()>
    ensures { OnOk result (Appends (W.contents out.old) (W.contents out.new) (why_text why)) }
{
    match why {
        Why::Status(status) => write!(out, "status {status}"),
        Why::Reply => out.write_all(b"reply"),
        Why::Lost => out.write_all(b"lost"),
    }
}
