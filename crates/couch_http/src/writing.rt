ghost use Rattle.std.specs.Prelude.{◌≡◌, ◌≤◌, drop, length};
ghost use Rattle.couch_http.specs.Writing.{Takes};

use crate::retrying::write_some;
use std::io::Write;

/// Writes bytes, up to a write that fails or takes none; one that is interrupted is made again, as
/// [`write_some`] says. Returns whether all were written.
pub fn write_bytes<W: Write>(writer: &mut W, bytes: &[u8]) -> bool
    ensures { Takes (W.contents writer.old) (W.contents writer.new) bytes.now result }
{
    let mut rest = bytes;
    while !rest.is_empty() {
        match write_some(writer, rest) {
            Ok(0) => return false,
            Ok(count) => rest = skip(rest, count),
            Err(_) => return false,
        }
    }
    true
}

/// Returns the bytes behind the first ones.
fn skip(bytes: &[u8], count: usize) -> &[u8]
    requires { count ≤ length bytes.now }
    ensures { result.now ≡ drop count bytes.now }
{
    &bytes[count..]
}
