//! How names and ids stand in the path of a request (RFC 3986, section 2.1).

ghost use Rattle.std.specs.Prelude.{◌≡◌, ◌++◌, OnOk, string_bytes};
ghost use Rattle.repl.specs.Spelling.{document_segments, segment};

use couch_json::Got;
use percent_encoding::{AsciiSet, NON_ALPHANUMERIC, ascii_set, utf8_percent_encode};

/// The reserved characters (RFC 3986, section 2.3).
const RESERVED: AsciiSet = ascii_set!(
    NON_ALPHANUMERIC
        .remove(b'-')
        .remove(b'.')
        .remove(b'_')
        .remove(b'~')
);

/// Writes a name as one segment of a path.
pub fn push_segment(out: &mut String, name: &str) -> Got<()>
    ensures { OnOk result (string_bytes out.new ≡ string_bytes out.old ++ segment name.now) }
{
    utf8_percent_encode(name, RESERVED).append_to(out)?;
    Ok(())
}

/// Writes the id of a document as one segment of a path, or as two for a design document.
pub fn push_document(out: &mut String, id: &str) -> Got<()>
    ensures { OnOk result (string_bytes out.new ≡ string_bytes out.old ++ document_segments id.now) }
{
    match id.strip_prefix("_design/") {
        Some(name) => {
            out.push_str("_design/")?;
            push_segment(out, name)
        }
        None => push_segment(out, id),
    }
}
