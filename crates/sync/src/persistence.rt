//! Which replies leave their connection open.

ghost use Rattle.std.specs.Prelude.{◌≡◌, All, length, map, true};
ghost use Rattle.std.specs.List.{list_all};
ghost use Rattle.httparse.specs.Spans.{IsHeaderWithin, header_bytes};
ghost use Rattle.sync.specs.Persistence.{IsPersistent, leaves_open};

use httparse::Status;
use httparse::spans::{EMPTY_HEADER_SPAN, HeaderSpan, parse_response};

/// How many headers a reply has at most.
const HEADERS: usize = 64;

/// Tells whether the head of a reply leaves its connection open: it is of version 1.1, and its `Connection`
/// headers say `keep-alive` alone (RFC 9112, section 9.3).
pub fn is_persistent(bytes: &[u8]) -> bool
    ensures { result ≡ true → IsPersistent bytes.now }
{
    let mut spans = [EMPTY_HEADER_SPAN; HEADERS];
    match parse_response(bytes, &mut spans) {
        Ok(Status::Complete(found)) => {
            found.version == 1 && leave_open(bytes, &spans[..found.headers])
        }
        Ok(Status::Partial) | Err(_) => false,
    }
}

/// Tells whether all headers leave the connection open.
fn leave_open(bytes: &[u8], spans: &[HeaderSpan]) -> bool
    requires { All (IsHeaderWithin (length bytes.now)) spans.now }
    ensures { result ≡ list_all leaves_open (map (header_bytes bytes.now) spans.now) }
{
    for span in spans {
        if !leaves_open(span.name.of(bytes), span.value.of(bytes)) {
            return false;
        }
    }
    true
}

/// Tells whether a header leaves the connection open.
#[tactic(auto, unfolding(couch_http::specs::Fields::same_name))]
fn leaves_open(name: &[u8], value: &[u8]) -> bool
    ensures { result ≡ leaves_open (name.now, value.now) }
{
    !name.eq_ignore_ascii_case(b"Connection") || value.eq_ignore_ascii_case(b"keep-alive")
}
