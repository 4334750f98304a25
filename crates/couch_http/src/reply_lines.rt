//! The lines before the body of a reply (RFC 9112, section 2.1).

ghost use Rattle.std.specs.Prelude.{◌≡◌, ◌++◌, OnOk};
ghost use Rattle.std.specs.String.{string_bytes};
ghost use Rattle.couch_http.specs.Reply.{phrase_of, status_line, type_line, length_line, close_line};

use couch_json::Got;
use http::StatusCode;
use std::fmt::Write;

/// Looks up the phrase of a status (RFC 9110, section 15): nothing where it has none.
#[tactic(auto, using(crate::proofs::PhraseLemmas::phrase_none))]
fn phrase(status: u16) -> &'static str
    ensures { result.now ≡ phrase_of status }
{
    match StatusCode::from_u16(status) {
        Ok(code) => code.canonical_reason().unwrap_or(""),
        Err(_) => "",
    }
}

/// Writes the status line.
#[tactic(auto, unfolding(crate::specs::Reply::status_line))]
pub fn push_status(out: &mut String, status: u16) -> Got<()>
    ensures { OnOk result (string_bytes out.new ≡ string_bytes out.old ++ status_line status) }
{
    let phrase = phrase(status);
    write!(out, "HTTP/1.1 {status} {phrase}\r\n")?;
    Ok(())
}

/// Writes what the body is.
#[tactic(auto, unfolding(crate::specs::Reply::type_line))]
pub fn push_type(out: &mut String) -> Got<()>
    ensures { OnOk result (string_bytes out.new ≡ string_bytes out.old ++ type_line) }
{
    out.push_str("Content-Type: application/json\r\n")?;
    Ok(())
}

/// Writes how many bytes the body has.
#[tactic(auto, unfolding(crate::specs::Reply::length_line))]
pub fn push_length(out: &mut String, size: usize) -> Got<()>
    ensures { OnOk result (string_bytes out.new ≡ string_bytes out.old ++ length_line size) }
{
    write!(out, "Content-Length: {size}\r\n")?;
    Ok(())
}

/// Writes whether the connection ends after the reply.
#[tactic(auto, unfolding(crate::specs::Reply::close_line))]
pub fn push_close(out: &mut String, last: bool) -> Got<()>
    ensures { OnOk result (string_bytes out.new ≡ string_bytes out.old ++ close_line last) }
{
    if last {
        out.push_str("Connection: close\r\n")?;
    }
    Ok(())
}
