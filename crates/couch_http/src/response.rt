use crate::fault::HttpFault;
use crate::fixed::Fixed;
use crate::fixed_texts;
use crate::reply_lines::{push_close, push_length, push_status, push_type};
use couch_json::{Got, Json, canon};
use std::alloc::Global;
use std::marker::Model;

/// A reply (RFC 9112, section 4), as it goes to the client, or as it was read from a server.
///
/// Clauses see its status, its body and its bytes.
#[derive(Debug)]
pub struct Response {
    status: u16,
    /// Where the body begins.
    head_len: usize,
    text: ReplyText,
}

// Written out, so that callers do not prove again how each part is dropped.
impl Drop for Response {
    fn drop(self) {
        let Response {
            status: _,
            head_len: _,
            text: _,
        } = self;
    }
}

/// The bytes of a reply.
#[derive(Debug, Drop)]
pub enum ReplyText {
    Made(String),
    Fixed(&'static str),
    /// As they were read from a server.
    Read(Vec<u8>),
}

impl Model for Response {
    ghost use Rattle.couch_http.specs.Reply.{Reply};

    ghost Value = { Reply };

    ghost use Rattle.couch_http.specs.ReplyText.{seen_reply, HasHead};

    ghost view = { seen_reply };

    ghost invariant = { HasHead };
}

impl Response {
    ghost use Rattle.std.specs.Prelude.{◌≡◌, ◌≤◌, length, drop, IfOk, IfErr, OnOk, string_bytes};
    ghost use Rattle.couch_json.specs.Canonical.{canonical};
    ghost use Rattle.couch_json.specs.Lawful.{IsLawful};
    ghost use Rattle.couch_json.specs.View.{view};
    ghost use Rattle.couch_http.specs.Reply.{reply_of, reply_head, fixed_reply};

    /// Makes the reply of a status and a value, with `Connection: close` where it is the connection's last.
    ///
    /// The status is one of the thirteen that have a phrase here (RFC 9110, section 15): 200, 201, 400, 401, 403,
    /// 404, 405, 409, 412, 413, 500, 501 and 503. The body is the value's canonical text. `Memory` is the one
    /// refusal.
    pub fn made(alloc: Global, status: u16, value: &Json, last: bool) -> Result<Response, HttpFault>
        ensures reply { IfOk result (λ reply. reply ≡ reply_of status (canonical (view value.now)) last) }
        ensures lawful { OnOk result (IsLawful (view value.now)) }
        ensures refused { IfErr result (λ fault. fault ≡ HttpFault.Memory) }
    {
        let body = canon(alloc, value)?;
        Ok(Response::of_text(alloc, status, body, last)?)
    }

    /// Makes the reply of a status and the text of its body. The head is put in front of the text, which
    /// is not held twice.
    pub fn of_text(alloc: Global, status: u16, body: String, last: bool) -> Got<Response>
        ensures { IfOk result (λ reply. reply ≡ reply_of status (string_bytes body) last) }
    {
        let head = Response::head_of(alloc, status, body.len(), last)?;
        let mut text = body;
        text.insert_str(0, head.as_str())?;
        Ok(Response {
            status,
            head_len: head.len(),
            text: ReplyText::Made(text),
        })
    }

    /// Writes all that comes before a body of so many bytes.
    fn head_of(alloc: Global, status: u16, size: usize, last: bool) -> Got<String>
        ensures { IfOk result (λ head. string_bytes head ≡ reply_head status size last) }
    {
        let mut head = String::new(alloc);
        push_status(&mut head, status)?;
        push_type(&mut head)?;
        push_length(&mut head, size)?;
        push_close(&mut head, last)?;
        head.push_str("\r\n")?;
        Ok(head)
    }

    /// Makes a reply that needs no memory.
    pub fn fixed(fixed: Fixed) -> Response
        ensures { result ≡ fixed_reply fixed }
    {
        match fixed {
            Fixed::Syntax => Response::from_text(400, 99, fixed_texts::SYNTAX),
            Fixed::Encoding => Response::from_text(501, 103, fixed_texts::ENCODING),
            Fixed::TooLarge => Response::from_text(413, 105, fixed_texts::TOO_LARGE),
            Fixed::Store { last: false } => Response::from_text(500, 90, fixed_texts::STORE),
            Fixed::Store { last: true } => Response::from_text(500, 109, fixed_texts::STORE_LAST),
            Fixed::NoRoom { last: false } => Response::from_text(503, 88, fixed_texts::NO_ROOM),
            Fixed::NoRoom { last: true } => Response::from_text(
                503,
                107,
                fixed_texts::NO_ROOM_LAST,
            ),
        }
    }

    /// Makes a reply whose text stands already, with its head in the first bytes.
    fn from_text(status: u16, head_len: usize, text: &'static str) -> Response
        requires { head_len ≤ length text.now }
        ensures { result ≡ record { status = status; body = drop head_len text.now; bytes = text.now } }
    {
        Response {
            status,
            head_len,
            text: ReplyText::Fixed(text),
        }
    }

    /// Makes a reply that was read, with its head in the first bytes.
    pub(crate) fn read(status: u16, head_len: usize, bytes: Vec<u8>) -> Response
        requires { head_len ≤ length bytes.items }
        ensures { result ≡ record { status = status; body = drop head_len bytes.items; bytes = bytes.items } }
    {
        Response {
            status,
            head_len,
            text: ReplyText::Read(bytes),
        }
    }

    /// Returns the status code (RFC 9110, section 15).
    pub fn status(&self) -> u16
        ensures { result ≡ self.now.status }
    {
        self.status
    }

    /// Returns the body.
    pub fn body(&self) -> &[u8]
        ensures { result.now ≡ self.now.body }
    {
        &self.bytes()[self.head_len..]
    }

    /// Returns all bytes of the reply, from the status line to the end of the body.
    pub fn bytes(&self) -> &[u8]
        ensures { result.now ≡ self.now.bytes }
    {
        match &self.text {
            ReplyText::Made(text) => text.as_bytes(),
            ReplyText::Fixed(text) => text.as_bytes(),
            ReplyText::Read(bytes) => bytes.as_slice(),
        }
    }
}
