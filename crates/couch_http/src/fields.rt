//! What the headers of a message say of its body and its connection.

ghost use Rattle.std.specs.Prelude.{◌≡◌, ◌≤◌, ◌^◌, ◌||◌, ◌==◌, [], ◌∷◌, map, reverse, nat_lt, if◌then◌else◌, None, Some, IfErr, MatchOption};
ghost use Rattle.std.specs.Char.{is_ascii_digit};
ghost use Rattle.std.specs.List.{list_all};
ghost use Rattle.httparse.specs.Grammar.{skip_ows, trim_ows};
ghost use Rattle.couch_http.specs.Message.{header_field};
ghost use Rattle.couch_http.specs.Fields.{same_name, values_of_header, decimal_after, length_text, content_length};
ghost use Rattle.couch_http.specs.Fields.{request_length, has_transfer_encoding, lists_close, asks_close};
ghost use Rattle.couch_http.specs.ReplyStream.{reply_length};
ghost use Rattle.couch_http.specs.Stream.{IsStreamFault};

use crate::fault::HttpFault;
use crate::limits::{BODY_LIMIT, REPLY_LIMIT};
use crate::request::Header;

/// Tells whether two names are equal without ASCII case (RFC 9110, section 5.1).
#[tactic(auto, unfolding(crate::specs::Fields::same_name))]
fn is_same_name(a: &[u8], b: &[u8]) -> bool
    ensures { result ≡ same_name a.now b.now }
{
    a.eq_ignore_ascii_case(b)
}

/// Returns the value of the first header of a name, and the headers after it.
fn find_header<'a>(headers: &'a [Header], name: &[u8]) -> Option<(&'a [u8], &'a [Header])>
    ensures { MatchOption result (values_of_header name.now (map header_field headers.now) ≡ [])
        (λ found. values_of_header name.now (map header_field headers.now)
        ≡ found.0.now ∷ values_of_header name.now (map header_field found.1.now)) }
{
    for (i, header) in headers.iter().enumerate() {
        if is_same_name(&header.name, name) {
            return Some((&header.value, &headers[i + 1..]));
        }
    }
    None
}

/// Tells whether there is a `Transfer-Encoding` header, whatever it says (RFC 9112, section 6.1).
pub fn has_transfer_encoding(headers: &[Header]) -> bool
    ensures { result ≡ has_transfer_encoding (map header_field headers.now) }
{
    find_header(headers, b"Transfer-Encoding").is_some()
}

/// Reads how many bytes the body of a request has (RFC 9112, section 6.3): none without `Content-Length`.
#[tactic(auto, unfolding(crate::specs::Fields::body_limit))]
pub fn request_length(headers: &[Header]) -> Result<usize, HttpFault>
    ensures { result ≡ request_length (map header_field headers.now) }
{
    content_length(headers, BODY_LIMIT, Ok(0))
}

/// Reads how many bytes the body of a reply has: `Syntax` without `Content-Length`.
#[tactic(auto, unfolding(crate::specs::ReplyStream::reply_limit), using(crate::proofs::FaultLemmas::reply_length_sound))]
pub fn reply_length(headers: &[Header]) -> Result<usize, HttpFault>
    ensures length { result ≡ reply_length (map header_field headers.now) }
    ensures fault { IfErr result IsStreamFault }
{
    content_length(headers, REPLY_LIMIT, Err(HttpFault::Syntax))
}

/// Reads what `Content-Length` says, up to the limit: what is `absent` where there is none.
fn content_length(
    headers: &[Header],
    limit: usize,
    absent: Result<usize, HttpFault>,
) -> Result<usize, HttpFault>
    requires { limit ≤ 2 ^ 32 }
    ensures { result ≡ content_length limit absent (map header_field headers.now) }
{
    match find_header(headers, b"Content-Length") {
        None => absent,
        Some((value, others)) => match find_header(others, b"Content-Length") {
            None => length_text(value, limit),
            Some(_) => Err(HttpFault::Syntax),
        },
    }
}

/// Reads the length that a text writes in decimal digits.
fn length_text(text: &[u8], limit: usize) -> Result<usize, HttpFault>
    requires { limit ≤ 2 ^ 32 }
    ensures { result ≡ length_text limit text.now }
{
    if text.is_empty() || !are_digits(text) {
        return Err(HttpFault::Syntax);
    }
    decimal(text, limit).ok_or(HttpFault::TooLarge)
}

fn are_digits(text: &[u8]) -> bool
    ensures { result ≡ list_all is_ascii_digit text.now }
{
    text.iter().all(|byte| byte.is_ascii_digit())
}

/// Reads the number that these digits write, if it is within the limit.
fn decimal(digits: &[u8], limit: usize) -> Option<usize>
    requires { limit ≤ 2 ^ 32 }
    ensures { result ≡ (if nat_lt limit (decimal_after 0 digits.now) then None else Some (decimal_after 0 digits.now)) }
{
    let mut number = 0;
    for digit in digits {
        number = number * 10 + usize::from(digit.saturating_sub(b'0'));
        if number > limit {
            return None;
        }
    }
    Some(number)
}

/// Tells whether a `Connection` header lists `close` (RFC 9112, section 9.6).
fn asks_close(headers: &[Header]) -> bool
    ensures { result ≡ asks_close (map header_field headers.now) }
{
    for header in headers {
        if is_same_name(&header.name, b"Connection") && lists_close(&header.value) {
            return true;
        }
    }
    false
}

/// Tells whether a request is the last on its connection (RFC 9112, sections 9.3 and 9.6): one of
/// version 1.0, or one that asks for
/// the close.
pub fn is_last(minor: u8, headers: &[Header]) -> bool
    ensures { result ≡ (minor == 0 || asks_close (map header_field headers.now)) }
{
    minor == 0 || asks_close(headers)
}

/// Tells whether a list of parts between commas has `close`, without ASCII case (RFC 9110, section 7.6.1).
fn lists_close(value: &[u8]) -> bool
    ensures { result ≡ lists_close value.now }
{
    value
        .split(|byte| *byte == b',')
        .any(|part| is_same_name(trim(part), b"close"))
}

/// Trims the bytes: returns them without the spaces and tabs at both ends.
#[tactic(auto, unfolding(httparse::specs::Grammar::trim_ows))]
fn trim(bytes: &[u8]) -> &[u8]
    ensures { result.now ≡ trim_ows bytes.now }
{
    trim_end(trim_start(bytes))
}

fn trim_start(bytes: &[u8]) -> &[u8]
    ensures { result.now ≡ skip_ows bytes.now }
{
    let mut rest = bytes;
    while let [b' ' | b'\t', others @ ..] = rest {
        rest = others;
    }
    rest
}

fn trim_end(bytes: &[u8]) -> &[u8]
    ensures { result.now ≡ reverse (skip_ows (reverse bytes.now)) }
{
    let mut rest = bytes;
    while let [others @ .., b' ' | b'\t'] = rest {
        rest = others;
    }
    rest
}
