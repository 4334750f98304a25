//! Replies that would take much more memory than their length.

use couch_http::{Request, Response};

/// A shorter reply is read in any case.
const SHORT: usize = 1_048_576;

/// A shorter reply with documents is read in any case: what they hold is the users' own.
const SHORT_DOCUMENTS: usize = 16_777_216;

/// How many bytes of memory a value takes, behind a comma or a bracket.
const VALUE: usize = 56;

/// How many more an object takes.
const OBJECT: usize = 104;

/// How many times its length a reply may take.
const MOST_TIMES: usize = 8;

/// Tells whether a reply has so many values that reading it takes more than 8 times its length in memory. No
/// couchd lists changes so.
pub fn is_dense(request: &Request, reply: &Response) -> bool {
    let body = reply.body();
    body.len() > short_for(request) && weight_of(body) > body.len().saturating_mul(MOST_TIMES)
}

/// Returns up to which length the reply to a request is read in any case.
fn short_for(request: &Request) -> usize {
    let path = request.path.as_str();
    if path.ends_with("/_changes")
        || path.ends_with("/_revs_diff")
        || path.ends_with("/_bulk_docs")
    {
        SHORT
    } else {
        SHORT_DOCUMENTS
    }
}

/// Estimates how many bytes of memory the values of a text of JSON take, beside their texts.
fn weight_of(body: &[u8]) -> usize {
    let mut weight: usize = 0;
    for byte in body {
        weight = weight.saturating_add(weight_at(*byte));
    }
    weight
}

/// Returns what a byte adds to the weight, as if it stood outside of a text.
fn weight_at(byte: u8) -> usize {
    match byte {
        b',' | b'[' => VALUE,
        b'{' => VALUE + OBJECT,
        _ => 0,
    }
}
