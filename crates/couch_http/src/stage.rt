//! What a cutter keeps between two pieces.

use crate::cut::Cut;
use crate::fault::HttpFault;
use crate::request::Request;
use crate::scan::Scan;

/// What has come of the next request.
#[derive(Drop)]
pub enum Stage {
    /// Part of its head.
    Head(PartialHead),
    /// Its head, and part of its body.
    Body(PartialRequest),
    /// No more requests are taken.
    Closed,
}

/// The bytes of a head that isn't whole.
#[derive(Drop)]
pub struct PartialHead {
    pub bytes: Vec<u8>,
    /// How far they were read.
    pub scan: Scan,
}

/// A request whose body isn't whole.
#[derive(Drop)]
pub struct PartialRequest {
    /// The bytes of its head.
    pub head: Vec<u8>,
    /// The request with what has come of its body.
    pub request: Request,
    /// How many bytes its body has.
    pub length: usize,
}

/// The answer to a piece, and what is kept after it.
#[derive(Drop)]
pub struct Taken {
    pub cut: Cut,
    pub stage: Stage,
}

/// What was parsed of the beginning of a stream.
#[derive(Drop)]
pub enum Parsed<'a> {
    /// With less than a request. This is kept of it.
    Incomplete(Stage),
    /// With what is no request.
    Faulty(HttpFault),
    /// With a request, and these bytes come after it.
    Complete(Request, &'a [u8]),
}

/// Why nothing was taken, and what is still kept.
#[derive(Drop)]
pub struct Refused {
    pub fault: HttpFault,
    pub stage: Stage,
}
