//! What a reply cutter keeps between two pieces.

use crate::fault::HttpFault;
use crate::response::Response;
use crate::stage::PartialHead;

/// What has come of a reply.
#[derive(Drop)]
pub enum ReplyStage {
    /// Part of its head.
    Head(PartialHead),
    /// Its head, and part of its body.
    Body(PartialReply),
    /// Nothing more is taken.
    Closed,
}

/// A reply whose body isn't whole.
#[derive(Drop)]
pub struct PartialReply {
    pub status: u16,
    /// Its head, and what has come of its body.
    pub bytes: Vec<u8>,
    /// Where the body begins.
    pub head_len: usize,
    /// How many bytes the body has.
    pub size: usize,
}

/// What a piece makes of a reply.
#[derive(Drop)]
pub enum ReplyTaken {
    /// It isn't whole. This is kept of it.
    Waits(ReplyStage),
    Whole(Response),
}

/// Why nothing was taken, and what is still kept.
#[derive(Drop)]
pub struct ReplyRefused {
    pub fault: HttpFault,
    pub stage: ReplyStage,
}
