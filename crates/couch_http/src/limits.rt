//! How large a message may be. The limits are this project's own.

/// A head has at most so many bytes.
pub const HEAD_LIMIT: usize = 16_384;

/// A head has at most so many lines beside its request line and the empty line at its end.
pub const HEADER_LIMIT: usize = 64;

/// The body of a request has at most so many bytes.
pub const BODY_LIMIT: usize = 4_194_304;

/// The body of a reply has at most so many bytes.
pub const REPLY_LIMIT: usize = 67_108_864;
