use couch_http::Response;

/// What a piece of bytes brought.
#[derive(Debug, Drop)]
pub struct Replies {
    /// The replies to the requests that it completed, in order. Where it showed a fault of the stream, the
    /// fixed reply to that stands at the end.
    pub list: Vec<Response>,
    /// The connection has ended.
    pub last: bool,
}
