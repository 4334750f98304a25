use couch_http::Response;

/// What comes of a reply with a piece of its bytes.
#[derive(Drop)]
pub(crate) enum Turn {
    /// It isn't whole yet.
    Waits,
    /// It is whole.
    Whole(Response),
    /// It won't come.
    Lost,
    /// The bytes are no reply.
    Broken,
}
