ghost use Rattle.std.specs.Prelude.{◌≡◌};
ghost use Rattle.sync.specs.Answers.{reply_of};

use couch_http::Response;

/// What comes of a request to a side.
#[derive(Debug, Drop)]
pub enum Answer {
    /// Its reply.
    Reply(Response),
    /// The request or its reply was lost.
    Lost,
    /// The bytes that came are no reply, or none that a server of this repository gives.
    Unreadable,
}

impl Answer {
    /// Returns the reply, where there is one.
    pub fn into_reply(self) -> Option<Response>
        ensures { result ≡ reply_of self }
    {
        match self {
            Answer::Reply(reply) => Some(reply),
            Answer::Lost | Answer::Unreadable => None,
        }
    }
}
