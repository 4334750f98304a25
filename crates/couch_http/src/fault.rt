ghost use Rattle.std.specs.Prelude.{◌≡◌};

use couch_json::NoMemory;
use thiserror::Error;

/// Why bytes are no request that this server takes, or no reply that this client takes, or why a call
/// did nothing.
#[derive(Clone, Copy, Debug, PartialEq, Eq, Error)]
pub enum HttpFault {
    /// The head is no request, or reply, of HTTP/1.1 or 1.0 (RFC 9112, sections 2 to 5), or its
    /// `Content-Length` is given twice or is no decimal number (section 6.3), or a reply has none.
    #[error("syntax")]
    Syntax = 1,
    /// The message has a `Transfer-Encoding` (RFC 9112, section 6.1), which isn't read here.
    #[error("transfer encoding")]
    Encoding = 2,
    /// The head has more than 16,384 bytes or 64 header lines, or the body more than 4,194,304
    /// bytes, or that of a reply more than 67,108,864.
    #[error("too large")]
    TooLarge = 3,
    /// A growth was refused. Nothing has changed.
    #[error("out of memory")]
    Memory = 4,
    /// The stream has ended before, by a last request, a whole reply or a fault.
    #[error("closed")]
    Closed = 5,
}

impl From<NoMemory> for HttpFault {
    ghost use Rattle.std.specs.Prelude.{◌≡◌};
    ghost use Rattle.couch_http.specs.declared.fault.HttpFault.TheVariants.{Memory};

    ghost from_gives = { λ _ e. e ≡ Memory };

    fn from(_refusal: NoMemory) -> HttpFault {
        HttpFault::Memory
    }
}
