use crate::fault::HttpFault;
use crate::request::Request;

/// How a stream stands after the requests that a piece completed.
#[derive(Clone, Copy, Debug, PartialEq, Eq)]
pub enum Ending {
    /// It goes on.
    Open,
    /// The last of these requests is the connection's last. Later bytes are dropped.
    Last,
    /// After these requests comes what is none: `Syntax`, `Encoding` or `TooLarge`.
    Fault(HttpFault),
}

/// What one piece of a stream brought.
#[derive(Debug)]
pub struct Cut {
    /// The requests whose last byte is in the piece, in order.
    pub requests: Vec<Request>,
    pub ending: Ending,
}

// Written out, so that callers do not prove again how each part is dropped.
impl Drop for Cut {
    fn drop(self) {
        let Cut {
            requests: _,
            ending: _,
        } = self;
    }
}
