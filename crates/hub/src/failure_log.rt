ghost use Rattle.std.specs.Prelude.{List, [], ◌∷◌, Option, None};
ghost use Rattle.couch_http.specs.Message.{message_of};
ghost use Rattle.hub.specs.Failing.{FailedRequest, Tells, failed_request};

use couch_http::Request;
use store::StoreFault;

/// Whoever is told of each reply of 500.
pub trait FailureLog {
    // All requests that it was told of, in order, where they are known.
    ghost told: { Self → Option (List FailedRequest) } = { λ _. None };

    /// Notes that the reply to a request is 500, since the store failed for this cause.
    ///
    /// The request may hold secrets: its method and its path alone are for the log.
    fn note(&mut self, request: &Request, cause: StoreFault)
        ensures { Tells (told self.old) (told self.new) (failed_request (message_of request.now) ∷ []) };
}

/// A log that keeps nothing.
#[derive(Clone, Copy, Debug, Drop)]
pub struct NoLog;

impl FailureLog for NoLog {
    fn note(&mut self, _request: &Request, _cause: StoreFault) {}
}
