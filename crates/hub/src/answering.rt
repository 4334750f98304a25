//! The replies to the requests that a piece brought.

ghost use Rattle.std.specs.Prelude.{◌≡◌, ◌+◌, ◌<◌, ◌≤◌, ◌++◌, [], length, map, vec_capacity, vec_len};
ghost use Rattle.couch_http.specs.Message.{message_of};
ghost use Rattle.store.specs.Calls.{GoesOn};
ghost use Rattle.hub.specs.Answering.{RepliesInOrder, StoreSteps};
ghost use Rattle.hub.specs.Cutters.{refusal_at};
ghost use Rattle.hub.specs.Failing.{Tells, failure_at, failures_in};

use crate::failure_log::FailureLog;
use couch_http::{Ending, Fixed, HttpFault, Request, Response};
use node::Node;
use store::{Store, StoreFault};

/// The status of a reply where the store failed.
const FAILED: u16 = 500;

/// Handles requests in order, and puts the reply to each into `list`, which has room for them. The log is
/// told of each request whose reply is 500.
pub fn answer_all<S: Store + Drop, L: FailureLog>(
    node: &mut Node<S>,
    log: &mut L,
    requests: &[Request],
    list: &mut Vec<Response>,
)
    requires empty { list.old.items ≡ [] }
    requires spare { vec_len list.old + length requests.now + 1 ≤ vec_capacity list.old }
    ensures served { S.is_honest node.new.store → RepliesInOrder S.Store node.old.configuration node.old.store (map message_of requests.now)
        list.new.items node.new.store }
    ensures configuration { node.new.configuration ≡ node.old.configuration }
    ensures onward { GoesOn S.Store node.old.store node.new.store }
    ensures room { vec_len list.new < vec_capacity list.new }
    ensures each { length list.new.items ≡ length (map message_of requests.now) }
    ensures tells { Tells (L.told log.old) (L.told log.new) (failures_in (map message_of requests.now) list.new.items) }
{
    for request in requests {
        list.push_reserved(answer(node, log, request));
    }
}

/// Handles a request. Where the reply is 500, the log is told of it.
pub fn answer<S: Store + Drop, L: FailureLog>(
    node: &mut Node<S>,
    log: &mut L,
    request: &Request,
) -> Response
    ensures step { S.is_honest node.new.store → StoreSteps S.Store node.old.configuration node.old.store (message_of request.now) result node.new.store }
    ensures configuration { node.new.configuration ≡ node.old.configuration }
    ensures onward { GoesOn S.Store node.old.store node.new.store }
    ensures tells { Tells (L.told log.old) (L.told log.new) (failure_at (message_of request.now) result) }
{
    let mut cause = None;
    let reply = node.handle_with_cause(request, &mut cause);
    if reply.status() == FAILED {
        log.note(request, cause.unwrap_or(StoreFault::Failed));
    }
    reply
}

/// Adds the reply that the end of a stream asks for.
pub fn add_refusal(ending: Ending, list: &mut Vec<Response>)
    requires { vec_len list.old < vec_capacity list.old }
    ensures { list.new.items ≡ list.old.items ++ refusal_at ending }
{
    let fixed = match ending {
        Ending::Fault(HttpFault::Syntax) => Fixed::Syntax,
        Ending::Fault(HttpFault::Encoding) => Fixed::Encoding,
        Ending::Fault(HttpFault::TooLarge) => Fixed::TooLarge,
        _ => return,
    };
    list.push_reserved(Response::fixed(fixed));
}
