ghost use Rattle.std.specs.Prelude.{◌≡◌, ◌≢◌};
ghost use Rattle.couch_http.specs.Message.{message_of};
ghost use Rattle.node.specs.Step.{IsStep};

use crate::node::Node;
use couch_http::{Request, Response};
use store::{PlainStore, Store};

/// Handles a request over a store in memory, which never fails: no reply is a 500.
pub fn handle_in_memory(node: &mut Node<PlainStore>, request: &Request) -> Response
    ensures step { IsStep node.old.configuration (⟦<PlainStore as Store>⟧.contents node.old.store) (message_of request.now) (λ _. ⊥)
        result (⟦<PlainStore as Store>⟧.contents node.new.store) }
    ensures served { result.status ≢ 500 }
    ensures configuration { node.new.configuration ≡ node.old.configuration }
{
    node.handle(request)
}
