//! A node as a side of a pass.

use crate::answer::Answer;
use crate::side::Side;
use couch_http::Request;
use couch_json::Got;
use node::Node;
use std::alloc::Global;
use store::Store;

impl<S: Store + Drop> Side for Node<S> {
    ghost use Rattle.sync.specs.Nodes.{IsServed};

    ghost is_honest = { λ node. S.is_honest node.store };

    ghost answers = { IsServed S.Store };

    // A node has no such call.
    ghost breaks_off = { λ _ _ _. ⊥ };

    fn foresees(&self) -> bool {
        false
    }

    fn answer(&mut self, _alloc: Global, request: &Request, _next: &[Request]) -> Got<Answer> {
        Ok(Answer::Reply(self.handle(request)))
    }
}
