use crate::dispatch::handle;
use api::Routes;
use auth::Auth;
use couch_http::{Request, Response};
use std::alloc::Global;
use std::marker::Model;
use store::{Store, StoreFault};

/// One node: a store, and whoever may use it.
///
/// In clauses a node is its store, and what the server knows of its users.
pub struct Node<S: Store + Drop> {
    alloc: Global,
    store: S,
    auth: Auth,
    routes: Routes,
}

// Written out, so that callers do not prove again how each part is dropped.
impl<S: Store + Drop> Drop for Node<S> {
    fn drop(self) {
        let Node {
            alloc: _,
            store: _,
            auth: _,
            routes: _,
        } = self;
    }
}

impl<S: Store + Drop> Model for Node<S> {
    ghost use Rattle.node.specs.Step.{Serving};

    ghost Value = { Serving S };

    ghost view = { λ n. record { store = n.store; configuration = n.auth } };
}

impl<S: Store + Drop> Node<S> {
    ghost use Rattle.std.specs.Prelude.{◌≡◌, ◌⊎◌, is_some, true};
    ghost use Rattle.couch_http.specs.Message.{message_of};
    ghost use Rattle.store.specs.Calls.{GoesOn};
    ghost use Rattle.node.specs.Answer.{answer};
    ghost use Rattle.node.specs.Causes.{HasCause, IsFailure};
    ghost use Rattle.node.specs.Step.{IsStep};

    /// Makes a node over a store. Takes no memory.
    pub fn new(alloc: Global, store: S, auth: Auth, routes: Routes) -> Node<S>
        ensures store { result.store ≡ store }
        ensures configuration { result.configuration ≡ auth }
    {
        Node {
            alloc,
            store,
            auth,
            routes,
        }
    }

    /// Answers a request; the store is then as the definition of the answer says.
    ///
    /// Where memory runs out the reply is the fixed 503, where the store fails the fixed 500, and the
    /// databases are as they were. Over whatever store, a 500 has its cause: a fault that was counted, or
    /// a store that isn't honest or has no number left.
    pub fn handle(&mut self, request: &Request) -> Response
        ensures step { S.is_honest self.new.store → IsStep self.old.configuration (S.contents self.old.store) (message_of request.now)
            (HasCause S.Store self.old.store self.new.store) result (S.contents self.new.store) }
        ensures failure { result.status ≡ 500 → IsFailure S.Store self.old.store self.new.store
            (answer self.old.configuration (S.contents self.old.store) (message_of request.now)).change }
        ensures configuration { self.new.configuration ≡ self.old.configuration }
        ensures onward { GoesOn S.Store self.old.store self.new.store }
    {
        self.handle_with_cause(request, &mut None)
    }

    /// Answers a request as `handle` does. Where the reply is 500 since the store failed, its fault is put
    /// into `cause`, which stays as it was else.
    pub fn handle_with_cause(
        &mut self,
        request: &Request,
        cause: &mut Option<StoreFault>,
    ) -> Response
        ensures step { S.is_honest self.new.store → IsStep self.old.configuration (S.contents self.old.store) (message_of request.now)
            (HasCause S.Store self.old.store self.new.store) result (S.contents self.new.store) }
        ensures failure { result.status ≡ 500 → IsFailure S.Store self.old.store self.new.store
            (answer self.old.configuration (S.contents self.old.store) (message_of request.now)).change }
        ensures configuration { self.new.configuration ≡ self.old.configuration }
        ensures onward { GoesOn S.Store self.old.store self.new.store }
        ensures cause { (cause.new ≡ cause.old) ⊎ (result.status ≡ 500) }
        ensures told { S.is_honest self.new.store → result.status ≡ 500 → is_some cause.new ≡ true }
    {
        handle(
            self.alloc,
            &mut self.store,
            &self.auth,
            &self.routes,
            request,
            cause,
        )
    }

    /// Returns the store.
    pub fn into_store(self) -> S
        ensures { result ≡ self.store }
    {
        let Node {
            alloc: _alloc,
            store,
            auth: _auth,
            routes: _routes,
        } = self;
        store
    }
}
