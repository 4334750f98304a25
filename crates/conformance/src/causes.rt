//! Why a request is answered by 500, over a store of which one call fails, and over tables.

ghost use Rattle.std.specs.Prelude.{◌≡◌, ◌⊎◌, ℕ, List};
ghost use Rattle.couch_http.specs.Message.{message_of};
ghost use Rattle.store.specs.Causes.{HasFailed};
ghost use Rattle.store.specs.Database.{DocumentWrite};
ghost use Rattle.sqlstore.specs.Model.{contents_of, fault_count, is_honest};
ghost use Rattle.node.specs.Answer.{answer};
ghost use Rattle.node.specs.Causes.{LacksNumbers};

use couch_http::{Request, Response};
use node::Node;
use sqlite::Alter;
use sqlstore::SqlStore;
use store::{FailStore, PlainStore, Store};

/// Handles a request over a store that lacks no numbers. A 500 comes only with a fault that is counted.
fn handle_unlacking<S: Store + Drop>(node: &mut Node<S>, request: &Request) -> Response
    ensures { result.status ≡ 500 → S.is_honest node.new.store → (S.lacks_number node.old.store → ⊥)
        → ((name : List ℕ) (ws : List DocumentWrite) → S.lacks_room node.old.store name ws → ⊥)
        → HasFailed (S.fault_count node.old.store) (S.fault_count node.new.store) }
{
    node.handle(request)
}

/// Handles a request over a store in memory of which one call fails. A 500 comes only where that call
/// was made for this request, and then it is counted.
pub fn handle_failing(node: &mut Node<FailStore<PlainStore>>, request: &Request) -> Response
    ensures counted { result.status ≡ 500 → (⟦<FailStore<PlainStore> as Store>⟧.fault_count node.old.store ≡ 0)
        × (⟦<FailStore<PlainStore> as Store>⟧.fault_count node.new.store ≡ 1) }
{
    handle_unlacking(node, request)
}

/// Handles a request over tables. A 500 comes only where a fault was counted, or the tables are damaged,
/// or the next number of a database or the sequences of its writes would not fit.
pub fn handle_over_tables<S: Alter + Drop>(
    node: &mut Node<SqlStore<S>>,
    request: &Request,
) -> Response
    ensures cause { result.status ≡ 500 → is_honest S.Store node.new.store → HasFailed (fault_count S.Store node.old.store) (fault_count S.Store node.new.store)
        ⊎ LacksNumbers ⟦<SqlStore<S> as Store>⟧ node.old.store
        (answer node.old.configuration (contents_of S.Store node.old.store) (message_of request.now)).change }
{
    node.handle(request)
}
