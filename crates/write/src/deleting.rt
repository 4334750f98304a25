//! Deletions that name no revision.

ghost use Rattle.std.specs.Prelude.{◌≡◌, Err, None, is_some, true};
ghost use Rattle.std.specs.FinMap as map;
ghost use Rattle.store.specs.Calls.{OnlyReads};
ghost use Rattle.store.specs.Contents.{IfThere};
ghost use Rattle.write.specs.Admission.{unnamed_deletion};
ghost use Rattle.write.specs.Refusing.{IsOwn, Refuses};
ghost use Rattle.write.specs.Terms.{terms_in};

use crate::denial::find_design_rule;
use crate::fault::WriteFault;
use auth::Caller;
use store::{DbName, Store};
use tree::DocId;

/// Tells why a deletion that names no revision is refused. It reads the store and changes nothing.
///
/// It has nothing to go on from. `Denied` comes where it is a design document that the caller may not
/// write, else `Conflict`; `Store(NoDatabase)` if and only if there is no database of this name, and
/// before these. See the CouchDB manual, api/document/common.
pub fn judge_unnamed_deletion<S: Store>(
    store: &mut S,
    db: &DbName,
    caller: &Caller,
    id: &DocId,
) -> WriteFault
    ensures there { S.is_honest store.new → IsOwn result → is_some (map.get (S.contents store.old) db.now) ≡ true }
    ensures refused { S.is_honest store.new → IsOwn result
        → IfThere (map.get (S.contents store.old) db.now) (λ d. unnamed_deletion (terms_in caller.now db.now d) id.now ≡ Err result) }
    ensures passed { Refuses S.Store store.old store.new (map.get (S.contents store.old) db.now ≡ None) ⊥ result }
    ensures reads { OnlyReads S.Store store.old store.new }
{
    let security = match store.security(db) {
        Ok(security) => security,
        Err(fault) => return WriteFault::from(fault),
    };
    match find_design_rule(caller, &security, id) {
        Some(rule) => WriteFault::Denied(rule),
        None => WriteFault::Conflict,
    }
}
