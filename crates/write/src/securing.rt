ghost use Rattle.std.specs.Prelude.{◌≡◌, ◌≢◌, [], true, IfOk, IfErr, None, Ok, Err, is_some};
ghost use Rattle.std.specs.FinMap as map;
ghost use Rattle.couch_json.specs.View.{view};
ghost use Rattle.store.specs.Calls.{OnlyReads};
ghost use Rattle.write.specs.Refusing.{IsDecided, IsOfStoreOrMemory, IsOwn, Refuses};
ghost use Rattle.write.specs.Planning.{security_outcome};

use crate::fault::WriteFault;
use crate::planned::{Changes, Planned};
use couch_json::Json;
use policy::{Security, SecurityFault};
use std::alloc::Global;
use store::{DbName, Store};

/// Plans another security object for a database. It reads the store and changes nothing.
///
/// `BadDocument` comes if and only if the value is no security object; `Store(NoDatabase)` exactly
/// where there is no database of this name, and before it. See the CouchDB manual,
/// api/database/security.
pub fn put_security<S: Store>(
    alloc: Global,
    store: &mut S,
    db: &DbName,
    value: &Json,
) -> Result<Planned, WriteFault>
    ensures there { S.is_honest store.new → IsDecided result → is_some (map.get (S.contents store.old) db.now) ≡ true }
    ensures ok { IfOk result (λ planned. security_outcome (view value.now) ≡ Ok (view value.now)) }
    ensures changes { IfOk result (λ planned. planned.changes ≡ Changes.Security (view value.now)) }
    ensures results { IfOk result (λ planned. planned.results.items ≡ []) }
    ensures database { IfOk result (λ planned. planned.database ≡ db.now) }
    ensures refused { IfErr result (λ fault. IsOwn fault → security_outcome (view value.now) ≡ Err fault) }
    ensures only { IfErr result (λ fault. fault ≢ WriteFault.BadDocument → IsOfStoreOrMemory fault) }
    ensures passed { IfErr result (Refuses S.Store store.old store.new (map.get (S.contents store.old) db.now ≡ None) ⊥) }
    ensures reads { OnlyReads S.Store store.old store.new }
{
    let _present = store.security(db)?;
    plan_security(alloc, db, value)
}

/// Plans to set a value that is a security object.
fn plan_security(alloc: Global, db: &DbName, value: &Json) -> Result<Planned, WriteFault>
    ensures ok { IfOk result (λ planned. security_outcome (view value.now) ≡ Ok (view value.now)) }
    ensures changes { IfOk result (λ planned. planned.changes ≡ Changes.Security (view value.now)) }
    ensures results { IfOk result (λ planned. planned.results.items ≡ []) }
    ensures database { IfOk result (λ planned. planned.database ≡ db.now) }
    ensures refused { IfErr result (λ fault. fault ≢ WriteFault.Memory → security_outcome (view value.now) ≡ Err fault) }
    ensures only { IfErr result (λ fault. fault ≢ WriteFault.BadDocument → fault ≢ WriteFault.Memory → ⊥) }
{
    let security = match Security::read(alloc, value) {
        Ok(security) => security,
        Err(SecurityFault::Shape) => return Err(WriteFault::BadDocument),
        Err(SecurityFault::Memory) => return Err(WriteFault::Memory),
    };
    Ok(Planned {
        database: db.copy(alloc)?,
        changes: Changes::Security(security),
        results: Vec::new(alloc),
    })
}
