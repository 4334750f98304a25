ghost use Rattle.std.specs.Prelude.{◌≡◌, IfErr, OnOk, Some, None, option_map};
ghost use Rattle.std.specs.FinMap as map;
ghost use Rattle.store.specs.Calls.{ChangesWhole};
ghost use Rattle.store.specs.Contents.{IfThere, IsThereWith};
ghost use Rattle.write.specs.Planning.{LacksRoomFor, MayBeMade, database_after};
ghost use Rattle.write.specs.Refusing.{IsOfStoreOrMemory, Refuses};

use crate::fault::WriteFault;
use crate::planned::{Changes, Planned};
use store::Store;

/// Makes the planned change, the only step that changes the store.
///
/// The caller owes that the change may be made still: that what the store holds under the
/// database's name is what it held when the plan was made. At `Ok` the database has the writes at
/// its end, or the security object, or the local document; at `Err` nothing has changed. `Store(NoDatabase)` comes exactly
/// where there is no database of this name.
pub fn apply<S: Store>(store: &mut S, planned: Planned) -> Result<(), WriteFault>
    requires { S.is_honest store.old → IfThere (map.get (S.contents store.old) planned.database) (λ d. MayBeMade planned.changes d) }
    ensures ok { S.is_honest store.new → OnOk result (option_map (λ d. map.insert (S.contents store.old) planned.database (database_after planned.changes d))
        (map.get (S.contents store.old) planned.database) ≡ Some (S.contents store.new)) }
    ensures only { IfErr result IsOfStoreOrMemory }
    ensures passed { IfErr result (Refuses S.Store store.old store.new (map.get (S.contents store.old) planned.database ≡ None)
        (S.is_honest store.new
        → IsThereWith (map.get (S.contents store.old) planned.database) (λ d. LacksRoomFor (S.lacks_room store.old) planned.database planned.changes d))) }
    ensures changes { ChangesWhole S.Store store.old store.new result }
{
    let Planned {
        database,
        changes,
        ..
    } = planned;
    match changes {
        Changes::Writes(writes) => store.commit(&database, &writes)?,
        Changes::Security(security) => store.set_security(&database, &security)?,
        Changes::Local(id, document) => store.set_local(&database, &id, &document)?,
    }
    Ok(())
}
