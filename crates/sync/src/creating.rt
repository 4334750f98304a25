//! A database that is created for a pass.

ghost use Rattle.std.specs.Prelude.{◌≡◌, ◌⊎◌, IfErr, OnErr, OnOk};
ghost use Rattle.sync.specs.Creating.{with_absent, with_database};

use command_line::ProgramFault;
use std::alloc::Global;
use store::{DbName, NameFault, Store, StoreFault};

/// Creates the database of this name where a store has none, closed to all but server admins. A text that
/// names no database creates nothing.
///
/// `File`: the store failed, is damaged or is full. `Memory`: memory ran out.
pub fn create_absent<S: Store>(
    alloc: Global,
    store: &mut S,
    database: &str,
) -> Result<(), ProgramFault>
    ensures created { S.is_honest store.new → OnOk result (S.contents store.new ≡ with_database (S.contents store.old) database.now) }
    ensures refused { S.is_honest store.new → OnErr result (S.contents store.new ≡ S.contents store.old) }
    ensures faults { IfErr result (λ fault. (fault ≡ ProgramFault.File) ⊎ (fault ≡ ProgramFault.Memory)) }
{
    match DbName::new(alloc, database) {
        Ok(name) => create_named(store, &name),
        Err(NameFault::Shape) => Ok(()),
        Err(NameFault::Memory) => Err(ProgramFault::Memory),
    }
}

/// Creates the database of this name where a store has none.
#[tactic(auto, using(crate::proofs::Absence::created))]
fn create_named<S: Store>(store: &mut S, name: &DbName) -> Result<(), ProgramFault>
    ensures created { S.is_honest store.new → OnOk result (S.contents store.new ≡ with_absent (S.contents store.old) name.now) }
    ensures refused { S.is_honest store.new → OnErr result (S.contents store.new ≡ S.contents store.old) }
    ensures faults { IfErr result (λ fault. (fault ≡ ProgramFault.File) ⊎ (fault ≡ ProgramFault.Memory)) }
{
    match store.create(name) {
        Ok(()) | Err(StoreFault::Exists) => Ok(()),
        Err(StoreFault::Memory) => Err(ProgramFault::Memory),
        Err(_) => Err(ProgramFault::File),
    }
}
