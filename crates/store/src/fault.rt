ghost use Rattle.std.specs.Prelude.{◌≡◌};
ghost use Rattle.store.specs.declared.fault.StoreFault.TheVariants.{Memory};

use couch_json::NoMemory;
use std::alloc::{AllocError, AllocFailed};
use thiserror::Error;

/// Why a store refused a call. It is then as it was before.
#[derive(Clone, Copy, Debug, PartialEq, Eq, Error)]
pub enum StoreFault {
    /// Memory ran out.
    #[error("out of memory")]
    Memory = 1,
    /// What the store stands on failed, as a disk; such faults are counted.
    #[error("the store failed")]
    Failed = 2,
    /// There is no database of this name.
    #[error("no such database")]
    NoDatabase = 3,
    /// There is a database of this name already.
    #[error("the database exists")]
    Exists = 4,
    /// What is stored is not laid out as the store lays it out.
    #[error("a damaged store")]
    Damaged = 5,
    /// A number that the store gives out has reached its greatest value.
    #[error("the store is full")]
    Full = 6,
}

impl From<NoMemory> for StoreFault {
    ghost from_gives = { λ _ fault. fault ≡ Memory };

    fn from(_no_memory: NoMemory) -> StoreFault {
        StoreFault::Memory
    }
}

impl From<AllocError> for StoreFault {
    ghost from_gives = { λ _ fault. fault ≡ Memory };

    fn from(_error: AllocError) -> StoreFault {
        StoreFault::Memory
    }
}

impl<T: Drop> From<AllocFailed<T>> for StoreFault {
    ghost from_gives = { λ _ fault. fault ≡ Memory };

    fn from(_failed: AllocFailed<T>) -> StoreFault {
        StoreFault::Memory
    }
}
