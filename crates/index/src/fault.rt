//! Why index rows were not read or changed.

ghost use Rattle.std.specs.Prelude.{◌≡◌};
ghost use Rattle.index.specs.declared.fault.IndexFault.TheVariants as fault;

use couch_json::NoMemory;
use sqlite::Error;
use std::alloc::{AllocError, AllocFailed};

/// Why index rows were not read or changed.
#[derive(Drop)]
pub enum IndexFault {
    /// A statement failed.
    Sqlite(Error),
    /// Memory ran out.
    Memory,
    /// A row is not laid out as this server lays it out.
    Damaged,
}

impl From<Error> for IndexFault {
    ghost from_gives = { λ e made. made ≡ fault.Sqlite e };

    fn from(error: Error) -> IndexFault {
        IndexFault::Sqlite(error)
    }
}

impl From<NoMemory> for IndexFault {
    ghost from_gives = { λ _ made. made ≡ fault.Memory };

    fn from(_no_memory: NoMemory) -> IndexFault {
        IndexFault::Memory
    }
}

impl From<AllocError> for IndexFault {
    ghost from_gives = { λ _ made. made ≡ fault.Memory };

    fn from(_error: AllocError) -> IndexFault {
        IndexFault::Memory
    }
}

impl<T: Drop> From<AllocFailed<T>> for IndexFault {
    ghost from_gives = { λ _ made. made ≡ fault.Memory };

    fn from(_failed: AllocFailed<T>) -> IndexFault {
        IndexFault::Memory
    }
}
