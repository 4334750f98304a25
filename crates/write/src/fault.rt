ghost use Rattle.std.specs.Prelude.{◌≡◌};
ghost use Rattle.write.specs.declared.fault.WriteFault.TheVariants.{Memory};

use couch_json::NoMemory;
use policy::Rule;
use std::alloc::{AllocError, AllocFailed};
use store::StoreFault;
use thiserror::Error;

/// Why a write was refused. Nothing has changed then.
#[derive(Debug, Drop, Error)]
pub enum WriteFault {
    /// The document is no object, has a special member that it may not have, its body nests more
    /// than 100 deep, or it is a design document whose rule is no selector or whose indexes are not
    /// of their form.
    #[error("a bad document")]
    BadDocument,
    /// This rule refused it, the first that does: the caller may not write design documents, or an
    /// update rule of the database does not hold.
    #[error("denied by a rule")]
    Denied(Rule),
    /// The path of revisions is not whole, or gives a known revision another parent.
    #[error("a bad revision history")]
    BadHistory,
    /// The edit does not follow the revision that it would have to follow.
    #[error("a conflict")]
    Conflict,
    /// No revision follows the one with the greatest number, 2,147,483,647.
    #[error("no further generation")]
    Generation,
    /// The store refused, for another cause than lack of memory.
    #[error("{0}")]
    Store(StoreFault),
    /// Memory ran out, here or in the store.
    #[error("out of memory")]
    Memory,
}

impl From<StoreFault> for WriteFault {
    ghost use Rattle.write.specs.Refusing.{fault_of_store};

    ghost from_gives = { λ fault given. given ≡ fault_of_store fault };

    fn from(fault: StoreFault) -> WriteFault {
        match fault {
            StoreFault::Memory => WriteFault::Memory,
            _ => WriteFault::Store(fault),
        }
    }
}

impl From<NoMemory> for WriteFault {
    ghost from_gives = { λ _ fault. fault ≡ Memory };

    fn from(_no_memory: NoMemory) -> WriteFault {
        WriteFault::Memory
    }
}

impl From<AllocError> for WriteFault {
    ghost from_gives = { λ _ fault. fault ≡ Memory };

    fn from(_error: AllocError) -> WriteFault {
        WriteFault::Memory
    }
}

impl<T: Drop> From<AllocFailed<T>> for WriteFault {
    ghost from_gives = { λ _ fault. fault ≡ Memory };

    fn from(_failed: AllocFailed<T>) -> WriteFault {
        WriteFault::Memory
    }
}
