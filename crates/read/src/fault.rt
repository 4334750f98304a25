ghost use Rattle.std.specs.Prelude.{◌≡◌};
ghost use Rattle.read.specs.declared.fault.ReadFault.TheVariants.{Memory};

use couch_json::NoMemory;
use std::alloc::AllocError;
use store::StoreFault;
use thiserror::Error;

/// Why nothing was read.
#[derive(Clone, Copy, Debug, PartialEq, Eq, Error)]
pub enum ReadFault {
    /// The document was never written.
    #[error("missing")]
    Missing,
    /// The document is deleted.
    #[error("deleted")]
    Deleted,
    /// What was asked for is no query.
    #[error("not a query")]
    BadQuery,
    /// The store refused, for another cause than lack of memory.
    #[error("{0}")]
    Store(StoreFault),
    /// Memory ran out, here or in the store.
    #[error("out of memory")]
    Memory,
}

impl From<StoreFault> for ReadFault {
    ghost use Rattle.read.specs.Answers.{fault_of_store};

    ghost from_gives = { λ fault given. given ≡ fault_of_store fault };

    fn from(fault: StoreFault) -> ReadFault {
        match fault {
            StoreFault::Memory => ReadFault::Memory,
            _ => ReadFault::Store(fault),
        }
    }
}

impl From<NoMemory> for ReadFault {
    ghost from_gives = { λ _ fault. fault ≡ Memory };

    fn from(_no_memory: NoMemory) -> ReadFault {
        ReadFault::Memory
    }
}

impl From<AllocError> for ReadFault {
    ghost from_gives = { λ _ fault. fault ≡ Memory };

    fn from(_error: AllocError) -> ReadFault {
        ReadFault::Memory
    }
}
