ghost use Rattle.std.specs.Prelude.{◌≡◌};
ghost use Rattle.api.specs.declared.fault.RequestFault.TheVariants.{Memory};

use crate::refusal::Refusal;
use couch_json::NoMemory;
use std::alloc::AllocError;
use thiserror::Error;

/// Why a request was not read to its end.
#[derive(Debug, Drop, Error)]
pub enum RequestFault {
    /// The request is refused.
    #[error("the request is refused")]
    Refused(Refusal),
    /// Memory ran out.
    #[error("out of memory")]
    Memory,
}

impl From<NoMemory> for RequestFault {
    ghost from_gives = { λ _ fault. fault ≡ Memory };

    fn from(_no_memory: NoMemory) -> RequestFault {
        RequestFault::Memory
    }
}

impl From<AllocError> for RequestFault {
    ghost from_gives = { λ _ fault. fault ≡ Memory };

    fn from(_error: AllocError) -> RequestFault {
        RequestFault::Memory
    }
}
