ghost use Rattle.std.specs.Prelude.{◌≡◌};
ghost use Rattle.couch_json.specs.declared.malformed.Malformed.TheVariants.{Memory};

use crate::no_memory::NoMemory;
use std::alloc::{AllocError, AllocFailed};
use thiserror::Error;

/// Why a text or a value was refused by a call that reads one form: a field path, an id, a name, a security
/// object, or a query. The crate of such a call has a name of its own for this type, which says what the form is.
#[derive(Clone, Copy, Debug, PartialEq, Eq, Error)]
pub enum Malformed {
    /// It does not have the form.
    #[error("malformed")]
    Shape = 1,
    /// Memory ran out.
    #[error("out of memory")]
    Memory = 2,
}

impl From<NoMemory> for Malformed {
    ghost from_gives = { λ _ fault. fault ≡ Memory };

    fn from(_no_memory: NoMemory) -> Malformed {
        Malformed::Memory
    }
}

impl From<AllocError> for Malformed {
    ghost from_gives = { λ _ fault. fault ≡ Memory };

    fn from(_error: AllocError) -> Malformed {
        Malformed::Memory
    }
}

impl<T: Drop> From<AllocFailed<T>> for Malformed {
    ghost from_gives = { λ _ fault. fault ≡ Memory };

    fn from(_failed: AllocFailed<T>) -> Malformed {
        Malformed::Memory
    }
}
