ghost use Rattle.std.specs.Prelude.{◌≡◌};
ghost use Rattle.selector.specs.declared.fault.SelectorFault.TheVariants.{Memory};

use couch_json::NoMemory;
use std::alloc::{AllocError, AllocFailed};
use thiserror::Error;

/// Why a value was refused as a selector: the fault that stands first in its canonical text.
/// `Memory` may come in place of any answer.
#[derive(Clone, Copy, Debug, PartialEq, Eq, Error)]
pub enum SelectorFault {
    /// A member's name begins with `$` and is no operator. It stands at the name.
    #[error("no such operator")]
    Operator = 1,
    /// A value is not what its operator takes, or a name is no field path. It stands at the
    /// innermost such value, or at the name.
    #[error("not an argument of its operator")]
    Argument = 2,
    /// A selector object nests more than 32 deep. It stands at the object.
    #[error("nested too deep")]
    Depth = 3,
    /// Memory ran out.
    #[error("out of memory")]
    Memory = 4,
}

impl From<NoMemory> for SelectorFault {
    ghost from_gives = { λ _ fault. fault ≡ Memory };

    fn from(_no_memory: NoMemory) -> SelectorFault {
        SelectorFault::Memory
    }
}

impl<T: Drop> From<AllocFailed<T>> for SelectorFault {
    ghost from_gives = { λ _ fault. fault ≡ Memory };

    fn from(_failed: AllocFailed<T>) -> SelectorFault {
        SelectorFault::Memory
    }
}

impl From<AllocError> for SelectorFault {
    ghost from_gives = { λ _ fault. fault ≡ Memory };

    fn from(_error: AllocError) -> SelectorFault {
        SelectorFault::Memory
    }
}
