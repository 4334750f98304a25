use crate::no_memory::NoMemory;
use json::Invalid;
use std::alloc::{AllocError, AllocFailed};
use thiserror::Error;

/// Why bytes were not read as a value. The first that applies is answered, in the order
/// `Depth`, `Syntax`, `Number`; `Memory` may come at any time.
#[derive(Clone, Copy, Debug, PartialEq, Eq, Error)]
pub enum JsonFault {
    /// The bytes are no JSON text (RFC 8259), or not UTF-8.
    #[error("not a JSON text")]
    Syntax = 1,
    /// A number has a fraction or an exponent, is `-0`, or lies outside of -2^63 to 2^64 - 1.
    #[error("a number that is not whole or out of range")]
    Number = 2,
    /// More than 110 brackets and braces are open at once.
    #[error("nested too deep")]
    Depth = 3,
    /// Memory ran out.
    #[error("out of memory")]
    Memory = 4,
}

impl From<NoMemory> for JsonFault {
    ghost use Rattle.std.specs.Prelude.{◌≡◌};
    ghost use Rattle.couch_json.specs.declared.fault.JsonFault.TheVariants.{Memory};

    ghost from_gives = { λ _ fault. fault ≡ Memory };

    fn from(_no_memory: NoMemory) -> JsonFault {
        JsonFault::Memory
    }
}

impl From<AllocError> for JsonFault {
    ghost use Rattle.std.specs.Prelude.{◌≡◌};
    ghost use Rattle.couch_json.specs.declared.fault.JsonFault.TheVariants.{Memory};

    ghost from_gives = { λ _ fault. fault ≡ Memory };

    fn from(_error: AllocError) -> JsonFault {
        JsonFault::Memory
    }
}

impl<T: Drop> From<AllocFailed<T>> for JsonFault {
    ghost use Rattle.std.specs.Prelude.{◌≡◌};
    ghost use Rattle.couch_json.specs.declared.fault.JsonFault.TheVariants.{Memory};

    ghost from_gives = { λ _ fault. fault ≡ Memory };

    fn from(_failed: AllocFailed<T>) -> JsonFault {
        JsonFault::Memory
    }
}

impl From<Invalid> for JsonFault {
    ghost use Rattle.std.specs.Prelude.{◌≡◌};
    ghost use Rattle.couch_json.specs.declared.fault.JsonFault.TheVariants.{Syntax};

    ghost from_gives = { λ _ fault. fault ≡ Syntax };

    fn from(_invalid: Invalid) -> JsonFault {
        JsonFault::Syntax
    }
}
