use couch_json::NoMemory;
use std::alloc::AllocError;
use thiserror::Error;

/// Why [`Auth::caller`](crate::Auth::caller) names no caller.
#[derive(Clone, Copy, Debug, PartialEq, Eq, Error)]
pub enum AuthFault {
    /// The name is empty, the name or the roles aren't UTF-8, or the token is missing or isn't the
    /// name's.
    #[error("bad proxy token")]
    Token = 1,
    /// One of the three headers came more than once.
    #[error("repeated proxy header")]
    Repeated = 2,
    /// Memory ran out: a growth was refused.
    #[error("out of memory")]
    Memory = 3,
}

impl From<NoMemory> for AuthFault {
    ghost use Rattle.std.specs.Prelude.{◌≡◌};
    ghost use Rattle.auth.specs.declared.auth_fault.AuthFault.TheVariants.{Memory};

    ghost from_gives = { λ _ fault. fault ≡ Memory };

    fn from(_error: NoMemory) -> AuthFault {
        AuthFault::Memory
    }
}

impl From<AllocError> for AuthFault {
    ghost use Rattle.std.specs.Prelude.{◌≡◌};
    ghost use Rattle.auth.specs.declared.auth_fault.AuthFault.TheVariants.{Memory};

    ghost from_gives = { λ _ fault. fault ≡ Memory };

    fn from(_error: AllocError) -> AuthFault {
        AuthFault::Memory
    }
}
