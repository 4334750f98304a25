use couch_http::HttpFault;
use std::alloc::AllocFailed;
use thiserror::Error;

/// Why a hub did nothing.
#[derive(Clone, Copy, Debug, PartialEq, Eq, Error)]
pub enum HubFault {
    /// No connection was ever given this number.
    #[error("unknown connection")]
    Unknown = 1,
    /// The connection has ended: by a last request, by a fault of its stream or by `close`.
    #[error("closed connection")]
    Closed = 2,
    /// A growth was refused.
    #[error("out of memory")]
    Memory = 3,
    /// All numbers of connections are given, up to 2^64 - 1.
    #[error("no more connections")]
    Full = 4,
}

impl From<HttpFault> for HubFault {
    ghost use Rattle.std.specs.Prelude.{◌≡◌};
    ghost use Rattle.hub.specs.Faults.{fault_of_cutter};

    ghost from_gives = { λ fault given. given ≡ fault_of_cutter fault };

    fn from(fault: HttpFault) -> HubFault {
        match fault {
            HttpFault::Closed => HubFault::Closed,
            _ => HubFault::Memory,
        }
    }
}

impl<T: Drop> From<AllocFailed<T>> for HubFault {
    ghost use Rattle.std.specs.Prelude.{◌≡◌};
    ghost use Rattle.hub.specs.declared.fault.HubFault.TheVariants.{Memory};

    ghost from_gives = { λ _ fault. fault ≡ Memory };

    fn from(_failed: AllocFailed<T>) -> HubFault {
        HubFault::Memory
    }
}
