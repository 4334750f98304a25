ghost use Rattle.std.specs.Prelude.{◌≡◌};
ghost use Rattle.node.specs.declared.early_end.EarlyEnd.TheVariants.{NoRoom};

use api::{Refusal, RequestFault};
use couch_json::NoMemory;
use read::ReadFault;
use store::StoreFault;

/// Why the work on a request ended before its reply was made. The store is as it was.
#[derive(Debug, Drop)]
pub(crate) enum EarlyEnd {
    /// The request is refused.
    Refused(Refusal),
    /// The store failed, for this cause.
    Failed(StoreFault),
    /// Memory ran out.
    NoRoom,
}

impl From<RequestFault> for EarlyEnd {
    ghost use Rattle.node.specs.Causes.{stop_of_request};

    ghost from_gives = { λ fault stop. stop ≡ stop_of_request fault };

    fn from(fault: RequestFault) -> EarlyEnd {
        match fault {
            RequestFault::Refused(refusal) => EarlyEnd::Refused(refusal),
            RequestFault::Memory => EarlyEnd::NoRoom,
        }
    }
}

impl From<StoreFault> for EarlyEnd {
    ghost use Rattle.node.specs.Causes.{stop_of};

    ghost from_gives = { λ fault stop. stop ≡ stop_of fault };

    fn from(fault: StoreFault) -> EarlyEnd {
        match fault {
            StoreFault::Memory => EarlyEnd::NoRoom,
            StoreFault::NoDatabase => EarlyEnd::Refused(Refusal::NoDatabase),
            StoreFault::Exists => EarlyEnd::Refused(Refusal::Exists),
            StoreFault::Failed | StoreFault::Damaged | StoreFault::Full => EarlyEnd::Failed(fault),
        }
    }
}

impl From<ReadFault> for EarlyEnd {
    ghost use Rattle.node.specs.Causes.{stop_of_reader};

    ghost from_gives = { λ fault stop. stop ≡ stop_of_reader fault };

    fn from(fault: ReadFault) -> EarlyEnd {
        match fault {
            ReadFault::Missing => EarlyEnd::Refused(Refusal::Missing),
            ReadFault::Deleted => EarlyEnd::Refused(Refusal::Deleted),
            ReadFault::BadQuery => EarlyEnd::Refused(Refusal::Query),
            ReadFault::Store(fault) => EarlyEnd::from(fault),
            ReadFault::Memory => EarlyEnd::NoRoom,
        }
    }
}

impl From<NoMemory> for EarlyEnd {
    ghost from_gives = { λ _ stop. stop ≡ NoRoom };

    fn from(_no_memory: NoMemory) -> EarlyEnd {
        EarlyEnd::NoRoom
    }
}
