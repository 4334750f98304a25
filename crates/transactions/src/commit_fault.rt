//! Why writes were not done.

ghost use Rattle.std.specs.Prelude.{◌≡◌};
ghost use Rattle.store.specs.declared.fault.StoreFault.TheVariants.{Memory};
ghost use Rattle.transactions.specs.Reading.{store_fault_of};
ghost use Rattle.transactions.specs.Indexing.{of_index_fault};
ghost use Rattle.transactions.specs.declared.commit_fault.CommitFault.TheVariants as fault;

use crate::history_fault::HistoryFault;
use couch_json::NoMemory;
use index::IndexFault;
use sqlite::Error;
use store::StoreFault;

/// Why writes were not done.
#[derive(Drop)]
pub enum CommitFault {
    /// A statement failed.
    Sqlite(Error),
    /// Memory ran out, or what is stored of a document is damaged: a row, or its history as a whole.
    Store(StoreFault),
}

impl From<Error> for CommitFault {
    ghost from_gives = { λ e made. made ≡ fault.Sqlite e };

    fn from(error: Error) -> CommitFault {
        CommitFault::Sqlite(error)
    }
}

impl From<StoreFault> for CommitFault {
    ghost from_gives = { λ e made. made ≡ fault.Store e };

    fn from(fault: StoreFault) -> CommitFault {
        CommitFault::Store(fault)
    }
}

impl From<NoMemory> for CommitFault {
    ghost from_gives = { λ _ made. made ≡ fault.Store Memory };

    fn from(_no_memory: NoMemory) -> CommitFault {
        CommitFault::Store(StoreFault::Memory)
    }
}

impl From<HistoryFault> for CommitFault {
    ghost from_gives = { λ e made. made ≡ fault.Store (store_fault_of e) };

    fn from(fault: HistoryFault) -> CommitFault {
        match fault {
            HistoryFault::Memory => CommitFault::Store(StoreFault::Memory),
            HistoryFault::Damaged => CommitFault::Store(StoreFault::Damaged),
        }
    }
}

impl From<IndexFault> for CommitFault {
    ghost from_gives = { λ e made. made ≡ of_index_fault e };

    fn from(fault: IndexFault) -> CommitFault {
        match fault {
            IndexFault::Sqlite(error) => CommitFault::Sqlite(error),
            IndexFault::Memory => CommitFault::Store(StoreFault::Memory),
            IndexFault::Damaged => CommitFault::Store(StoreFault::Damaged),
        }
    }
}
