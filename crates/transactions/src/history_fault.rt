ghost use Rattle.std.specs.Prelude.{◌≡◌};
ghost use Rattle.transactions.specs.declared.history_fault.HistoryFault.TheVariants.{Memory};

use couch_json::NoMemory;
use thiserror::Error;

/// Why a history gave no best revision.
#[derive(Clone, Copy, Debug, PartialEq, Eq, Error)]
pub enum HistoryFault {
    /// Memory ran out.
    #[error("out of memory")]
    Memory = 1,
    /// It has none, so it is not what writes make: what is stored of the document is damaged.
    #[error("a damaged history")]
    Damaged = 2,
}

impl From<NoMemory> for HistoryFault {
    ghost from_gives = { λ _ fault. fault ≡ Memory };

    fn from(_no_memory: NoMemory) -> HistoryFault {
        HistoryFault::Memory
    }
}
