ghost use Rattle.std.specs.Prelude.{◌≢◌};
ghost use Rattle.sqlstore.specs.Opening.{IsErrorOf};

use sqlite::{Error, ErrorCode};
use thiserror::Error as ErrorDerive;

/// Why a store was not opened.
#[derive(Clone, Copy, Debug, PartialEq, Eq, ErrorDerive)]
pub enum OpenFault {
    /// Memory ran out.
    #[error("out of memory")]
    Memory = 1,
    /// What the store stands on failed, as a disk.
    #[error("the store failed")]
    Failed = 2,
    /// The tables are not those of this server, or a transaction was open. A row of a file of the first
    /// version that is met as that is carried over, and is not laid out, is told so too.
    #[error("not a store of this server")]
    NotOurs = 3,
}

/// Tells what fault an error is.
pub(crate) fn open_fault(error: Error) -> OpenFault
    ensures told { IsErrorOf error result }
    ensures ours { result ≢ OpenFault.NotOurs }
{
    if error == Error::SqliteFailure(ErrorCode::OutOfMemory) {
        OpenFault::Memory
    } else {
        OpenFault::Failed
    }
}
