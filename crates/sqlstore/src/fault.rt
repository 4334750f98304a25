//! What a store makes of an error of SQLite, and of writes that were not done.

ghost use Rattle.std.specs.Prelude.{◌≡◌, ◌≤◌, Err, IfErr, IfOk, Ok};
ghost use Rattle.sqlstore.specs.inner.Causes.{IsJudged};
ghost use Rattle.index.specs.declared.fault.IndexFault.{IndexFault as TheFault};
ghost use Rattle.sqlstore.specs.inner.Commits.{IsIndexToldAs, IsToldAs};

use index::IndexFault;
use sqlite::{Error, ErrorCode, Row};
use store::StoreFault;
use transactions::CommitFault;

/// Tells what fault an error is, and counts it, but for want of memory.
pub(crate) fn judge(faults: &mut u64, error: Error) -> StoreFault
    ensures judged { IsJudged faults.old faults.new result }
    ensures counted { faults.old ≤ faults.new }
{
    if error == Error::SqliteFailure(ErrorCode::OutOfMemory) {
        return StoreFault::Memory;
    }
    *faults = faults.saturating_add(1);
    StoreFault::Failed
}

/// Returns the rows that a query answered, and counts them, or tells what fault its error is.
pub(crate) fn judge_answer(
    faults: &mut u64,
    fetched: &mut u64,
    answer: Result<Vec<Row>, Error>,
) -> Result<Vec<Row>, StoreFault>
    ensures ok { IfOk result (λ told. answer ≡ Ok told) }
    ensures judged { IfErr result (IsJudged faults.old faults.new) }
    ensures counted { faults.old ≤ faults.new }
{
    match answer {
        Ok(rows) => {
            *fetched = fetched.saturating_add(rows.len() as u64);
            Ok(rows)
        }
        Err(error) => Err(judge(faults, error)),
    }
}

/// Tells what fault of a store it is, and counts an error of SQLite, but for want of memory.
pub(crate) fn judge_write(faults: &mut u64, fault: CommitFault) -> StoreFault
    ensures told { IsToldAs faults.old faults.new fault result }
    ensures counted { faults.old ≤ faults.new }
{
    match fault {
        CommitFault::Sqlite(error) => judge(faults, error),
        CommitFault::Store(fault) => fault,
    }
}

/// Returns what was read of an index, or tells what fault of a store it is that it was not, and counts an
/// error of SQLite, but for want of memory.
pub(crate) fn judge_index<T>(
    faults: &mut u64,
    answer: Result<T, IndexFault>,
) -> Result<T, StoreFault>
    ensures ok { IfOk result (λ told. answer ≡ Ok told) }
    ensures told { IfErr result (λ told. (fault : TheFault) × (answer ≡ Err fault) × IsIndexToldAs faults.old faults.new fault told) }
    ensures counted { faults.old ≤ faults.new }
{
    match answer {
        Ok(told) => Ok(told),
        Err(IndexFault::Sqlite(error)) => Err(judge(faults, error)),
        Err(IndexFault::Memory) => Err(StoreFault::Memory),
        Err(IndexFault::Damaged) => Err(StoreFault::Damaged),
    }
}
