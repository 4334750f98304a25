//! A check of the store in a file.

ghost use Rattle.std.specs.Prelude.{◌≡◌, ◌≢◌, ◌⊎◌, IfErr, IfOk};
ghost use Rattle.sqlite.specs.Held.{state};
ghost use Rattle.sqlite.specs.State.{HasCleanDisk};
ghost use Rattle.tables.specs.Schema.{schema};
ghost use Rattle.transactions.specs.Indexing.{IsCommittedStore};
ghost use Rattle.file_check.specs.Checks.{IsSame};
ghost use Rattle.file_check.specs.Verdicts.{AreAllKept};

use crate::opening::{connect, file_fault, open_pair};
use crate::page_cache::choose_pages;
use command_line::ProgramFault;
use file_check::{CheckFault, Counts, Finding, Verdict, check};
use sqlite::{Alter, Connection, Unknown};
use std::{fs, io};

/// The status of a file that is a store.
const SOUND: u8 = 0;

/// The status of a file that is none.
const UNSOUND: u8 = 5;

/// Checks the store in the file at a path, and prints what is found as a line. The answer is the program's
/// status: 0 where it is a store of this server, and 5 where it isn't. At most so many megabytes of its pages
/// are kept in memory.
///
/// No row is written. The library makes an empty log beside the file where there is none.
///
/// `File`: there is no file, or it can't be opened or read, or the line can't be printed. `Memory`: memory
/// ran out.
pub fn check_file(rt: &HostRuntime, path: &str, megabytes: u32) -> Result<u8, ProgramFault>
    ensures status { IfOk result (λ status. (status ≡ 0) ⊎ (status ≡ 5)) }
    ensures faults { IfErr result (λ fault. (fault ≡ ProgramFault.File) ⊎ (fault ≡ ProgramFault.Memory)) }
{
    if fs::metadata(rt, path).is_err() {
        return Err(ProgramFault::File);
    }
    let pages = choose_pages(rt, path, megabytes);
    let files = open_pair(rt, path, Unknown)?;
    let conn = connect(rt, files, pages)?;
    check_tables(rt, conn)
}

/// Checks the store that the tables of a connection hold as `check_store` does, and closes it.
fn check_tables<S: Alter + Drop>(rt: &HostRuntime, conn: Connection<S>) -> Result<u8, ProgramFault>
    ensures status { IfOk result (λ status. (status ≡ 0) ⊎ (status ≡ 5)) }
    ensures faults { IfErr result (λ fault. (fault ≡ ProgramFault.File) ⊎ (fault ≡ ProgramFault.Memory)) }
{
    let mut conn = conn;
    check_store(rt, &mut conn)
}

/// Checks the store that the tables of a connection hold, and prints what is found as a line. The answer is the
/// program's status.
///
/// `File`: the tables can't be read, or the line can't be printed. `Memory`: memory ran out.
pub fn check_store<R: Print + AllocGlobal, S: Alter>(
    rt: &R,
    conn: &mut Connection<S>,
) -> Result<u8, ProgramFault>
    ensures status { IfOk result (λ status. (status ≡ 0) ⊎ (status ≡ 5)) }

    // Where the disk returned what was written, 0 says that the tables are a store, with the rows of indexes that a rebuild would make, if
    // rows are kept as SQLite keeps what it is given. The connection is as it was then.
    ensures sound { IfOk result (λ status. status ≡ 0 → HasCleanDisk (state S.Store conn.new)
        → AreAllKept (state S.Store conn.old).now.trees → IsCommittedStore (state S.Store conn.old).now) }
    // 5 says that they are none, without the second.
    ensures unsound { IfOk result (λ status. status ≡ 5 → HasCleanDisk (state S.Store conn.new) → ¬ IsCommittedStore (state S.Store conn.old).now) }
    ensures stays { IfOk result (λ _. HasCleanDisk (state S.Store conn.new) → AreAllKept (state S.Store conn.old).now.trees
        → IsSame (state S.Store conn.old) (state S.Store conn.new)) }
    // Where the schema is another it is 5, and nothing is read.
    ensures other { IfOk result (λ status. conn.old.schema ≢ schema → (status ≡ 5) × (conn.new ≡ conn.old)) }
    ensures faults { IfErr result (λ fault. (fault ≡ ProgramFault.File) ⊎ (fault ≡ ProgramFault.Memory)) }
{
    match check(rt.alloc(), conn) {
        Ok(Verdict::Sound(counts)) => {
            print_counts(rt, &counts)?;
            Ok(SOUND)
        }
        Ok(Verdict::Unsound(finding)) => {
            print_finding(rt, &finding)?;
            Ok(UNSOUND)
        }
        Err(CheckFault::Memory) => Err(ProgramFault::Memory),
        Err(CheckFault::Sqlite(error)) => Err(file_fault(error)),
    }
}

/// Prints how many rows a store has.
fn print_counts<R: Print>(rt: &R, counts: &Counts) -> Result<(), ProgramFault>
    ensures { IfErr result (λ fault. (fault ≡ ProgramFault.File) ⊎ (fault ≡ ProgramFault.Memory)) }
{
    let Counts {
        databases,
        documents,
        revisions,
        locals,
        indexes,
        entries,
    } = *counts;
    let printed = println!(rt;
        "sound: {databases} databases, {documents} documents, {revisions} revisions, {locals} local documents, {indexes} indexes, {entries} entries"
    );
    judge_line(printed)
}

/// Prints the row that no store has: its table, its number there, and what is wrong with it.
fn print_finding<R: Print>(rt: &R, finding: &Finding) -> Result<(), ProgramFault>
    ensures { IfErr result (λ fault. (fault ≡ ProgramFault.File) ⊎ (fault ≡ ProgramFault.Memory)) }
{
    let table = finding.table.name();
    let key = finding.key;
    let wrong = finding.wrong.word();
    let printed = println!(rt; "unsound: {table} {key}: {wrong}");
    judge_line(printed)
}

/// Tells what fault it is that a line can't be printed.
fn judge_line(printed: io::Result<()>) -> Result<(), ProgramFault>
    ensures { IfErr result (λ fault. (fault ≡ ProgramFault.File) ⊎ (fault ≡ ProgramFault.Memory)) }
{
    match printed {
        Ok(()) => Ok(()),
        Err(_) => Err(ProgramFault::File),
    }
}
