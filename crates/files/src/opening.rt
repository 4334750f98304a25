//! Opens the store in a file.

ghost use Rattle.std.specs.Prelude.{◌≡◌, ◌⊎◌, IfErr, IfOk, IsTrue, codes, false, true};
ghost use Rattle.sqlite.specs.Files.{Finds, file_state, over_files};
ghost use Rattle.sqlite.specs.State.{HasCleanDisk};
ghost use Rattle.sqlite.specs.WalFiles.{image_at};
ghost use Rattle.sqlite_std_file.specs.File.{IsFresh, file_is_usable};
ghost use Rattle.sqlstore.specs.Model.{fault_count, is_clean};
ghost use Rattle.files.specs.Opening.{IsOpenedFrom, IsOpenedOver};

use crate::page_cache::{FEW_PAGES, choose_pages};
use command_line::ProgramFault;
use sqlite::{
    Alter, Connection, Error, ErrorCode, File, FileFrom, FileStore, Files, Options, Start, Unknown,
};
use sqlite_disk::Disk;
use sqlite_std_file::OpenError;
use sqlstore::{OpenFault, SqlStore};
use std::alloc::Global;
use std::fs::OpenOptions;
use std::hash::{BuildHasher, RandomState};
use std::io::ErrorKind;
use std::os::unix::fs::OpenOptionsExt;

/// The mode of a file that is made.
const OWNER_ALONE: u32 = 0o600;

/// The path that SQLite takes for memory, and that is refused.
const NO_FILE: &str = ":memory:";

/// How a URI begins, which is refused.
const URI: &str = "file:";

/// Opens the store in a file, or makes both. A file that is made is its owner's alone. At most so many
/// megabytes of its pages are kept in memory, and fewer where there isn't the memory.
///
/// `File`: the file can't be opened or read, or it is no store of this server. `Memory`: memory ran
/// out.
pub fn open_file(
    rt: &HostRuntime,
    path: &str,
    megabytes: u32,
) -> Result<SqlStore<FileStore<File>>, ProgramFault>
    ensures no_faults { IfOk result (λ s. fault_count over_files s ≡ 0) }
    ensures faults { IfErr result (λ fault. (fault ≡ ProgramFault.File) ⊎ (fault ≡ ProgramFault.Memory)) }
    ensures memory { path.now ≡ codes ":memory:" → result ≡ Err ProgramFault.File }
{
    let pages = choose_pages(rt, path, megabytes);
    match open_store(rt, path, Unknown, pages) {
        Err(ProgramFault::Memory) if pages > FEW_PAGES => {
            open_store(rt, path, Unknown, FEW_PAGES)
        }
        opened => opened,
    }
}

/// Opens the store in a file, or makes both. A file that is made is its owner's alone. So many of its pages
/// are kept in memory.
///
/// `File`: the file can't be opened or read, or it is no store of this server. `Memory`: memory ran
/// out.
pub fn open_store<S: Start>(
    rt: &HostRuntime,
    path: &str,
    start: S,
    pages: usize,
) -> Result<SqlStore<FileStore<FileFrom<S>>>, ProgramFault>
    // What the files held is found in it; `start` stands for that.
    ensures found { IfOk result (λ s. is_clean over_files s → IsOpenedFrom (image_at S.Start) s) }
    ensures no_faults { IfOk result (λ s. fault_count over_files s ≡ 0) }
    ensures faults { IfErr result (λ fault. (fault ≡ ProgramFault.File) ⊎ (fault ≡ ProgramFault.Memory)) }
    // It is a file in any case.
    ensures memory { path.now ≡ codes ":memory:" → result ≡ Err ProgramFault.File }
{
    make_private(rt, path);
    let files = open_pair(rt, path, start)?;
    let conn = connect(rt, files, pages)?;
    open_tables(rt.alloc(), conn)
}

/// Makes an empty file that its owner alone may read and write, unless there is one. The library makes the
/// log with the mode of the file.
///
/// Where it can't be made nothing is told: the library then doesn't open it.
fn make_private(rt: &HostRuntime, path: &str) {
    if path == NO_FILE {
        return;
    }
    let _ = OpenOptions::new()
        .write(true)
        .create_new(true)
        .mode(OWNER_ALONE)
        .open(rt, path);
}

/// Opens the file at a path and its log, or makes them.
pub(crate) fn open_pair<S: Start>(
    rt: &HostRuntime,
    path: &str,
    start: S,
) -> Result<Files<FileFrom<S>>, ProgramFault>
    ensures usable { IfOk result (λ files. IsTrue (file_is_usable S.Start files.log) × IsTrue (file_is_usable S.Start files.db)) }
    ensures fresh { IfOk result (λ files. IsFresh true files.log × IsFresh false files.db) }
    ensures faults { IfErr result (λ fault. (fault ≡ ProgramFault.File) ⊎ (fault ≡ ProgramFault.Memory)) }
    ensures memory { path.now ≡ codes ":memory:" → result ≡ Err ProgramFault.File }
{
    if path == NO_FILE || path.starts_with(URI) {
        return Err(ProgramFault::File);
    }
    match sqlite_std_file::open(rt, path, start) {
        Ok(files) => Ok(files),
        Err(OpenError::OutOfMemory) => Err(ProgramFault::Memory),
        Err(OpenError::Io(error)) if error.kind() == ErrorKind::OutOfMemory => {
            Err(ProgramFault::Memory)
        }
        Err(_) => Err(ProgramFault::File),
    }
}

/// Connects to a file and its log, of which so many pages are kept in memory.
pub(crate) fn connect<D: Disk + Drop>(
    rt: &HostRuntime,
    files: Files<D>,
    pages: usize,
) -> Result<Connection<FileStore<D>>, ProgramFault>
    requires log { IsTrue (D.Disk.is_usable files.log) }
    requires db { IsTrue (D.Disk.is_usable files.db) }
    ensures found { IfOk result (λ c. HasCleanDisk (file_state c) → Finds files c) }
    ensures faults { IfErr result (λ fault. (fault ≡ ProgramFault.File) ⊎ (fault ≡ ProgramFault.Memory)) }
{
    let options = options_with(rt, pages)?;
    match Connection::open_files_with(rt.alloc(), files, options, false) {
        Ok(mut conn) => {
            conn.set_clock(rt);
            Ok(conn)
        }
        Err((error, _left)) => Err(file_fault(error)),
    }
}

/// Returns the library's own options, but with so many pages in memory, and a number at random.
fn options_with(rt: &HostRuntime, pages: usize) -> Result<Options, ProgramFault>
    ensures pages { IfOk result (λ options. options.cache_pages ≡ pages) }
    ensures faults { IfErr result (λ fault. fault ≡ ProgramFault.File) }
{
    let Ok(state) = RandomState::new(rt) else {
        return Err(ProgramFault::File);
    };
    Ok(Options {
        cache_pages: pages,
        ..Options::new(state.hash_one(&0u8))
    })
}

/// Opens the store that the tables of a connection hold, or makes the tables, whatever they stand on.
fn open_tables<S: Alter + Drop>(
    alloc: Global,
    conn: Connection<S>,
) -> Result<SqlStore<S>, ProgramFault>
    ensures opened { IfOk result (IsOpenedOver S.Store conn) }
    ensures no_faults { IfOk result (λ s. fault_count S.Store s ≡ 0) }
    ensures faults { IfErr result (λ fault. (fault ≡ ProgramFault.File) ⊎ (fault ≡ ProgramFault.Memory)) }
{
    match SqlStore::open(alloc, conn) {
        Ok(store) => Ok(store),
        Err((OpenFault::Memory, _conn)) => Err(ProgramFault::Memory),
        Err((OpenFault::Failed | OpenFault::NotOurs, _conn)) => Err(ProgramFault::File),
    }
}

/// Tells what fault an error of SQLite is.
pub(crate) fn file_fault(error: Error) -> ProgramFault
    ensures { (result ≡ ProgramFault.File) ⊎ (result ≡ ProgramFault.Memory) }
{
    if error == Error::SqliteFailure(ErrorCode::OutOfMemory) {
        ProgramFault::Memory
    } else {
        ProgramFault::File
    }
}
