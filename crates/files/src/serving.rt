//! The store in a file, behind a port of this machine.

ghost use Rattle.std.specs.Prelude.{◌≡◌, IfOk};

use crate::opening::open_file;
use command_line::ProgramFault;
use server::serve_store;
use sqlite::Alter;
use sqlstore::SqlStore;

/// Serves the store in a file, which is opened, or made, before the port is bound. At most so many
/// megabytes of its pages are kept in memory. Where `is_logged`, a line on standard error tells of each
/// reply of 500, and of the end.
pub fn serve_file(
    rt: &HostRuntime,
    secret: &str,
    admins: &[String],
    path: &str,
    port: u16,
    conns: u32,
    at_once: u32,
    megabytes: u32,
    is_logged: bool,
) -> Result<u8, ProgramFault>
    ensures { IfOk result (λ status. status ≡ 0) }
{
    let store = open_file(rt, path, megabytes)?;
    serve_tables(rt, secret, admins, store, port, conns, at_once, is_logged)
}

/// Serves a store over tables, whatever files these stand on.
fn serve_tables<S: Alter + Drop>(
    rt: &HostRuntime,
    secret: &str,
    admins: &[String],
    store: SqlStore<S>,
    port: u16,
    conns: u32,
    at_once: u32,
    is_logged: bool,
) -> Result<u8, ProgramFault>
    ensures { IfOk result (λ status. status ≡ 0) }
{
    serve_store(rt, secret, admins, store, port, conns, at_once, is_logged)
}
