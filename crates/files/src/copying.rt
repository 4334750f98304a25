//! The sides of a pass that the words of a command line name, and the pass between them.

use crate::opening::open_file;
use command_line::{ProgramFault, SyncPlan, SyncSide};
use sqlite::Alter;
use sqlstore::SqlStore;
use std::fs::OpenOptions;
use std::io::IsTerminal;
use sync::{ProgressLine, sync_addresses, sync_store, sync_stores};

/// Copies a database as the words of a command line say. The files are opened first, the source's and
/// then the target's. Prints the report, and where standard error is a terminal it shows there how far
/// the pass is, and what is left. Returns the program's status.
pub fn sync(rt: &HostRuntime, plan: &SyncPlan) -> Result<u8, ProgramFault> {
    check_source(rt, plan)?;
    let mut watch = ProgressLine::new(rt, rt.stderr().is_terminal(), plan.log);
    match (&plan.source, &plan.target) {
        (SyncSide::File(from), SyncSide::File(to)) => sync_files(rt, plan, from, to, &mut watch),
        (SyncSide::File(path), SyncSide::Address(address))
        | (SyncSide::Address(address), SyncSide::File(path)) => {
            sync_file(rt, plan, path, address, &mut watch)
        }
        (SyncSide::Address(from), SyncSide::Address(to)) => {
            sync_addresses(rt, plan, from, to, &mut watch)
        }
    }
}

/// Looks whether the source is there, where it is a file: else the library would make one.
fn check_source(rt: &HostRuntime, plan: &SyncPlan) -> Result<(), ProgramFault> {
    match &plan.source {
        SyncSide::File(path) => match OpenOptions::new().read(true).open(rt, path) {
            Ok(_) => Ok(()),
            Err(error) => Err(ProgramFault::from(error)),
        },
        SyncSide::Address(_) => Ok(()),
    }
}

/// Copies a database of the store in a file to one of that in another.
fn sync_files(
    rt: &HostRuntime,
    plan: &SyncPlan,
    from: &str,
    to: &str,
    watch: &mut ProgressLine<'_, HostRuntime>,
) -> Result<u8, ProgramFault> {
    let from = open_file(rt, from, plan.cache)?;
    let to = open_file(rt, to, plan.cache)?;
    sync_tables(rt, plan, from, to, watch)
}

/// Copies a database of a store over tables to one of another, whatever files these stand on.
fn sync_tables<S: Alter + Drop>(
    rt: &HostRuntime,
    plan: &SyncPlan,
    from: SqlStore<S>,
    to: SqlStore<S>,
    watch: &mut ProgressLine<'_, HostRuntime>,
) -> Result<u8, ProgramFault> {
    sync_stores(rt, plan, from, to, watch)
}

/// Copies a database between the store in a file and the server at an address.
fn sync_file(
    rt: &HostRuntime,
    plan: &SyncPlan,
    path: &str,
    address: &str,
    watch: &mut ProgressLine<'_, HostRuntime>,
) -> Result<u8, ProgramFault> {
    let store = open_file(rt, path, plan.cache)?;
    sync_tables_with(rt, plan, store, address, watch)
}

/// Copies a database between a store over tables and the server at an address, whatever file these stand
/// on.
fn sync_tables_with<S: Alter + Drop>(
    rt: &HostRuntime,
    plan: &SyncPlan,
    store: SqlStore<S>,
    address: &str,
    watch: &mut ProgressLine<'_, HostRuntime>,
) -> Result<u8, ProgramFault> {
    sync_store(rt, plan, store, address, watch)
}
