//! Rows that are scripts of the laboratory.

use crate::callers::{admins_of, setting_of};
use crate::fault::RowsFault;
use crate::playing::Asked;
use command_line::CommandFault;
use lab::{LabStore, play_script};
use std::fmt::Write;

/// A script of the laboratory: what it prints, and a last line with the program's status and, after
/// a refusal, what stands on standard error. The head says `secret TEXT` and `admin NAME`.
pub fn play<S: LabStore>(asked: Asked<'_>, out: &mut String) -> Result<(), RowsFault> {
    let admins = admins_of(asked.alloc, asked.head)?;
    let mut script = asked.question;
    let mut printed = Vec::new(asked.alloc);
    let played = play_script::<S, _, _>(
        asked.alloc,
        setting_of(asked.head, "secret"),
        &admins,
        &mut script,
        &mut printed,
    );
    out.push_str(String::from_utf8_lossy(asked.alloc, &printed)?.as_str())?;
    match played {
        Ok(status) => write!(out, "status {status}")?,
        Err(fault) => put_fault(CommandFault::from(fault), out)?,
    }
    Ok(())
}

/// Adds the status of a refusal, and what stands on standard error.
pub fn put_fault(fault: CommandFault, out: &mut String) -> Result<(), RowsFault> {
    let status = fault.status();
    write!(out, "status {status}, couchd: {fault}")?;
    Ok(())
}
