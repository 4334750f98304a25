//! The check of the rows of indexes.

ghost use Rattle.file_check.specs.Indexes.{AreIndexesChecked, IsCheckable};
ghost use Rattle.file_check.specs.Checks.{Checks};

mod cells;
mod checking;
mod declared;
mod entered;
mod followed;
mod found;
pub(crate) mod indexed;
mod statements;
pub(crate) mod step;
mod stored;

use crate::finding::{CheckFault, Finding};
use crate::indexes::checking::check_rows;
use crate::indexes::indexed::Indexed;
use sqlite::{Alter, Connection};
use std::alloc::Global;

/// Checks that the rows of indexes are those of what is stored: each row of a declaration says what the
/// winner of its design document declares, each index that one declares has a row, each document that queries
/// see has its entry in each index of its database, and there is no other entry. Answers with the first row
/// that is not so; nothing is written.
pub fn check_indexes<S: Alter>(
    alloc: Global,
    conn: &mut Connection<S>,
) -> Result<Option<Finding>, CheckFault>
    ensures { Checks S.Store IsCheckable conn.old conn.new AreIndexesChecked result }
{
    if let Some(finding) = check_rows(alloc, conn, Indexed::Declarations)? {
        return Ok(Some(finding));
    }
    if let Some(finding) = check_rows(alloc, conn, Indexed::Documents)? {
        return Ok(Some(finding));
    }
    check_rows(alloc, conn, Indexed::Entries)
}
