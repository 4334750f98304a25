//! What changes the tables: each change in one transaction, whole or not at all.
#![tactic(auto)]

mod changes;
mod commit_fault;
mod commits;
mod document_write;
mod histories;
mod history_fault;
mod indexing;
pub mod laws;
mod postponing;
mod renewing;
mod seeing;
mod winner_checks;
mod winners;

pub use changes::{add_database, begin_tables, change_security, remove_database, write_local};
pub use commit_fault::CommitFault;
pub use commits::{commit_writes, integer_of};
pub use histories::{read_history, read_outline};
pub use renewing::carry_over;
pub use seeing::first_revision;
pub use winner_checks::{check_best, check_history};
pub use winners::first_winner;
