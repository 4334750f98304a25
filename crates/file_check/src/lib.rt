//! Whether the tables of a file are laid out as this server lays them out.
#![tactic(auto)]

mod comparing;
mod counting;
mod file;
mod finding;
pub mod index_laws;
mod indexes;
pub mod laws;
mod layout;
mod words;

pub use file::check;
pub use finding::{CheckFault, Counts, Finding, Table, Verdict, Wrong};
pub use indexes::check_indexes;
pub use layout::check_tables;
