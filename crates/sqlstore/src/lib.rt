//! The store of databases over SQLite tables.
#![tactic(auto)]

mod database_names;
mod design_range;
mod document_count;
mod document_keys;
mod earlier;
mod entry_key;
mod fault;
mod first_rows;
mod found;
mod id_bounds;
mod in_memory;
mod index_ranks;
mod key_change;
mod known_counts;
mod known_database;
mod known_design;
mod known_designs;
mod known_indexes;
pub mod laws;
mod listed_ranks;
mod listings;
mod marked;
mod moved_keys;
mod moved_ranks;
mod open_fault;
mod opening;
mod seen;
mod sql_store;
mod weight;

pub use in_memory::MemoryStore;
pub use open_fault::OpenFault;
pub use sql_store::SqlStore;
