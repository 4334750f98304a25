//! The stored rows of indexes: which are declared, and which documents have which keys in them.
#![tactic(auto)]

mod bounds;
mod declaration;
pub mod declarations;
mod declaring;
mod dropping;
pub mod entries;
mod fault;
mod filling;
mod finding;
mod gathered;
mod gathering;
mod keys;
pub mod laws;
mod listing;
mod putting;
mod reading;
mod rebuilding;
mod refreshing;
mod seen;

pub use bounds::{above_all, high_bound, low_bound};
pub use declaration::Declaration;
pub use dropping::drop_db;
pub use fault::IndexFault;
pub use filling::fill_indexes;
pub use finding::find_decl;
pub use listing::{read_count, read_entries};
pub use rebuilding::{clear_design, declare_design, rebuild};
pub use refreshing::{list_declarations, refresh, refresh_indexes};
