//! Finds: the documents of a database that match a selector, in an order, in part (CouchDB manual,
//! api/database/find).
//!
//! [`Query::read`] reads what is asked for, and [`find`] answers it. [`Index::read`] reads an index that is
//! to be declared. A row of the tests:
//!
//! ```rows
//! anybody POST /db/_find {"selector":{"b":{"$lt":2}},"sort":[{"b":"desc"}]} => 200 {"bookmark":"nil","docs":[{"_id":"p","_rev":"1-a","b":1}]}
//! ```
#![tactic(auto)]

mod by_fields;
mod by_index;
mod candidate;
mod choosing;
mod chunks;
mod documents;
mod fault;
mod fixed;
mod in_order;
mod index;
pub mod laws;
mod matching;
mod part;
mod plan;
mod planning;
mod query;
mod ranges;
mod reached;
mod scan;
mod sort;
mod sort_fields;
mod sorting;
mod source;

pub use documents::find;
pub use fault::QueryFault;
pub use index::Index;
pub use query::Query;
pub use sort_fields::SortFields;
