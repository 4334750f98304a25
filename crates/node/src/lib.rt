//! One node: the answer to a request over a store, as bytes.
//!
//! [`Node::handle`] takes a request and gives the reply. Rows of the tests:
//!
//! ```rows
//! anybody PUT /db/a {"v":1} => 201 {"id":"a","ok":true,"rev":"<r1>"}
//! anybody GET /none/x => 404 {"error":"not_found","reason":"Database does not exist."}
//! ```
#![tactic(auto)]

mod bulk;
mod bulk_reply;
mod databases;
mod dispatch;
mod document;
mod draft;
mod early_end;
mod finds;
mod indexes;
pub mod laws;
mod lists;
mod local_document;
mod memory;
mod node;
mod security;
mod task;
mod welcome;
mod work;

pub use api::Routes;
pub use memory::handle_in_memory;
pub use node::Node;
