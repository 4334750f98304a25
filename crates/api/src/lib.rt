//! The HTTP API: which page a path leads to, who asks, with which parameters and body, and what a
//! refusal says.
//!
//! [`Routes::page`] finds the page, [`Refusal`] is the reply of a request that is refused. A row of the
//! tests:
//!
//! ```rows
//! anybody GET /none/x => 404 {"error":"not_found","reason":"Database does not exist."}
//! ```
#![tactic(auto)]

mod asking;
mod bulk;
mod differences;
mod fault;
mod given;
pub mod laws;
mod listings;
mod members;
mod method;
mod page;
mod parameters;
mod path;
mod query;
mod refusal;
mod routes;
mod views;

pub use asking::{body, caller, deny, without_parameters};
pub use bulk::{BulkAsked, read_bulk};
pub use differences::differences_in;
pub use fault::RequestFault;
pub use listings::{changes_query, listing_query};
pub use members::put_text;
pub use method::{RequestMethod, method_of};
pub use page::Page;
pub use path::{database_name, document_id, index_name, local_id};
pub use query::{Asked, DocumentQuery, document_query, revision_query};
pub use refusal::Refusal;
pub use routes::Routes;
pub use views::view_query;
