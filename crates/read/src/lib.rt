//! Reading: what a store's databases show of their documents (CouchDB manual, api/document/common).
//!
//! [`get`] and [`open_revs`] read documents, [`info`] a database. Rows of the tests:
//!
//! ```rows
//! anybody GET /db/a => 200 {"_id":"a","_rev":"<r1>","v":1}
//! anybody GET /db/b => 404 {"error":"not_found","reason":"missing"}
//! ```
#![tactic(auto)]

mod change_list;
mod change_pages;
mod differences;
mod document;
mod fault;
mod information;
mod listing;
mod listing_pages;
mod local_document;
mod numbers;
mod open_revisions;
mod path;
mod shown;
mod views;

pub use change_list::changes;
pub use differences::{AskedRevisions, revs_diff};
pub use document::get;
pub use fault::ReadFault;
pub use information::info;
pub use listing::all_docs;
pub use local_document::local;
pub use open_revisions::open_revs;
pub use views::view;
