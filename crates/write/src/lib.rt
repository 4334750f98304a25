//! Writing: what becomes of an edit, and the plan that makes it so (CouchDB manual,
//! api/document/common and api/database/bulk-api).
//!
//! [`edit`], [`replicated`], [`bulk`], [`put_index`] and [`put_local`] plan, and [`apply`] changes the store.
//! Rows of the tests:
//!
//! ```rows
//! anybody PUT /db/a {"v":1} => 201 {"id":"a","ok":true,"rev":"<r1>"}
//! anybody PUT /db/a {"v":1} => 409 {"error":"conflict","reason":"Document update conflict."}
//! ```
#![tactic(auto)]

mod admission;
mod ancestry;
mod applying;
mod bulk_writes;
mod deleting;
mod denial;
mod document;
mod draft;
mod editing;
mod fault;
mod following;
mod histories;
mod index_writes;
pub mod laws;
mod local_writes;
mod planned;
mod planning;
mod repeats;
mod replicating;
mod request_terms;
mod securing;
mod terms;

pub use applying::apply;
pub use bulk_writes::bulk;
pub use deleting::judge_unnamed_deletion;
pub use editing::edit;
pub use fault::WriteFault;
pub use index_writes::put_index;
pub use local_writes::put_local;
pub use planned::{Changes, DocumentResult, Outcome, Planned};
pub use replicating::replicated;
pub use securing::put_security;
pub use terms::{Terms, read_terms};
