//! The revision tree of one document: ids, revisions, and the history of a document's edits
//! (CouchDB manual, replication/conflicts).
//!
//! [`History`] takes writes by [`History::insert`], and tells its winner and its leaves. Rows of the
//! tests:
//!
//! ```rows
//! insert 2-b,1-r {} => Added
//! insert 2-a,1-r {} => Added
//! winner => 2-b
//! ```
#![tactic(auto)]

mod body;
mod document_id;
mod entry;
mod history;
pub mod laws;
mod marked_leaves;
mod marked_rev;
mod next_revision;
mod nodes;
mod outline;
mod packed_history;
mod placement;
mod revision;
mod shown_document;

pub use body::Body;
pub use document_id::{DocId, IdFault, is_document_id};
pub use entry::{Entry, Held};
pub use history::History;
pub use marked_rev::MarkedRev;
pub use next_revision::{RevFault, next_rev};
pub use nodes::find_next;
pub use outline::Outline;
pub use packed_history::PackedHistory;
pub use placement::{Placed, TreeFault};
pub use revision::Rev;
pub use shown_document::{show, show_members};
