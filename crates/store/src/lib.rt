//! The store of databases: what it is, in the words that everything above it speaks, and a plain store
//! in memory.
//!
//! [`Store`] is the trait, [`PlainStore`] meets it in memory. A row of the tests, a page by sequence:
//!
//! ```rows
//! seq db => 1 b 1-x, 3 D 1-q, 6 a 2-b, 7 c 2-y deleted, last 7 of 7, 3 documents, 1 deleted
//! ```
#![tactic(auto)]

pub mod cuts;
mod database_name;
mod databases;
mod design_rows;
mod fail_store;
mod fault;
mod full_store;
mod index_page;
mod indexes;
pub mod laws;
mod listing;
mod local_document;
mod locals;
mod order;
mod plain;
mod plain_id_pages;
mod plain_index_pages;
mod plain_sequence_pages;
mod plain_store;
mod range_key;
mod replay;
mod store;
mod winning;
mod write;

pub use database_name::{DbName, NameFault, is_database_name};
pub use design_rows::design_range;
pub use fail_store::{FailStore, FailingCall};
pub use fault::StoreFault;
pub use full_store::FullStore;
pub use index_page::{CutSide, IndexKey, KeyCut, KeyRange, KeyRow, PageByKey};
pub use indexes::{find_index, find_winning_body, show_queried, values_at};
pub use listing::{
    DocumentCounts, IdRange, IdRow, PageById, PageBySeq, RowCounts, SeqRange, SeqRow,
};
pub use local_document::LocalDocument;
pub use plain_id_pages::reverse_if;
pub use plain_store::PlainStore;
pub use range_key::RangeKey;
pub use store::Store;
pub use winning::{HeldWinner, read_held_winner, read_winning, take_held, take_winner};
pub use write::Write;
