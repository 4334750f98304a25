//! The databases as rows of SQLite tables.
#![tactic(auto)]

pub mod contents_laws;
mod create;
pub mod databases;
mod decode;
pub mod documents;
pub mod laws;
pub mod listings;
pub mod locals;
mod meta;
mod renewing;
pub mod revisions;
pub mod statement;
pub mod transaction_reads;
pub mod write_laws;

pub use create::create_tables;
pub use decode::{
    FoundDatabase, FoundNode, FoundRevision, ListedDocument, RowFault, id_at, json_at,
    read_database, read_hash, read_listed_document, read_local, read_node, read_revision, whole_at,
};
pub use meta::{FileVersion, FoundTables, read_version, tables_in};
pub use renewing::renew_tables;
