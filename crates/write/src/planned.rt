use crate::fault::WriteFault;
use policy::Security;
use store::{DbName, LocalDocument, Write};
use tree::{DocId, Rev};

/// A change of a database that was found in order and is not made yet.
#[derive(Drop)]
pub struct Planned {
    /// The database that is changed.
    pub database: DbName,
    /// What is changed in it.
    pub changes: Changes,
    /// What became of each document, in order; none for a security object or a local document.
    pub results: Vec<DocumentResult>,
}

/// What a plan changes in its database.
#[derive(Drop)]
pub enum Changes {
    /// Writes of documents, in order, at its end.
    Writes(Vec<Write>),
    /// Its security object.
    Security(Security),
    /// A local document, by its id.
    Local(DocId, LocalDocument),
}

/// A document that was to be written, and what became of it.
#[derive(Drop)]
pub struct DocumentResult {
    /// Its `_id`, where that is a text.
    pub id: Option<String>,
    /// Its `_rev`, where that is a text.
    pub rev: Option<String>,
    /// What became of it.
    pub outcome: Outcome,
}

/// What became of a document that was to be written.
#[derive(Drop)]
pub enum Outcome {
    /// It makes this revision.
    Made(Rev),
    /// Its revision was known already, so nothing changes.
    Known,
    /// It was refused, for a cause of its own: never for the store or for lack of memory.
    Refused(WriteFault),
}
