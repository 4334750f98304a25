use couch_json::Json;
use tree::{DocId, Rev};

/// One write of a document, as a store accepts it.
///
/// It names what is new, and the known revision that this follows; the store knows what stands
/// behind that one.
pub struct Write {
    /// The document.
    pub id: DocId,
    /// The new revision and those behind it that the write brings, newest first, down to a first one
    /// or to one that follows `parent`.
    pub path: Vec<Rev>,
    /// The revision that the last of `path` follows, which the document's history knows once the
    /// writes before this one are in; `None` where that last one is a first one.
    pub parent: Option<Rev>,
    /// Whether the write deletes the document on this branch.
    pub deleted: bool,
    /// The body, without special members.
    pub body: Json,
}

// Written out, so that callers do not prove again how each part is dropped.
impl Drop for Write {
    fn drop(self) {
        let Write {
            id: _,
            path: _,
            parent: _,
            deleted: _,
            body: _,
        } = self;
    }
}
