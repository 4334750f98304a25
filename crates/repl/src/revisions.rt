/// Revisions of a document.
pub struct DocumentRevisions {
    /// The document's id.
    pub id: String,
    /// The revisions, in order.
    pub revisions: Vec<String>,
}

// Written out, so that callers do not prove again how each part is dropped.
impl Drop for DocumentRevisions {
    fn drop(self) {
        let DocumentRevisions {
            id: _,
            revisions: _,
        } = self;
    }
}
