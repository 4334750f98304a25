use couch_json::Got;
use std::alloc::Global;
use tree::Body;

/// A local document: one that is neither listed nor replicated, such as the checkpoint of a
/// replication.
///
/// It has no history: its revision is `0-N`, and each write raises N by one. See the CouchDB manual,
/// api/local.
#[derive(Drop)]
pub struct LocalDocument {
    /// The number of its revision, counted from 1.
    pub number: u32,
    /// Its members, but for `_id` and `_rev`.
    pub body: Body,
}

impl LocalDocument {
    ghost use Rattle.std.specs.Prelude.{◌≡◌, IfOk, string_bytes};
    ghost use Rattle.store.specs.Contents.{local_revision};

    /// Returns the text of its revision, `0-N`.
    pub fn revision(&self, alloc: Global) -> Got<String>
        ensures { IfOk result (λ text. string_bytes text ≡ local_revision self.now.number) }
    {
        let number = self.number;
        Ok(format!(in alloc; "0-{number}")?)
    }

    /// Makes an equal local document of its own.
    pub fn copy(&self, alloc: Global) -> Got<LocalDocument>
        ensures { IfOk result (λ document. document ≡ self.now) }
    {
        Ok(LocalDocument {
            number: self.number,
            body: self.body.copy(alloc)?,
        })
    }
}
