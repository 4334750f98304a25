ghost use Rattle.std.specs.Prelude.{◌≡◌, ◌∷◌, IfOk, List, OnOk, drop, nat_eq, take};
ghost use Rattle.couch_json.specs.Value.{Value};
ghost use Rattle.couch_json.specs.View.{view};
ghost use Rattle.find.specs.inner.Matching.{completion};

use couch_json::{ArrayText, Got, Json, JsonText};
use std::alloc::Global;

/// The part of the documents that a query asks for, as it is gathered.
#[derive(Drop)]
pub(crate) struct Part {
    /// How many documents to come are left out.
    pub(crate) skip: u64,
    /// How many more are wanted.
    pub(crate) limit: u64,
    /// The documents so far, as their texts.
    pub(crate) documents: ArrayText,
}

impl Part {
    /// Returns the part before any document has come: so many are left out, and so many are wanted.
    pub(crate) fn new(alloc: Global, skip: u64, limit: u64) -> Got<Part>
        ensures { IfOk result (λ part. (rest : List Value) → completion part rest ≡ take limit (drop skip rest)) }
    {
        Ok(Part {
            skip,
            limit,
            documents: ArrayText::new(alloc)?,
        })
    }

    /// Tells whether no more documents are wanted.
    pub(crate) fn is_full(&self) -> bool
        ensures { result ≡ nat_eq self.now.limit 0 }
    {
        self.limit == 0
    }

    /// Takes the next document, which may be left out. Of one that is left out no text is made.
    pub(crate) fn put(&mut self, alloc: Global, document: &Json) -> Got<()>
        ensures { OnOk result ((rest : List Value) → completion self.new rest ≡ completion self.old (view document.now ∷ rest)) }
    {
        if self.skip > 0 {
            self.skip -= 1;
        } else if self.limit > 0 {
            self.limit -= 1;
            let text = JsonText::of(alloc, document)?;
            self.documents.push_text(text)?;
        }
        Ok(())
    }
}
