ghost use Rattle.std.specs.Prelude.{◌≡◌, ◌↔◌, ◌==◌, true, false, List, ℕ, IfOk, OnOk, IsErrOf, IsTrue, string_bytes};
ghost use Rattle.std.specs.Coded.{coded_list, coded_ℕ};
ghost use Rattle.std.proofs.Common.{rules};
ghost use Rattle.std.specs.Cmp.{partial_order_from_own_ties};
ghost use Rattle.std.specs.Cmp.Rules.{comparing};
ghost use Rattle.std.specs.Cmp.Lexicographic.{pointwise, slice_cmp};
ghost use Rattle.std.specs.Ordering.{as_partial_cmp, nat_cmp};
ghost use Rattle.tree.specs.DocumentId.{extends, is_design_id, is_document_id, is_local_id};

use couch_json::{Got, Malformed};
use std::alloc::Global;
use std::cmp::Ordering;
use std::marker::Model;

/// Why a text was refused as the id of a document. One without the form is empty, longer than 256 bytes, or begins
/// with `_` other than as `_design/` or `_local/` followed by at least one byte.
pub type IdFault = Malformed;

/// The id of a document: 1 to 256 bytes of UTF-8.
///
/// It begins with `_` only as `_design/` (a design document) or `_local/` (a document that is
/// neither listed nor replicated), followed by at least one byte. See the CouchDB manual,
/// api/document/common.
#[derive(Debug)]
pub struct DocId {
    text: String,
}

// Written out, so that callers do not prove again how each part is dropped.
impl Drop for DocId {
    fn drop(self) {
        let DocId { text: _ } = self;
    }
}

impl Model for DocId {
    ghost Value = { List ℕ };

    ghost coded = { coded_list coded_ℕ };

    ghost view = { λ d. string_bytes d.text };

    ghost invariant = { λ d. IsTrue (is_document_id (string_bytes d.text)) };
}

impl DocId {
    /// Makes the id that a text spells.
    ///
    /// `Shape` comes if and only if the text is no id; it is looked for before memory is taken.
    pub fn new(alloc: Global, text: &str) -> Result<DocId, IdFault>
        ensures ok { IfOk result (λ id. id ≡ text.now) }
        ensures shape { IsErrOf result Malformed.Shape ↔ (is_document_id text.now ≡ false) }
    {
        if !is_document_id(text.as_bytes()) {
            return Err(IdFault::Shape);
        }
        let text = String::from_str(alloc, text)?;
        Ok(DocId { text })
    }

    /// Returns the text of the id.
    pub fn as_str(&self) -> &str
        ensures text { result.now ≡ self.now }
        ensures lawful { IsTrue (is_document_id self.now) }
    {
        self.text.as_str()
    }

    /// Makes an equal id of its own.
    pub fn copy(&self, alloc: Global) -> Got<DocId>
        ensures { IfOk result (λ id. id ≡ self.now) }
    {
        let text = String::from_str(alloc, self.text.as_str())?;
        Ok(DocId { text })
    }

    /// Tells whether it names a design document.
    pub fn is_design(&self) -> bool
        ensures { result ≡ is_design_id self.now }
    {
        is_design_id(self.text.as_bytes())
    }

    /// Tells whether it names a local document.
    pub fn is_local(&self) -> bool
        ensures { result ≡ is_local_id self.now }
    {
        is_local_id(self.text.as_bytes())
    }
}

impl PartialEq for DocId {
    ghost eq = { pointwise ◌==◌ };

    ghost laws = { Prim.search (comparing, rules) };

    fn eq(&self, other: &DocId) -> bool {
        self.text.as_bytes() == other.text.as_bytes()
    }
}

impl Eq for DocId {
    ghost laws = { Prim.search (comparing, rules) };
}

/// In the order of their bytes.
impl Ord for DocId {
    ghost cmp = { slice_cmp nat_cmp };

    ghost total = { Prim.search (comparing, rules) };

    ghost matches_partial_cmp = { Prim.search (comparing, rules) };

    ghost matches_eq = { Prim.search (comparing, rules) };

    fn cmp(&self, other: &DocId) -> Ordering {
        self.text.as_bytes().cmp(other.text.as_bytes())
    }
}

impl PartialOrd for DocId {
    ghost partial_cmp = { as_partial_cmp (slice_cmp nat_cmp) };

    ghost laws = { partial_order_from_own_ties (Prim.search (comparing, rules)) (Prim.search (comparing, rules)) };

    fn partial_cmp(&self, other: &DocId) -> Option<Ordering> {
        Some(self.cmp(other))
    }
}

fn extends(prefix: &[u8], text: &[u8]) -> bool
    ensures { result ≡ extends prefix.now text.now }
{
    text.starts_with(prefix) && prefix.len() < text.len()
}

fn is_design_id(text: &[u8]) -> bool
    ensures { result ≡ is_design_id text.now }
{
    extends(b"_design/", text)
}

fn is_local_id(text: &[u8]) -> bool
    ensures { result ≡ is_local_id text.now }
{
    extends(b"_local/", text)
}

/// Returns whether the bytes may be the id of a document, if they are UTF-8: whether [`DocId::new`] takes them.
pub fn is_document_id(text: &[u8]) -> bool
    ensures { result ≡ is_document_id text.now }
{
    if text.is_empty() || text.len() > 256 {
        return false;
    }
    !text.starts_with(b"_") || is_design_id(text) || is_local_id(text)
}
