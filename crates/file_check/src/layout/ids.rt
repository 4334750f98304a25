//! The ids of documents and of local documents.

ghost use Rattle.std.specs.Prelude.{◌≡◌, ◌↔◌, IsTrue, IsUtf8, false};
ghost use Rattle.tree.specs.DocumentId.{extends, is_document_id, is_local_id};
ghost use Rattle.file_check.specs.inner.Rows.{IsIdOfDocument, IsIdOfLocal};

use std::str;
use tree::is_document_id;

/// Returns whether the bytes are a text that may be the id of a document, and is none of a local one.
pub(crate) fn is_id_of_document(bytes: &[u8]) -> bool
    ensures { IsTrue result ↔ IsIdOfDocument bytes.now }
{
    match str::from_utf8(bytes) {
        Ok(_) => is_document_id(bytes) && !is_local_id(bytes),
        Err(_) => false,
    }
}

/// Returns whether the bytes may be the id of a local document.
pub(crate) fn is_id_of_local(bytes: &[u8]) -> bool
    ensures { IsTrue result ↔ IsIdOfLocal bytes.now }
{
    is_document_id(bytes) && is_local_id(bytes)
}

/// Returns whether the bytes are `_local/` and a name.
fn is_local_id(bytes: &[u8]) -> bool
    ensures { result ≡ is_local_id bytes.now }
{
    extends(b"_local/", bytes)
}

fn extends(prefix: &[u8], bytes: &[u8]) -> bool
    ensures { result ≡ extends prefix.now bytes.now }
{
    bytes.starts_with(prefix) && prefix.len() < bytes.len()
}
