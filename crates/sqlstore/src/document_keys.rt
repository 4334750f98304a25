//! The keys that documents have in an index.

ghost use Rattle.std.specs.Prelude.{◌≡◌, IfOk, option_and_then};
ghost use Rattle.couch_json.specs.View.{view};
ghost use Rattle.index.specs.Meaning.{key_at, key_if_seen};
ghost use Rattle.sqlstore.specs.inner.Seen.{values_seen};

use crate::entry_key::EntryKey;
use crate::seen::Seen;
use couch_json::{FieldPath, Got, Json, key_bytes};
use std::alloc::Global;
use store::values_at;

/// Makes the key that a document has in an index of these fields; `None` where it lacks one of them.
fn make_key(alloc: Global, fields: &[FieldPath], document: &Json) -> Got<Option<EntryKey>>
    ensures { IfOk result (λ made. made ≡ key_at fields.now (view document.now)) }
{
    match values_at(alloc, fields, document)? {
        Some(values) => {
            let key = Json::Array(values);
            let bytes = key_bytes(alloc, &key)?;
            Ok(Some(EntryKey { bytes }))
        }
        None => Ok(None),
    }
}

/// Makes the key of a document, of what queries see of it; one that was never written has none.
pub(crate) fn make_key_of_seen(
    alloc: Global,
    fields: &[FieldPath],
    seen: &Seen,
) -> Got<Option<EntryKey>>
    ensures { IfOk result (λ made. made ≡ option_and_then (key_if_seen fields.now) (values_seen seen.now)) }
{
    match seen {
        Seen::Shown(document) => make_key(alloc, fields, document),
        Seen::Hidden => Ok(None),
        Seen::Unwritten => Ok(None),
    }
}

/// Copies the key of a document, if it has one.
pub(crate) fn copy_key(alloc: Global, key: &Option<EntryKey>) -> Got<Option<EntryKey>>
    ensures { IfOk result (λ copy. copy ≡ key.now) }
{
    match key {
        Some(key) => {
            let bytes = Vec::from_slice(alloc, &key.bytes)?;
            Ok(Some(EntryKey { bytes }))
        }
        None => Ok(None),
    }
}
