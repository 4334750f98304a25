//! The key of a document in an index.

ghost use Rattle.std.specs.Prelude.{◌≡◌, IfOk, option_map, true};
ghost use Rattle.couch_json.specs.View.{view};
ghost use Rattle.index.specs.Meaning.{key_at, key_if_seen};

use couch_json::{FieldPath, Got, Json, key_bytes};
use std::alloc::Global;
use store::values_at;

/// Makes the bytes of the key that a document has in an index of these fields; `None` where it lacks
/// one of them.
fn make_key(alloc: Global, fields: &[FieldPath], document: &Json) -> Got<Option<Vec<u8>>>
    ensures { IfOk result (λ made. option_map (λ bytes. bytes.items) made ≡ key_at fields.now (view document.now)) }
{
    match values_at(alloc, fields, document)? {
        Some(values) => {
            let key = Json::Array(values);
            Ok(Some(key_bytes(alloc, &key)?))
        }
        None => Ok(None),
    }
}

/// Makes the bytes of the key of a document that queries may not see; `None` where they don't, too.
pub(crate) fn find_key(
    alloc: Global,
    fields: &[FieldPath],
    seen: Option<&Json>,
) -> Got<Option<Vec<u8>>>
    ensures { IfOk result (λ made. option_map (λ bytes. bytes.items) made ≡ key_if_seen fields.now (option_map (λ v. view v.now) seen.entry)) }
{
    match seen {
        Some(document) => make_key(alloc, fields, document),
        None => Ok(None),
    }
}

/// Tells whether two keys are the same, or both are missing.
pub(crate) fn are_same(a: &Option<Vec<u8>>, b: &Option<Vec<u8>>) -> bool
    ensures { result ≡ true → option_map (λ bytes. bytes.items) a.now ≡ option_map (λ bytes. bytes.items) b.now }
{
    match (a, b) {
        (Some(a), Some(b)) => a.as_slice() == b.as_slice(),
        (None, None) => true,
        _ => false,
    }
}
