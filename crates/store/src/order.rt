//! Entries in the order of their keys, and lists that are cut, as the plain store builds them.

ghost use Rattle.std.specs.Prelude.{◌≡◌, OnOk};
ghost use Rattle.std.specs.FinMap.{put};
ghost use Rattle.store.specs.Pages.{up_to_limit};

use couch_json::Got;
use std::collections::BTreeMap;

/// Puts a value at a key: in the place of the one that was there, or before the first greater key.
pub(crate) fn put_sorted<K: Ord + Drop, V: Drop>(
    entries: &mut BTreeMap<K, V>,
    key: K,
    value: V,
) -> Got<()>
    ensures ok { OnOk result (entries.new.entries ≡ put K.cmp key value entries.old.entries) }
{
    entries.insert(key, value)?;
    Ok(())
}

/// Cuts rows to a limit; `None` is no limit.
pub fn cut_to_limit<T: Drop>(rows: Vec<T>, limit: Option<u64>) -> Vec<T>
    ensures { result.items ≡ up_to_limit limit rows.items }
{
    let mut rows = rows;
    if let Some(limit) = limit {
        rows.truncate(limit as usize);
    }
    rows
}
