//! Gathering the entries of one document.

ghost use Rattle.std.specs.Prelude.{◌≡◌, ◌++◌, IfErr, IfOk, OnOk, Some, map};
ghost use Rattle.couch_json.specs.View.{view};
ghost use Rattle.index.specs.inner.Gathering.{entries_of, entry_if, entry_of};
ghost use Rattle.index.specs.Meaning.{key_if_seen};
ghost use Rattle.index.specs.Shown.{declared};

use crate::declaration::Declaration;
use crate::gathered::{Gathered, NewEntry};
use crate::keys::find_key;
use couch_json::{Got, Json};
use std::alloc::Global;

/// Gathers the entry of a document in each index in which it has a key.
pub(crate) fn gather_keys(
    alloc: Global,
    declarations: &[Declaration],
    id: &[u8],
    seen: &Json,
    gathered: &mut Gathered,
) -> Got<()>
    ensures { OnOk result
        (map entry_of gathered.new.entries.items ≡ map entry_of gathered.old.entries.items ++ entries_of (map declared declarations.now) id.now
        (Some (view seen.now))) }
{
    for declaration in declarations {
        gather_key(alloc, declaration, id, seen, gathered)?;
    }
    Ok(())
}

/// Gathers the entry of a document in an index, if it has a key in it.
fn gather_key(
    alloc: Global,
    declaration: &Declaration,
    id: &[u8],
    seen: &Json,
    gathered: &mut Gathered,
) -> Got<()>
    ensures { OnOk result
        (map entry_of gathered.new.entries.items ≡ map entry_of gathered.old.entries.items ++ entry_if (declared declaration.now) id.now
        (key_if_seen (declared declaration.now).fields (Some (view seen.now)))) }
{
    let Some(key) = find_key(alloc, &declaration.fields, Some(seen))? else {
        return Ok(());
    };
    let entry = NewEntry {
        declaration: declaration.number,
        key,
        id: Vec::from_slice(alloc, id)?,
    };
    gathered.push(entry)
}
