//! Putting in the entries that are gathered.

ghost use Rattle.std.specs.Prelude.{◌≡◌, [], map, OnOk};
ghost use Rattle.index.specs.inner.Gathering.{PutsEntries, entry_of};

use crate::entries::insert_entry;
use crate::gathered::{Gathered, NewEntry};
use sqlite::{Alter, Error, Transaction};

/// Puts in the entries that are gathered, where there are enough for a part.
pub(crate) fn put_full<S: Alter>(
    tx: &mut Transaction<'_, S>,
    gathered: &mut Gathered,
) -> Result<(), Error>
    ensures same_reference { tx.new.conn.ghost_name ≡ tx.old.conn.ghost_name }
    ensures puts { PutsEntries S.Store (map entry_of gathered.old.entries.items)
        (map entry_of gathered.new.entries.items) tx.old.conn.now tx.new.conn.now result }
{
    if !gathered.is_full() {
        return Ok(());
    }
    put_gathered(tx, gathered)
}

/// Puts in the entries that are gathered, in their order, and forgets them. So each page of the table's key
/// is written once for them all, and not once for each.
pub(crate) fn put_gathered<S: Alter>(
    tx: &mut Transaction<'_, S>,
    gathered: &mut Gathered,
) -> Result<(), Error>
    ensures same_reference { tx.new.conn.ghost_name ≡ tx.old.conn.ghost_name }
    ensures puts { PutsEntries S.Store (map entry_of gathered.old.entries.items)
        (map entry_of gathered.new.entries.items) tx.old.conn.now tx.new.conn.now result }
    ensures forgets { OnOk result (gathered.new.entries.items ≡ []) }
{
    gathered.sort();
    put_entries(tx, &gathered.entries)?;
    gathered.clear();
    Ok(())
}

/// Puts in these entries.
fn put_entries<S: Alter>(tx: &mut Transaction<'_, S>, entries: &[NewEntry]) -> Result<(), Error>
    ensures same_reference { tx.new.conn.ghost_name ≡ tx.old.conn.ghost_name }
    ensures puts { PutsEntries S.Store (map entry_of entries.now) [] tx.old.conn.now tx.new.conn.now result }
{
    for entry in entries {
        insert_entry(tx, &entry.declaration, &entry.key, &entry.id)?;
    }
    Ok(())
}
