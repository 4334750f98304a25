//! The index rows of a database that is taken out.

ghost use Rattle.std.specs.Prelude.{◌≡◌, IfErr, map};
ghost use Rattle.sqlite.specs.Held.{state};
ghost use Rattle.sqlite.specs.State.{HasCleanDisk};
ghost use Rattle.tables.specs.Calls.{AsksInside, LooksInside, Proceeds};
ghost use Rattle.tables.specs.Schema.{schema};
ghost use Rattle.index.specs.Calls.{ClearsAll, ClearsEntries, Drops, StaysOpen, IsRefused, IsSound};
ghost use Rattle.index.specs.Shown.{declared};

use crate::declaration::Declaration;
use crate::declarations::clear_declarations;
use crate::entries::clear_entries;
use crate::fault::IndexFault;
use crate::refreshing::list_declarations;
use sqlite::{Alter, Error, Transaction};
use std::alloc::Global;

/// Takes out the indexes of a database, and their entries.
pub fn drop_db<S: Alter>(
    alloc: Global,
    tx: &mut Transaction<'_, S>,
    db: &i64,
) -> Result<(), IndexFault>
    ensures same_reference { tx.new.conn.ghost_name ≡ tx.old.conn.ghost_name }
    ensures drops { Drops S.Store db.now tx.old.conn.now tx.new.conn.now result }
    ensures err { IfErr result (IsRefused (IsSound S.Store tx.old.conn.now tx.new.conn.now)) }
    ensures goes_on { tx.old.conn.now.schema ≡ schema → StaysOpen S.Store tx.old.conn.now tx.new.conn.now result }
    ensures looks { LooksInside S.Store tx.old.conn.now tx.new.conn.now }
    ensures asks { AsksInside S.Store tx.old.conn.now tx.new.conn.now }
{
    let declarations = list_declarations(alloc, tx, db)?;
    clear_indexes(tx, db, &declarations)?;
    Ok(())
}

/// Takes out these indexes, which are all of a database, and their entries.
fn clear_indexes<S: Alter>(
    tx: &mut Transaction<'_, S>,
    db: &i64,
    declarations: &[Declaration],
) -> Result<(), Error>
    ensures same_reference { tx.new.conn.ghost_name ≡ tx.old.conn.ghost_name }
    ensures clears { ClearsAll S.Store db.now (map declared declarations.now) tx.old.conn.now tx.new.conn.now result }
    ensures goes_on { StaysOpen S.Store tx.old.conn.now tx.new.conn.now result }
    ensures proceeds { Proceeds S.Store tx.old.conn.now tx.new.conn.now }
{
    clear_all_entries(tx, declarations)?;
    clear_declarations(tx, db)
}

/// Takes out the entries of these indexes.
fn clear_all_entries<S: Alter>(
    tx: &mut Transaction<'_, S>,
    declarations: &[Declaration],
) -> Result<(), Error>
    ensures same_reference { tx.new.conn.ghost_name ≡ tx.old.conn.ghost_name }
    ensures clears { ClearsEntries S.Store (map declared declarations.now) tx.old.conn.now tx.new.conn.now result }
    ensures goes_on { StaysOpen S.Store tx.old.conn.now tx.new.conn.now result }
    ensures proceeds { Proceeds S.Store tx.old.conn.now tx.new.conn.now }
{
    for declaration in declarations {
        clear_entries(tx, &declaration.number)?;
    }
    Ok(())
}
