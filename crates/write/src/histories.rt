//! The histories of the documents that are written together, by id.

ghost use Rattle.std.specs.Prelude.{◌≡◌, IfErr, IfOk, OnOk, OnErr, Some, None};
ghost use Rattle.std.specs.FinMap as map;
ghost use Rattle.tree.specs.History.{with_write};
ghost use Rattle.store.specs.Calls.{OnlyReads};
ghost use Rattle.store.specs.Database.{Database, history_at};
ghost use Rattle.store.specs.Writing.{addition_of, written_in};
ghost use Rattle.write.specs.Bulk.{Histories};
ghost use Rattle.write.specs.BulkResults.{IsHeld, seen_in, with_history};
ghost use Rattle.write.specs.Refusing.{IsOfStoreOrMemory, Refuses};

use crate::fault::WriteFault;
use couch_json::Got;
use std::alloc::Global;
use std::collections::BTreeMap;
use store::{DbName, Store, Write};
use tree::{DocId, History, PackedHistory};

/// Puts the stored history of the document of this id in, if there is one and it isn't there yet.
pub(crate) fn load<S: Store>(
    alloc: Global,
    store: &mut S,
    db: &DbName,
    id: &Option<DocId>,
    histories: &mut BTreeMap<DocId, PackedHistory>,
) -> Result<(), WriteFault>
    ensures ok { S.is_honest store.new → OnOk result ((d : Database) → map.get (S.contents store.old) db.now ≡ Some d
        → seen_in (history_at d) histories.new ≡ seen_in (history_at d) histories.old) }
    ensures held { OnOk result (IsHeld histories.new id.now) }
    ensures only { IfErr result IsOfStoreOrMemory }
    ensures passed { IfErr result (Refuses S.Store store.old store.new (map.get (S.contents store.old) db.now ≡ None) ⊥) }
    ensures reads { OnlyReads S.Store store.old store.new }
{
    let Some(id) = id else {
        return Ok(());
    };
    if histories.contains_key(id) {
        return Ok(());
    }
    let history = store.history(db, id)?;
    put_history(alloc, histories, id.copy(alloc)?, history)?;
    Ok(())
}

/// Takes the history of a document out.
pub(crate) fn take_history(
    alloc: Global,
    histories: &mut BTreeMap<DocId, PackedHistory>,
    id: &DocId,
) -> Got<History>
    requires { IsHeld histories.old (Some id.now) }
    ensures value { IfOk result (λ taken. (stored : Histories) → taken ≡ seen_in stored histories.old id.now) }
    ensures others { (stored : Histories) (history : _)
        → with_history (seen_in stored histories.new) id.now history ≡ with_history (seen_in stored histories.old) id.now history }
{
    match histories.remove(id) {
        Some(packed) => packed.unpack(alloc),
        None => unreachable!(),
    }
}

/// Puts the history of a document in.
pub(crate) fn put_history(
    alloc: Global,
    histories: &mut BTreeMap<DocId, PackedHistory>,
    id: DocId,
    history: History,
) -> Got<()>
    ensures value { OnOk result ((stored : Histories) → seen_in stored histories.new ≡ with_history (seen_in stored histories.old) id history) }
    ensures held { OnOk result (IsHeld histories.new (Some id)) }
{
    let packed = PackedHistory::pack(alloc, history)?;
    drop(histories.insert(id, packed)?);
    Ok(())
}

/// Takes a write into the history of its document.
pub(crate) fn apply_write(history: &mut History, write: &Write) -> Got<()>
    ensures ok { OnOk result (history.new ≡ with_write history.old (written_in history.old (addition_of write.now)).write) }
    ensures err { OnErr result (history.new ≡ history.old) }
{
    history.put(&write.path, write.parent, write.deleted, &write.body)
}
