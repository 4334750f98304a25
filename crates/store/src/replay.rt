ghost use Rattle.std.specs.Prelude.{◌≡◌, IfOk, OnOk, bytes_eq, if◌then◌else◌};
ghost use Rattle.store.specs.Plain.{history_after, with_addition};
ghost use Rattle.store.specs.Writing.{addition_of, additions};
ghost use Rattle.std.specs.FinMap as map;
ghost use Rattle.tree.specs.Outline.{marked_winner, outline_of};

use crate::write::Write;
use couch_json::Got;
use std::alloc::Global;
use tree::{DocId, Entry, History, MarkedRev, Outline, Rev};

/// Returns the history that the writes made of a document.
pub(crate) fn history_of(alloc: Global, writes: &Vec<Write>, id: &DocId) -> Got<History>
    ensures { IfOk result (λ history. history ≡ history_after map.empty id.now (additions writes.now.items)) }
{
    let mut history = History::new(alloc);
    for write in writes {
        take_in(&mut history, write, id)?;
    }
    Ok(history)
}

/// Returns the outline of the history that the writes made of a document.
pub(crate) fn replay_outline(alloc: Global, writes: &Vec<Write>, id: &DocId) -> Got<Outline>
    ensures { IfOk result (λ outline. outline ≡ outline_of (history_after map.empty id.now (additions writes.now.items))) }
{
    Outline::of(&history_of(alloc, writes, id)?)
}

/// Returns the winner that the writes made of a document, with its mark.
pub(crate) fn replay_winner(
    alloc: Global,
    writes: &Vec<Write>,
    id: &DocId,
) -> Got<Option<MarkedRev>>
    ensures { IfOk result (λ found. found ≡ marked_winner (history_after map.empty id.now (additions writes.now.items))) }
{
    let history = history_of(alloc, writes, id)?;
    Ok(history.marked_winner())
}

/// Returns what the writes made known of a revision of a document.
pub(crate) fn replay_revision(
    alloc: Global,
    writes: &Vec<Write>,
    id: &DocId,
    rev: &Rev,
) -> Got<Option<Entry>>
    ensures { IfOk result (λ found. found ≡ map.get (history_after map.empty id.now (additions writes.now.items)) rev.now) }
{
    history_of(alloc, writes, id)?.revision(rev)
}

/// Takes the write into the history, where it is one of the document.
fn take_in(history: &mut History, write: &Write, id: &DocId) -> Got<()>
    ensures ok { OnOk result (history.new
        ≡ (if bytes_eq write.now.id id.now then with_addition history.old (addition_of write.now) else history.old)) }
{
    if write.id.as_str() == id.as_str() {
        history.put(&write.path, write.parent, write.deleted, &write.body)?;
    }
    Ok(())
}

/// Copies of the writes, in order.
pub(crate) fn copies(alloc: Global, writes: &[Write]) -> Got<Vec<Write>>
    ensures { IfOk result (λ copies. additions copies.items ≡ additions writes.now) }
{
    let mut copies = Vec::with_capacity(alloc, writes.len())?;
    for write in writes {
        copies.push(copy_of(alloc, write)?)?;
    }
    Ok(copies)
}

fn copy_of(alloc: Global, write: &Write) -> Got<Write>
    ensures { IfOk result (λ copy. addition_of copy ≡ addition_of write.now) }
{
    let id = write.id.copy(alloc)?;
    let path = Vec::from_slice(alloc, &write.path)?;
    let body = write.body.copy(alloc)?;
    Ok(Write {
        id,
        path,
        parent: write.parent,
        deleted: write.deleted,
        body,
    })
}
