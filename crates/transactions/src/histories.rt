//! The history that the rows of a document's revisions make.

ghost use Rattle.std.specs.Prelude.{◌≡◌, IfErr, IfOk, OnOk, Some, option_map};
ghost use Rattle.std.specs.List.{AllByRecursion};
ghost use Rattle.tables.specs.Shown.{IsShownOutline, IsShownRevision};
ghost use Rattle.couch_json.specs.Value.{null};
ghost use Rattle.couch_json.specs.View.{view};
ghost use Rattle.tree.specs.History.{entry_of_row, with_new};
ghost use Rattle.transactions.specs.Reading.{IsLost, IsRead, entry_shown, history_shown, node_shown, outline_shown};

use sqlite::Row;
use std::alloc::Global;
use store::StoreFault;
use tables::{FoundNode, FoundRevision, RowFault, read_node, read_revision};
use tree::{History, Outline};

/// Reads the revision of a row.
fn read_row(alloc: Global, row: &Row) -> Result<FoundRevision, StoreFault>
    ensures ok { IfOk result (λ d. (d.rev, entry_of_row d.parent (option_map (λ h. (h.0, view h.1)) d.held)) ≡ entry_shown row.now) }
    ensures err { IfErr result (IsLost (IsShownRevision row.now)) }
{
    match read_revision(alloc, row) {
        Ok(found) => Ok(found),
        Err(RowFault::Memory) => Err(StoreFault::Memory),
        Err(RowFault::Damaged) => Err(StoreFault::Damaged),
    }
}

/// Takes in the revision of a row.
fn put_row(alloc: Global, history: &mut History, row: &Row) -> Result<(), StoreFault>
    ensures ok { OnOk result (history.new ≡ with_new history.old (entry_shown row.now).0 (entry_shown row.now).1) }
    ensures err { IfErr result (IsLost (IsShownRevision row.now)) }
{
    let FoundRevision { rev, parent, held } = read_row(alloc, row)?;
    history.put_revision(rev, parent, held)?;
    Ok(())
}

/// Reads the history that the rows make. A row's memory is given back once its revision is read.
pub fn read_history(alloc: Global, rows: Vec<Row>) -> Result<History, StoreFault>
    ensures { IsRead (λ history. history) (Some (history_shown rows.items)) (AllByRecursion IsShownRevision rows.items) result }
{
    let mut history = History::new(alloc);
    for row in rows {
        put_row(alloc, &mut history, &row)?;
    }
    Ok(history)
}

/// Reads the revision of a row without its body.
fn read_node_row(row: &Row) -> Result<FoundNode, StoreFault>
    ensures ok { IfOk result (λ d. (d.rev, entry_of_row d.parent (option_map (λ deleted. (deleted, null)) d.mark)) ≡ node_shown row.now) }
    ensures err { IfErr result (IsLost (IsShownOutline row.now)) }
{
    match read_node(row) {
        Ok(found) => Ok(found),
        Err(RowFault::Memory) => Err(StoreFault::Memory),
        Err(RowFault::Damaged) => Err(StoreFault::Damaged),
    }
}

/// Takes in the revision of a row without its body.
fn put_node(outline: &mut Outline, row: &Row) -> Result<(), StoreFault>
    ensures ok { OnOk result (outline.new ≡ with_new outline.old (node_shown row.now).0 (node_shown row.now).1) }
    ensures err { IfErr result (IsLost (IsShownOutline row.now)) }
{
    let FoundNode { rev, parent, mark } = read_node_row(row)?;
    outline.put_revision(rev, parent, mark)?;
    Ok(())
}

/// Reads the outline that the rows make. A row's memory is given back once its revision is read.
pub fn read_outline(alloc: Global, rows: Vec<Row>) -> Result<Outline, StoreFault>
    ensures { IsRead (λ outline. outline) (Some (outline_shown rows.items)) (AllByRecursion IsShownOutline rows.items) result }
{
    let mut outline = Outline::new(alloc);
    for row in rows {
        put_node(&mut outline, &row)?;
    }
    Ok(outline)
}
