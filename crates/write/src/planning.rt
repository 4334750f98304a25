//! The plan of one document, and what is told of it.

ghost use Rattle.std.specs.Prelude.{◌≡◌, ◌<◌, ◌∷◌, [], Ok, IfOk, IfSome, map, option_map, string_bytes, codes, length};
ghost use Rattle.couch_json.specs.View.{view};
ghost use Rattle.tree.specs.History.{HistoryContent};
ghost use Rattle.std.specs.Option.{option_to_list};
ghost use Rattle.store.specs.Database.{Database, with_all};
ghost use Rattle.store.specs.Writing.{addition_of, written_at, written_in};
ghost use Rattle.write.specs.Bulk.{outcome_told, put_before};
ghost use Rattle.write.specs.BulkResults.{IsMadeOutcome, IsUnrefused, OfFirst, told_as, told_of};
ghost use Rattle.write.specs.Document.{member_text};
ghost use Rattle.write.specs.Planning.{AreWrites, MayBeMade, database_after, planned_writes};
ghost use Rattle.store.specs.Contents.{AreAcceptable};

use crate::document::copy_text;
use crate::planned::{Changes, DocumentResult, Outcome, Planned};
use couch_json::{Got, Json};
use std::alloc::Global;
use store::{DbName, Write};

/// What a document calls itself, by which its result is told.
#[derive(Drop)]
pub(crate) struct Label {
    /// Its `_id`, where that is a text.
    pub(crate) id: Option<String>,
    /// Its `_rev`, where that is a text.
    pub(crate) rev: Option<String>,
}

/// Reads what a document calls itself.
pub(crate) fn read_label(alloc: Global, document: &Json) -> Got<Label>
    ensures id { IfOk result (λ label. option_map string_bytes label.id ≡ member_text (codes "_id") (view document.now)) }
    ensures rev { IfOk result (λ label. option_map string_bytes label.rev ≡ member_text (codes "_rev") (view document.now)) }
{
    let id = copy_text(alloc, document, "_id")?;
    let rev = copy_text(alloc, document, "_rev")?;
    Ok(Label { id, rev })
}

/// Tells what became of a document that was not refused.
pub(crate) fn tell_outcome(write: &Option<Write>) -> Outcome
    requires { IfSome write.now (λ w. 0 < length w.path.items) }
    ensures told { (h : HistoryContent) → outcome_told (Ok (option_map (λ w. written_in h (addition_of w)) write.now)) ≡ result }
    ensures unrefused { IsUnrefused result }
    ensures made { IfSome write.now (λ w. IsMadeOutcome result) }
{
    match write {
        Some(write) => Outcome::Made(write.path[0]),
        None => Outcome::Known,
    }
}

/// Plans the write of one document, or nothing where there is nothing to write.
pub(crate) fn plan_alone(
    alloc: Global,
    db: &DbName,
    label: Label,
    write: Option<Write>,
) -> Got<Planned>
    requires { IfSome write (λ w. 0 < length w.path.items) }
    ensures writes { IfOk result
        (λ planned. (d : Database) → planned_writes d planned.changes ≡ put_before (Ok (option_map (λ w. written_at d (addition_of w)) write)) []) }
    ensures changed { IfOk result (λ planned. (d : Database) → database_after planned.changes d ≡ with_all d (planned_writes d planned.changes)) }
    ensures may { IfOk result (λ planned. (d : Database) → AreAcceptable d (planned_writes d planned.changes) → MayBeMade planned.changes d) }
    ensures appends { IfOk result (λ planned. AreWrites planned.changes) }
    ensures results { IfOk result (λ planned. (h : HistoryContent) → map told_of planned.results.items
        ≡ told_as label (Ok (option_map (λ w. written_in h (addition_of w)) write)) ∷ []) }
    ensures unrefused { IfOk result (λ planned. OfFirst IsUnrefused planned.results.items) }
    ensures made { IfOk result (λ planned. IfSome write (λ w. OfFirst IsMadeOutcome planned.results.items)) }
    ensures database { IfOk result (λ planned. planned.database ≡ db.now) }
{
    let outcome = tell_outcome(&write);
    let mut results = Vec::with_capacity(alloc, 1)?;
    results.push(tell_result(label, outcome))?;
    Ok(Planned {
        database: db.copy(alloc)?,
        changes: Changes::Writes(list_write(alloc, write)?),
        results,
    })
}

/// Tells what became of a document with this label.
pub(crate) fn tell_result(label: Label, outcome: Outcome) -> DocumentResult
    ensures label { told_of result ≡ record { id = option_map string_bytes label.id; rev = option_map string_bytes label.rev; outcome = outcome } }
    ensures outcome { result.outcome ≡ outcome }
{
    DocumentResult {
        id: label.id,
        rev: label.rev,
        outcome,
    }
}

/// Lists the write, where there is one.
fn list_write(alloc: Global, write: Option<Write>) -> Got<Vec<Write>>
    ensures { IfOk result (λ writes. writes.items ≡ option_to_list write) }
{
    let mut writes = Vec::with_capacity(alloc, 1)?;
    if let Some(write) = write {
        writes.push(write)?;
    }
    Ok(writes)
}
