//! What becomes of opened revisions: documents, and reports of those that are missing.

ghost use Rattle.std.specs.Prelude.{◌≡◌, ◌++◌, ◌∷◌, [], IfOk, OnOk, OnErr, map};
ghost use Rattle.couch_json.specs.View.{view};
ghost use Rattle.repl.specs.Replies.{documents_of_opened, missing_reports};
ghost use Rattle.repl.specs.Taken.{opened_of};

use crate::opened::{OpenedRevision, missing_report};
use couch_json::{Got, Json, NoMemory};
use std::alloc::Global;

/// Copies the documents among opened revisions.
pub fn documents_of(alloc: Global, opened: &[OpenedRevision]) -> Got<Vec<Json>>
    ensures { IfOk result (λ ds. map view ds.items ≡ documents_of_opened (map opened_of opened.now)) }
{
    let mut documents = Vec::new(alloc);
    for revision in opened {
        push_document(alloc, &mut documents, revision)?;
    }
    Ok(documents)
}

/// Adds the document of an opened revision, if it has one.
fn push_document(alloc: Global, documents: &mut Vec<Json>, revision: &OpenedRevision) -> Got<()>
    ensures { OnOk result (map view documents.new.items ≡ map view documents.old.items ++ documents_of_opened (opened_of revision.now ∷ [])) }
{
    match revision {
        OpenedRevision::Document(document) => {
            documents.push(document.copy(alloc)?)?;
            Ok(())
        }
        OpenedRevision::Missing(_) => Ok(()),
    }
}

/// Makes what is reported of the revisions of a document that are missing.
pub fn missing_reports(alloc: Global, id: &str, opened: &[OpenedRevision]) -> Got<Vec<Json>>
    ensures { IfOk result (λ rs. map view rs.items ≡ missing_reports id.now (map opened_of opened.now)) }
{
    let mut reports = Vec::new(alloc);
    for revision in opened {
        push_report(alloc, &mut reports, id, revision)?;
    }
    Ok(reports)
}

/// Adds what is reported of an opened revision, if it is missing.
fn push_report(
    alloc: Global,
    reports: &mut Vec<Json>,
    id: &str,
    revision: &OpenedRevision,
) -> Got<()>
    ensures { OnOk result (map view reports.new.items ≡ map view reports.old.items ++ missing_reports id.now (opened_of revision.now ∷ [])) }
{
    match revision {
        OpenedRevision::Document(_) => Ok(()),
        OpenedRevision::Missing(revision) => {
            reports.push(missing_report(alloc, id, revision.as_str())?)?;
            Ok(())
        }
    }
}

/// Appends to two lists, or leaves both as they are.
pub fn append_both(
    first: &mut Vec<Json>,
    more: Vec<Json>,
    second: &mut Vec<Json>,
    others: Vec<Json>,
) -> Got<()>
    ensures first { OnOk result (first.new.items ≡ first.old.items ++ more.items) }
    ensures second { OnOk result (second.new.items ≡ second.old.items ++ others.items) }
    ensures first_kept { OnErr result (first.new.items ≡ first.old.items) }
    ensures second_kept { OnErr result (second.new.items ≡ second.old.items) }
{
    let mut more = more;
    let mut others = others;
    let kept = first.len();
    first.append(&mut more)?;
    match second.append(&mut others) {
        Ok(()) => Ok(()),
        Err(_) => {
            first.truncate(kept);
            Err(NoMemory)
        }
    }
}
