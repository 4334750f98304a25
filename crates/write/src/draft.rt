//! Documents of several, read as far as that takes no history.

ghost use Rattle.std.specs.Prelude.{◌≡◌, IfOk, codes, option_map, string_bytes};
ghost use Rattle.couch_json.specs.View.{view};
ghost use Rattle.write.specs.Admission.{given};
ghost use Rattle.write.specs.Bulk.{Histories, document_outcome, outcome_in};
ghost use Rattle.write.specs.Document.{id_in, member_text};
ghost use Rattle.write.specs.inner.Drafts.{outcome_asked};

use crate::document::read_id;
use crate::fault::WriteFault;
use crate::planning::{Label, read_label};
use crate::replicating::{Replica, read_replica};
use crate::request_terms::RequestTerms;
use couch_json::{Got, Json, NoMemory};
use policy::Rule;
use std::alloc::Global;
use tree::DocId;

/// A document of several, read as far as that takes no history.
#[derive(Drop)]
pub(crate) struct Draft {
    /// What it calls itself.
    pub(crate) label: Label,
    /// The id that it gives itself, if it gives one.
    pub(crate) id: Option<DocId>,
    /// What it asks for.
    pub(crate) request: Request,
}

/// What a document of several asks for.
#[derive(Drop)]
pub(crate) enum Request {
    /// To be judged as an edit.
    Edit(Json),
    /// To be judged as a replicated write.
    Replicate(Replica),
    /// Nothing: it is a bad document.
    Bad,
    /// A replicated write that this rule refuses, whatever the history is.
    Forbidden(Rule),
}

/// Reads a document of several; of a replicated one it makes the path too. It asks for no history.
pub(crate) fn read_draft(
    alloc: Global,
    terms: &RequestTerms,
    new_edits: bool,
    document: Json,
) -> Got<Draft>
    ensures id { IfOk result (λ draft. draft.id ≡ id_in (view document)) }
    ensures label_id { IfOk result (λ draft. option_map string_bytes draft.label.id ≡ member_text (codes "_id") (view document)) }
    ensures label_rev { IfOk result (λ draft. option_map string_bytes draft.label.rev ≡ member_text (codes "_rev") (view document)) }
    ensures outcome { IfOk result (λ draft. (histories : Histories) → outcome_in terms.now new_edits histories (view document)
        ≡ outcome_asked terms.now histories draft.request draft.id) }
{
    let label = read_label(alloc, &document)?;
    let id = read_id(alloc, &document)?;
    let request = read_request(alloc, terms, &id, new_edits, document)?;
    Ok(Draft { label, id, request })
}

/// Reads what a document of several asks for, which gives itself this id, if it gives one.
fn read_request(
    alloc: Global,
    terms: &RequestTerms,
    id: &Option<DocId>,
    new_edits: bool,
    document: Json,
) -> Got<Request>
    ensures { IfOk result (λ request. (histories : Histories) → given WriteFault.BadDocument id.now
        (λ own. document_outcome terms.now new_edits own (histories own) (view document))
        ≡ outcome_asked terms.now histories request id.now) }
{
    let Some(id) = id else {
        return Ok(Request::Bad);
    };
    if new_edits {
        return Ok(Request::Edit(document));
    }
    match read_replica(alloc, terms, id, document) {
        Ok(replica) => Ok(Request::Replicate(replica)),
        Err(WriteFault::BadDocument) => Ok(Request::Bad),
        Err(WriteFault::Denied(rule)) => Ok(Request::Forbidden(rule)),
        Err(WriteFault::Memory) => Err(NoMemory),
        Err(WriteFault::BadHistory) => unreachable!(),
        Err(WriteFault::Conflict) => unreachable!(),
        Err(WriteFault::Generation) => unreachable!(),
        Err(WriteFault::Store(_cause)) => unreachable!(),
    }
}
