//! What becomes of an edit of a document with a history.

ghost use Rattle.std.specs.Prelude.{◌≡◌, ◌≢◌, ◌<◌, ◌∷◌, [], IfOk, IfErr, None, Some, Ok, Err, length};
ghost use Rattle.couch_json.specs.Parts.{is_there_and};
ghost use Rattle.couch_json.specs.View.{view};
ghost use Rattle.tree.specs.History.{HistoryContent, ancestors_of_parent, is_known, winner};
ghost use Rattle.store.specs.Writing.{addition_of, written_in};
ghost use Rattle.write.specs.Admission.{design_refusal, edit_of, edit_outcome, given, implicit_parent, named_revision, next_edit};
ghost use Rattle.write.specs.Admission.{parent_for_edit, revision_after, rule_refusal, unless_denied, write_at};
ghost use Rattle.write.specs.inner.Edits.{base_of, named_of};
ghost use Rattle.write.specs.inner.Following.{edit_following};

use crate::denial::find_rule_refusal;
use crate::document::{NamedRevision, ParsedDocument, read_sent};
use crate::fault::WriteFault;
use crate::request_terms::RequestTerms;
use couch_json::{Got, Json, NoMemory};
use std::alloc::Global;
use store::Write;
use tree::{Body, DocId, History, Rev, RevFault, next_rev};

/// What an edit follows.
#[derive(Clone, Copy, Drop)]
enum Base {
    /// No revision, since the document was never written.
    New,
    /// This leaf.
    Leaf(Rev),
    /// There is nothing that it may follow.
    Conflict,
}

/// Judges an edit of a document with this history: its write, or why it is refused.
pub(crate) fn admit_edit(
    alloc: Global,
    terms: &mut RequestTerms,
    history: &History,
    id: &DocId,
    query: Option<Rev>,
    document: Json,
) -> Result<Write, WriteFault>
    ensures ok { IfOk result (λ write. edit_outcome terms.old id.now history.now query (view document) ≡ Ok (written_in history.now (addition_of write))) }
    ensures headed { IfOk result (λ write. 0 < length write.path.items) }
    ensures fault { IfErr result (λ fault. fault ≢ WriteFault.Memory → edit_outcome terms.old id.now history.now query (view document) ≡ Err fault) }
    ensures others { IfErr result (λ fault. (fault ≢ WriteFault.BadHistory) × ((cause : _) → fault ≢ WriteFault.Store cause)) }
    ensures terms { terms.new ≡ terms.old }
{
    let sent = read_allowed(alloc, terms, id, query, document)?;
    admit_sent(alloc, terms, history, id, sent)
}

/// Reads what an edit says, where it is a good document that the caller may write at all.
pub(crate) fn read_allowed(
    alloc: Global,
    terms: &RequestTerms,
    id: &DocId,
    query: Option<Rev>,
    document: Json,
) -> Result<ParsedDocument, WriteFault>
    ensures ok { IfOk result (λ sent. edit_of id.now query (view document) ≡ Some sent) }
    ensures allowed { IfOk result (λ sent. design_refusal terms.now id.now ≡ None) }
    ensures fault { IfErr result
        (λ fault. fault ≢ WriteFault.Memory → (h : HistoryContent) → edit_outcome terms.now id.now h query (view document) ≡ Err fault) }
    ensures others { IfErr result (λ fault. (fault ≢ WriteFault.BadHistory) × ((cause : _) → fault ≢ WriteFault.Store cause)) }
{
    let Some(sent) = read_edit(alloc, id, query, document)? else {
        return Err(WriteFault::BadDocument);
    };
    if let Some(rule) = terms.find_design_refusal(id) {
        return Err(WriteFault::Denied(rule));
    }
    Ok(sent)
}

/// Judges what an edit says of a document with this history.
pub(crate) fn admit_sent(
    alloc: Global,
    terms: &mut RequestTerms,
    history: &History,
    id: &DocId,
    sent: ParsedDocument,
) -> Result<Write, WriteFault>
    ensures ok { IfOk result
        (λ write. edit_following terms.old id.now history.now sent ≡ Ok (written_in history.now (addition_of write))) }
    ensures headed { IfOk result (λ write. 0 < length write.path.items) }
    ensures fault { IfErr result (λ fault. fault ≢ WriteFault.Memory
        → edit_following terms.old id.now history.now sent ≡ Err fault) }
    ensures others { IfErr result (λ fault. (fault ≢ WriteFault.BadHistory) × ((cause : _) → fault ≢ WriteFault.Store cause)) }
    ensures terms { terms.new ≡ terms.old }
{
    match find_base(history, sent.rev) {
        Base::New => write_next(alloc, terms, history, id, sent, None),
        Base::Leaf(leaf) => write_next(alloc, terms, history, id, sent, Some(leaf)),
        Base::Conflict => Err(WriteFault::Conflict),
    }
}

/// Reads what an edit says, with the revision that its query names; `None` where the document is a
/// bad one.
fn read_edit(
    alloc: Global,
    id: &DocId,
    query: Option<Rev>,
    document: Json,
) -> Got<Option<ParsedDocument>>
    ensures { IfOk result (λ sent. sent ≡ edit_of id.now query (view document)) }
{
    let Some(sent) = read_sent(alloc, id, document)? else {
        return Ok(None);
    };
    match match_revisions(query, sent.rev) {
        NamedRevision::Absent => Ok(Some(ParsedDocument { rev: None, ..sent })),
        NamedRevision::Malformed => Ok(None),
        NamedRevision::Given(rev) => Ok(Some(ParsedDocument {
            rev: Some(rev),
            ..sent
        })),
    }
}

/// Returns the revision that an edit names: in its query, in its document, or in both alike.
fn match_revisions(query: Option<Rev>, own: Option<Rev>) -> NamedRevision
    ensures { named_of result ≡ named_revision query own }
{
    match (query, own) {
        (None, None) => NamedRevision::Absent,
        (Some(rev), None) | (None, Some(rev)) => NamedRevision::Given(rev),
        (Some(rev), Some(own)) => {
            if rev.cmp(&own).is_eq() {
                NamedRevision::Given(rev)
            } else {
                NamedRevision::Malformed
            }
        }
    }
}

/// Finds what an edit that names this revision, or none, follows.
fn find_base(history: &History, rev: Option<Rev>) -> Base
    ensures { base_of result ≡ parent_for_edit history.now rev }
{
    let Some(rev) = rev else {
        return find_extended_leaf(history);
    };
    if !history.is_leaf(&rev) {
        return Base::Conflict;
    }
    Base::Leaf(rev)
}

/// Finds what an edit that names no revision follows.
fn find_extended_leaf(history: &History) -> Base
    ensures { base_of result ≡ implicit_parent history.now (winner history.now) }
{
    if history.is_live() {
        return Base::Conflict;
    }
    match history.winner().copied() {
        Some(leaf) => Base::Leaf(leaf),
        None => Base::New,
    }
}

/// Writes what an edit says as the next revision after this one.
pub(crate) fn write_next(
    alloc: Global,
    terms: &mut RequestTerms,
    history: &History,
    id: &DocId,
    sent: ParsedDocument,
    parent: Option<Rev>,
) -> Result<Write, WriteFault>
    ensures ok { IfOk result (λ write. next_edit terms.old id.now history.now sent parent ≡ Ok (written_in history.now (addition_of write))) }
    ensures headed { IfOk result (λ write. 0 < length write.path.items) }
    ensures fault { IfErr result (λ fault. fault ≢ WriteFault.Memory → next_edit terms.old id.now history.now sent parent ≡ Err fault) }
    ensures others { IfErr result (λ fault. (fault ≢ WriteFault.BadHistory) × ((cause : _) → fault ≢ WriteFault.Store cause)) }
    ensures terms { terms.new ≡ terms.old }
{
    let next = make_revision(alloc, &sent, parent)?;
    if knows(history, next) {
        return Err(WriteFault::Conflict);
    }
    let rev = allow_revision(alloc, terms, history, id, &sent, parent, next)?;
    Ok(make_write(alloc, id, rev, parent, sent.deleted, sent.body)?)
}

/// Returns the revision that an edit makes after another one, where there is one and no update rule
/// refuses it. Of the history it looks at what is held of the other revision.
pub(crate) fn allow_revision(
    alloc: Global,
    terms: &mut RequestTerms,
    history: &History,
    id: &DocId,
    sent: &ParsedDocument,
    parent: Option<Rev>,
    next: Option<Rev>,
) -> Result<Rev, WriteFault>
    ensures ok { IfOk result (λ rev. next ≡ Some rev) }
    ensures unruled { IfOk result (λ rev. rule_refusal terms.old id.now history.now sent.now parent ≡ None) }
    ensures fault { IfErr result
        (λ fault. fault ≢ WriteFault.Memory → (h : HistoryContent)
        → rule_refusal terms.old id.now h sent.now parent ≡ rule_refusal terms.old id.now history.now sent.now parent
        → unless_denied (rule_refusal terms.old id.now h sent.now parent)
        (given WriteFault.Generation next (λ rev. Ok (write_at id.now (rev ∷ ancestors_of_parent h parent) sent.now))) ≡ Err fault) }
    ensures others { IfErr result (λ fault. (fault ≢ WriteFault.BadHistory) × ((cause : _) → fault ≢ WriteFault.Store cause)) }
    ensures terms { terms.new ≡ terms.old }
{
    if let Some(rule) = find_rule_refusal(alloc, terms, history, id, sent, parent)? {
        return Err(WriteFault::Denied(rule));
    }
    match next {
        Some(rev) => Ok(rev),
        None => Err(WriteFault::Generation),
    }
}

/// Makes the write of one revision after another one.
pub(crate) fn make_write(
    alloc: Global,
    id: &DocId,
    rev: Rev,
    parent: Option<Rev>,
    deleted: bool,
    body: Body,
) -> Got<Write>
    ensures { IfOk result (λ write. addition_of write ≡ record { id = id.now; path = rev ∷ []; parent = parent; deleted = deleted; body = body }) }
{
    let mut path = Vec::with_capacity(alloc, 1)?;
    path.push(rev)?;
    Ok(Write {
        id: id.copy(alloc)?,
        path,
        parent,
        deleted,
        body: body.into_json(),
    })
}

/// Makes the next revision after this one, or a first one; `None` after the greatest number.
pub(crate) fn make_revision(
    alloc: Global,
    sent: &ParsedDocument,
    parent: Option<Rev>,
) -> Got<Option<Rev>>
    ensures { IfOk result (λ next. next ≡ revision_after sent.now parent) }
{
    match next_rev(alloc, parent.as_ref(), sent.deleted, sent.body.json()) {
        Ok(rev) => Ok(Some(rev)),
        Err(RevFault::Generation) => Ok(None),
        Err(RevFault::Memory) => Err(NoMemory),
    }
}

/// Tells whether the history knows the revision, if there is one.
fn knows(history: &History, rev: Option<Rev>) -> bool
    ensures { result ≡ is_there_and (is_known history.now) rev }
{
    match rev {
        Some(rev) => history.knows(&rev),
        None => false,
    }
}
