//! The rules that refuse a write.

ghost use Rattle.std.specs.Prelude.{◌≡◌, IfOk, None, if◌then◌else◌, is_some, option_map};
ghost use Rattle.couch_json.specs.View.{view};
ghost use Rattle.tree.specs.History.{held_of};
ghost use Rattle.policy.specs.Argument.{old_document};
ghost use Rattle.policy.specs.Verdict.{verdict};
ghost use Rattle.policy.specs.declared.action.Action.TheVariants.{WriteDesign};
ghost use Rattle.tree.specs.DocumentId.{is_design_id};
ghost use Rattle.write.specs.Admission.{ancestors, held_document, nearest_held, rule_refusal};

use crate::document::ParsedDocument;
use crate::request_terms::RequestTerms;
use auth::Caller;
use couch_json::{Got, Json};
use policy::{Action, Rule, Security, refusal, show_new};
use std::alloc::Global;
use tree::{DocId, History, Rev, show};

/// Finds the rule by which this caller may not write this document under a security object, whatever it
/// says: who is no admin of the database writes no design document.
pub(crate) fn find_design_rule(caller: &Caller, security: &Security, id: &DocId) -> Option<Rule>
    ensures { result ≡ (if is_design_id id.now then verdict WriteDesign caller.now security.now else None) }
{
    if id.is_design() {
        refusal(Action::WriteDesign, caller, security)
    } else {
        None
    }
}

/// Finds the first update rule that does not hold of what is sent and of this revision of the
/// document. Where there are no rules nothing is copied.
pub(crate) fn find_rule_refusal(
    alloc: Global,
    terms: &mut RequestTerms,
    history: &History,
    id: &DocId,
    sent: &ParsedDocument,
    rev: Option<Rev>,
) -> Got<Option<Rule>>
    ensures answer { IfOk result (λ rule. rule ≡ rule_refusal terms.old id.now history.now sent.now rev) }
    ensures terms { terms.new ≡ terms.old }
{
    if id.is_design() {
        return Ok(None);
    }
    if terms.has_no_rules() {
        return Ok(None);
    }
    let new = show_new(alloc, id, sent.deleted, sent.body.json())?;
    let old = show_old(alloc, history, id, rev)?;
    terms.find_broken_rule(new, old)
}

/// Shows a revision of the document as it is, where there is one and its body is held.
fn show_old(alloc: Global, history: &History, id: &DocId, rev: Option<Rev>) -> Got<Option<Json>>
    ensures { IfOk result (λ old. option_map view old ≡ option_map old_document (held_document id.now history.now rev)) }
{
    let Some(rev) = rev else {
        return Ok(None);
    };
    let Some((deleted, body)) = history.body(&rev) else {
        return Ok(None);
    };
    Ok(Some(show(alloc, id, &rev, deleted, body)?))
}

/// Finds the nearest revision behind the newest of a path whose body is held.
pub(crate) fn find_nearest_held(history: &History, path: &[Rev]) -> Option<Rev>
    ensures { result ≡ nearest_held history.now (ancestors path.now) }
{
    match path.split_first() {
        Some((_newest, behind)) => find_held(history, behind),
        None => None,
    }
}

/// Finds the first of these revisions whose body is held.
fn find_held(history: &History, revs: &[Rev]) -> Option<Rev>
    ensures { result ≡ nearest_held history.now revs.now }
{
    for rev in revs {
        if holds_body(history, rev) {
            return Some(*rev);
        }
    }
    None
}

/// Tells whether the body of a revision is held.
fn holds_body(history: &History, rev: &Rev) -> bool
    ensures { result ≡ is_some (held_of history.now rev.now) }
{
    history.body(rev).is_some()
}
