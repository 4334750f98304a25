//! Rows on security objects and update rules.

use crate::callers::{caller_of, setting_of};
use crate::fault::{RowsFault, named};
use crate::playing::Asked;
use crate::texts::{first_word, put, text_of};
use crate::trees::{NO_REVISION, edit_of};
use crate::values::put_value;
use auth::Caller;
use couch_json::{Json, read};
use policy::{Action, Rule, RuleSet, Security, argument, check_design, refusal, show_new};
use std::alloc::Global;
use tree::{DocId, Rev, show};

/// `closed`: the security object of a new database. `VALUE`: its canonical text as a security object,
/// or `Shape`. `WHO ACTION on VALUE`: `allowed`, or the rule that refuses. The head says `user NAME
/// ROLES`; `anybody` has no name. Actions: `administers`, `reads`, `writes`, `designs`, `secures`.
pub fn security(asked: Asked<'_>, out: &mut String) -> Result<(), RowsFault> {
    let Some((who, value)) = asked.text().split_once(" on ") else {
        let security = security_of(asked.alloc, asked.text(), out)?;
        return put_value(asked.alloc, security.value(), out);
    };
    let (name, action) = first_word(who);
    let action = action_of(action)?;
    let caller = caller_of(asked, name, out)?;
    let security = security_of(asked.alloc, value, out)?;
    put(verdict(action, &caller, &security), out)
}

/// Returns a copy of the security object of a text.
fn security_of(alloc: Global, text: &str, out: &mut String) -> Result<Security, RowsFault> {
    if text == "closed" {
        return Ok(Security::closed(alloc)?.copy(alloc)?);
    }
    let value = named(read(alloc, text.as_bytes()), out)?;
    Ok(named(Security::read(alloc, &value), out)?.copy(alloc)?)
}

/// Returns the action of a word.
fn action_of(word: &str) -> Result<Action, RowsFault> {
    match word {
        "administers" => Ok(Action::Administer),
        "reads" => Ok(Action::Read),
        "writes" => Ok(Action::WriteDocument),
        "designs" => Ok(Action::WriteDesign),
        "secures" => Ok(Action::WriteSecurity),
        _ => Err(RowsFault::Refused("no such action")),
    }
}

/// Returns the rule that refuses, or `allowed`.
fn verdict(action: Action, caller: &Caller, security: &Security) -> &'static str {
    match refusal(action, caller, security) {
        None => "allowed",
        Some(Rule::ServerAdmin) => "server_admin",
        Some(Rule::DbMember) => "db_member",
        Some(Rule::DbAdmin) => "db_admin",
        Some(Rule::DesignDocument) => "design_document",
        Some(_) => "another rule",
    }
}

/// The design documents of one database a table, none at its start.
///
/// `check BODY`: `good`, or `bad` where no design document may have the body.
/// `design ID BODY`: that; the rule of the body counts from then on, good or bad.
/// `WHO puts ID BODY`, `WHO deletes ID`, each with ` after REV BODY` or ` after deleted REV BODY` where
/// it follows a revision: `no rules`, `allowed`, or the design document whose rule refuses.
/// `argument WHO puts ..`: what the rules are asked of.
/// The head says `user NAME ROLES` and `security VALUE`; `anybody` has no name. The database is `db`.
pub fn rules(asked: Asked<'_>, out: &mut String) -> Result<(), RowsFault> {
    let (verb, rest) = first_word(asked.text());
    match verb {
        "check" => check(asked.alloc, rest, out),
        "design" => check(asked.alloc, first_word(rest).1, out),
        "argument" => {
            let argument = argument_of(asked, rest, out)?;
            put_value(asked.alloc, &argument, out)
        }
        _ => judge(asked, out),
    }
}

/// Tells whether a design document may have a body.
fn check(alloc: Global, body: &str, out: &mut String) -> Result<(), RowsFault> {
    let body = named(read(alloc, body.as_bytes()), out)?;
    put(
        if check_design(alloc, &body)? {
            "good"
        } else {
            "bad"
        },
        out,
    )
}

/// Tells what the rules of the design documents above say of a write.
fn judge(asked: Asked<'_>, out: &mut String) -> Result<(), RowsFault> {
    let mut rules = RuleSet::new(asked.alloc);
    for row in asked.above {
        if let Some(document) = text_of(&row.question).strip_prefix("design ") {
            let (id, body) = first_word(document);
            let id = named(DocId::new(asked.alloc, id), out)?;
            let body = named(read(asked.alloc, body.as_bytes()), out)?;
            rules.put(&id, &body)?;
        }
    }
    if rules.is_empty() {
        return Err(RowsFault::Refused("no rules"));
    }
    let argument = argument_of(asked, asked.text(), out)?;
    match rules.refusal(&argument) {
        Some(id) => put(id.as_str(), out),
        None => put("allowed", out),
    }
}

/// Builds the argument of a write.
fn argument_of(asked: Asked<'_>, text: &str, out: &mut String) -> Result<Json, RowsFault> {
    let (name, write) = first_word(text);
    let caller = caller_of(asked, name, out)?;
    let security = security_of(asked.alloc, setting_of(asked.head, "security"), out)?;
    let (write, before) = write.split_once(" after ").unwrap_or((write, ""));
    let (action, document) = first_word(write);
    let (id, body) = first_word(document);
    let id = named(DocId::new(asked.alloc, id), out)?;
    let new = new_document(asked.alloc, action, &id, body, out)?;
    let old = old_document(asked.alloc, &id, before, out)?;
    Ok(argument(asked.alloc, new, old, &caller, "db", &security)?)
}

/// Shows the document that is put or deleted.
fn new_document(
    alloc: Global,
    action: &str,
    id: &DocId,
    body: &str,
    out: &mut String,
) -> Result<Json, RowsFault> {
    let (deleted, body) = match action {
        "puts" => (false, body),
        "deletes" => (true, "{}"),
        _ => return Err(RowsFault::Refused("no document")),
    };
    let body = named(read(alloc, body.as_bytes()), out)?;
    Ok(show_new(alloc, id, deleted, &body)?)
}

/// Shows the revision that is followed; an empty text is none.
fn old_document(
    alloc: Global,
    id: &DocId,
    text: &str,
    out: &mut String,
) -> Result<Option<Json>, RowsFault> {
    if text.is_empty() {
        return Ok(None);
    }
    let (deleted, text) = edit_of(text);
    let (rev, body) = first_word(text);
    let body = named(read(alloc, body.as_bytes()), out)?;
    match Rev::parse(rev.as_bytes()) {
        Some(rev) => Ok(Some(show(alloc, id, &rev, deleted, &body)?)),
        None => Err(NO_REVISION),
    }
}
