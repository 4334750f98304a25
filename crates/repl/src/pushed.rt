//! What the reply to a push says.

ghost use Rattle.std.specs.Prelude.{◌≡◌, IfOk, OnOk, map, option_copied, option_map};
ghost use Rattle.couch_json.specs.Value.{Value, put};
ghost use Rattle.couch_json.specs.View.{members_view, view};
ghost use Rattle.repl.specs.Replies.{documents_pushed, failure_in, failure_report, label_value, failure_with_rule};
ghost use Rattle.repl.specs.Shapes.{list_in};
ghost use Rattle.repl.specs.Taken.{said_as};

use crate::element::{Shape, read_each};
use crate::label::{label_at, rule_in};
use crate::members::{put_text, text_at};
use crate::replies::value_in;
use crate::why::Why;
use couch_json::{Got, Json, NameMap, put_member};
use std::alloc::Global;

/// Reads the reply to a push: what is reported of the failures, in order.
pub fn documents_pushed(alloc: Global, status: u16, body: &[u8]) -> Got<Result<Vec<Json>, Why>>
    ensures { IfOk result (λ reply. said_as (λ rs. map view rs.items) reply ≡ documents_pushed status body.now) }
{
    if status != 201 {
        return Ok(Err(Why::Status(status)));
    }
    match value_in(alloc, body)? {
        Some(value) => Ok(failures_in(alloc, &value)?.ok_or(Why::Reply)),
        None => Ok(Err(Why::Reply)),
    }
}

/// Reads the failures of a list.
fn failures_in(alloc: Global, value: &Json) -> Got<Option<Vec<Json>>>
    ensures { IfOk result (λ reports. option_map (λ rs. map view rs.items) reports ≡ list_in failure_in (view value.now)) }
{
    match value.items() {
        Some(items) => read_each::<FailureShape>(alloc, items),
        None => Ok(None),
    }
}

/// A failure of a push. What is made of it is its report.
struct FailureShape;

impl Shape for FailureShape {
    type Element = Json;

    ghost Said = { Value };

    ghost said = { view };

    ghost said_in = { failure_in };

    fn read(alloc: Global, value: &Json) -> Got<Option<Json>> {
        let Some(error) = text_at(value, "error") else {
            return Ok(None);
        };
        let id = label_at(value, "id");
        if id.is_malformed() {
            return Ok(None);
        }
        let Some(reason) = text_at(value, "reason") else {
            return Ok(None);
        };
        let rev = label_at(value, "rev");
        if rev.is_malformed() {
            return Ok(None);
        }
        let rule = rule_in(value.member("rule"));
        if rule.is_malformed() {
            return Ok(None);
        }
        let report = failure_report(alloc, error, id.text(), reason, rev.text(), rule.text())?;
        Ok(Some(report))
    }
}

/// Makes what is reported of a document that could not be written.
fn failure_report(
    alloc: Global,
    error: &str,
    id: Option<&str>,
    reason: &str,
    rev: Option<&str>,
    rule: Option<&str>,
) -> Got<Json>
    ensures { IfOk result (λ report. view report
        ≡ failure_report error.now (option_copied id.entry) reason.now (option_copied rev.entry) (option_copied rule.entry)) }
{
    let mut members = NameMap::new(alloc);
    put_text(alloc, &mut members, "error", error)?;
    put_label(alloc, &mut members, "id", id)?;
    put_text(alloc, &mut members, "reason", reason)?;
    put_label(alloc, &mut members, "rev", rev)?;
    put_rule(alloc, &mut members, rule)?;
    Ok(Json::Object(members))
}

/// Puts a text at a name, and null where there is none.
fn put_label(alloc: Global, members: &mut NameMap<Json>, name: &str, label: Option<&str>) -> Got<()>
    ensures { OnOk result (members_view members.new.entries
        ≡ put name.now (label_value (option_copied label.entry)) (members_view members.old.entries)) }
{
    match label {
        Some(label) => put_text(alloc, members, name, label),
        None => put_member(alloc, members, name, Json::Null),
    }
}

/// Puts the rule, if there is one.
fn put_rule(alloc: Global, members: &mut NameMap<Json>, rule: Option<&str>) -> Got<()>
    ensures { OnOk result (members_view members.new.entries
        ≡ failure_with_rule (option_copied rule.entry) (members_view members.old.entries)) }
{
    match rule {
        Some(rule) => put_text(alloc, members, "rule", rule),
        None => Ok(()),
    }
}
